// The forms of a program's lines.

ghost use Rattle.std.specs.Prelude.{◌≡◌};
ghost use Rattle.plc_program.specs.Forms as spec;

/// The forms of a line after the first, by their first words.
#[derive(Clone, Copy, Debug, PartialEq, Eq)]
pub enum Form {
    Task,
    Block,
    Call,
    Wait,
    Repeat,
    Again,
}

/// The forms, in the order of a program.
const FORMS: [Form; 6] = [
    Form::Task,
    Form::Block,
    Form::Call,
    Form::Wait,
    Form::Repeat,
    Form::Again,
];

// The first word of a line of the form.
#[tactic(auto, unfolding(crate::specs::Forms::word_of))]
fn word_of(form: Form) -> &'static str
    ensures { result.now ≡ spec.word_of form }
{
    match form {
        Form::Task => "task",
        Form::Block => "block",
        Form::Call => "call",
        Form::Wait => "wait",
        Form::Repeat => "repeat",
        Form::Again => "again",
    }
}

/// The form of a line by its first word.
pub fn form_of(first: &[u8]) -> Option<Form>
    ensures { result ≡ spec.form_of first.now }
{
    FORMS
        .iter()
        .find(|form| word_of(**form).as_bytes() == first)
        .copied()
}

/// Whether this many words may stand after the first.
#[tactic(auto, unfolding(crate::specs::Forms::is_counted))]
pub fn is_counted(form: Form, count: usize) -> bool
    ensures { result ≡ spec.is_counted form count }
{
    match form {
        Form::Block => count == 3,
        Form::Call => 2 <= count,
        Form::Wait => count == 2,
        Form::Task | Form::Repeat => count == 1,
        Form::Again => count == 0,
    }
}
