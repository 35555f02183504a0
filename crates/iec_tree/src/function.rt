// Standard functions.

ghost use Rattle.std.specs.Prelude.{◌≡◌};
ghost use Rattle.iec_tree.specs.Functions as spec;

/// The standard functions.
#[derive(Clone, Copy, Debug, PartialEq, Eq)]
pub enum Function {
    Abs,
    Min,
    Max,
    Limit,
    Sel,
    IntToDint,
    IntToLreal,
    DintToLreal,
    DintToInt,
    LrealToDint,
    LrealToInt,
    TimeToDint,
    DintToTime,
    BoolToInt,
    BoolToDint,
}

/// The standard functions.
pub const FUNCTIONS: [Function; 15] = [
    Function::Abs,
    Function::Min,
    Function::Max,
    Function::Limit,
    Function::Sel,
    Function::IntToDint,
    Function::IntToLreal,
    Function::DintToLreal,
    Function::DintToInt,
    Function::LrealToDint,
    Function::LrealToInt,
    Function::TimeToDint,
    Function::DintToTime,
    Function::BoolToInt,
    Function::BoolToDint,
];

// How a function is written in capitals.
#[tactic(auto, unfolding(crate::specs::Functions::function_text))]
fn function_text(function: Function) -> &'static str
    ensures { result.now ≡ spec.function_text function }
{
    match function {
        Function::Abs => "ABS",
        Function::Min => "MIN",
        Function::Max => "MAX",
        Function::Limit => "LIMIT",
        Function::Sel => "SEL",
        Function::IntToDint => "INT_TO_DINT",
        Function::IntToLreal => "INT_TO_LREAL",
        Function::DintToLreal => "DINT_TO_LREAL",
        Function::DintToInt => "DINT_TO_INT",
        Function::LrealToDint => "LREAL_TO_DINT",
        Function::LrealToInt => "LREAL_TO_INT",
        Function::TimeToDint => "TIME_TO_DINT",
        Function::DintToTime => "DINT_TO_TIME",
        Function::BoolToInt => "BOOL_TO_INT",
        Function::BoolToDint => "BOOL_TO_DINT",
    }
}

// How it is written with `REAL` for `LREAL`.
#[tactic(auto, unfolding(crate::specs::Functions::real_text))]
fn real_text(function: Function) -> &'static str
    ensures { result.now ≡ spec.real_text function }
{
    match function {
        Function::IntToLreal => "INT_TO_REAL",
        Function::DintToLreal => "DINT_TO_REAL",
        Function::LrealToDint => "REAL_TO_DINT",
        Function::LrealToInt => "REAL_TO_INT",
        _ => function_text(function),
    }
}

// Whether a function is written so, in any case of letters.
#[tactic(auto, unfolding(crate::specs::Functions::is_written))]
fn is_written(function: Function, name: &[u8]) -> bool
    ensures { result ≡ spec.is_written name.now function }
{
    function_text(function)
        .as_bytes()
        .eq_ignore_ascii_case(name)
        || real_text(function).as_bytes().eq_ignore_ascii_case(name)
}

/// The function of this name, in any case of letters.
#[tactic(auto, unfolding(crate::specs::Functions::function_named))]
pub fn function_named(name: &[u8]) -> Option<Function>
    ensures { result ≡ spec.function_named name.now }
{
    FUNCTIONS.iter().find(|f| is_written(**f, name)).copied()
}
