// The table: what a token does where an item is expected.

ghost use Rattle.std.specs.Prelude.{◌≡◌};
ghost use Rattle.iec_grammar.specs.Lines.{line_of};
ghost use Rattle.iec_grammar.specs.Table as spec;

use crate::expressions::LEVELS;
use crate::item::Item;
use crate::row::Row;
use crate::{constants, declarations, expressions, files, places, statements};
use iec_tokens::Token;
use iec_tree::Part;

/// What a token does where an item is expected.
#[tactic(auto, unfolding(crate::specs::Table::row_of))]
pub fn row_of(item: Item, token: &Token) -> Row
    ensures { line_of result ≡ spec.row_of item token.now }
{
    match item {
        Item::File => files::file(token),
        Item::Programs => files::programs(token),
        Item::Sections => files::sections(token),
        Item::EndProgram => files::end_program(token),
        Item::EnumerationWord => files::enumeration_word(token),
        Item::EnumerationNumber => files::enumeration_number(token),
        Item::EnumerationWords => files::enumeration_words(token),
        Item::Numbered => Row::Passes(Some(Part::Numbered)),
        Item::EndType => files::end_type(token),
        Item::Name => constants::name(token),
        Item::Word => constants::word_behind(token),
        Item::Colon => constants::colon(token),
        Item::Semicolon => constants::semicolon(token),
        Item::Gets => constants::gets(token),
        Item::Open => constants::opens(token),
        Item::Close => constants::closes(token),
        Item::OpenIndex => constants::opens_index(token),
        Item::CloseIndex => constants::closes_index(token),
        Item::UpTo => constants::up_to(token),
        Item::ArrayOf => constants::of(token),
        Item::To => constants::to(token),
        Item::Qualified(section) => declarations::qualified(section, token),
        Item::Declarations(section) => declarations::declarations(section, token),
        Item::Declared => declarations::declared(token),
        Item::Names => declarations::names(token),
        Item::Type(section) => declarations::type_of(section, token),
        Item::ElementType => declarations::element_type(token),
        Item::Object => declarations::object(token),
        Item::ObjectName => declarations::object_name(token),
        Item::Initial => declarations::initial(token),
        Item::InitialValue => declarations::initial_value(token),
        Item::Values => declarations::values(token),
        Item::DeclarationEnd => declarations::declaration_end(token),
        Item::Int => constants::int(&[], token),
        Item::NegativeInt => constants::negative_int(token),
        Item::Constant => constants::constant(&[], token),
        Item::NegativeConstant => constants::negative_constant(token),
        Item::BehindConstant => constants::behind_constant(token),
        Item::ConstantWord => Row::Passes(Some(Part::ConstantWord)),
        Item::Negative => Row::Passes(Some(Part::Negative)),
        Item::Statements { in_loop } => statements::statements(in_loop, token),
        Item::BehindName => places::behind_name(token),
        Item::BehindWord => places::behind_word(token),
        Item::Assign => places::assign(token),
        Item::PlaceElement => places::place_element(token),
        Item::PlaceMember => Row::Passes(Some(Part::PlaceMember)),
        Item::FirstArgument => places::first_argument(token),
        Item::Argument => places::argument(token),
        Item::BehindArgument => places::behind_argument(token),
        Item::Arguments => places::arguments(token),
        Item::Input => Row::Passes(Some(Part::Input)),
        Item::Target => places::target(token),
        Item::BehindTarget => places::behind_target(token),
        Item::Output => Row::Passes(Some(Part::Output)),
        Item::Then => statements::then(token),
        Item::Else { in_loop } => statements::otherwise(in_loop, token),
        Item::EndIf => statements::end_if(token),
        Item::Of => statements::of(token),
        Item::Branches { in_loop } => statements::branches(in_loop, token),
        Item::Branch { in_loop } => statements::branch(in_loop, token),
        Item::BehindEither => statements::behind_either(token),
        Item::BehindEitherWord => statements::behind_either_word(token),
        Item::LabelEnd => statements::label_end(token),
        Item::Labels => statements::labels(token),
        Item::Label => Row::Passes(Some(Part::Label)),
        Item::Range => Row::Passes(Some(Part::Range)),
        Item::BranchBegins => Row::Passes(Some(Part::Branch)),
        Item::EndCase => statements::end_case(token),
        Item::By => statements::by(token),
        Item::Do => statements::do_row(token),
        Item::EndFor => statements::end_for(token),
        Item::Closed => statements::closed(token),
        Item::Expression => expressions::unary(&LEVELS, token),
        Item::Operand(level) => expressions::operand(level, token),
        Item::Operators(level) => expressions::operators(level, token),
        Item::Join(operator) => Row::Passes(Some(Part::Join(operator))),
        Item::Primary => expressions::primary(&[], token),
        Item::NegativePrimary => expressions::negative_primary(token),
        Item::Not => Row::Passes(Some(Part::Not)),
        Item::BehindOperand => expressions::behind_operand(token),
        Item::BehindFunction(function) => expressions::behind_function(function, token),
        Item::Element => expressions::element(token),
        Item::Member => Row::Passes(Some(Part::Member)),
        Item::FunctionArguments(function) => expressions::function_arguments(function, token),
        Item::Parenthesis => expressions::parenthesis(token),
    }
}
