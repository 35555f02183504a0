// The table: what a token does where an item is expected.

ghost use Rattle.std.specs.Prelude.{◌≡◌};
ghost use Rattle.st_grammar.specs.Lines.{line_of};
ghost use Rattle.st_grammar.specs.Table as spec;

use crate::item::Item;
use crate::note::{Note, Row};
use crate::{expressions, statements, tasks};
use st_tokens::Token;

/// What may stand after an operand that begins a product, a sum, and so on.
const BEHIND_UNARY: [Item; 1] = [Item::Products];

const BEHIND_PRODUCT: [Item; 2] = [Item::Products, Item::Sums];

const BEHIND_SUM: [Item; 3] = [Item::Products, Item::Sums, Item::Comparisons];

const BEHIND_COMPARISON: [Item; 4] = [
    Item::Products,
    Item::Sums,
    Item::Comparisons,
    Item::Conjunctions,
];

const BEHIND_CONJUNCTION: [Item; 5] = [
    Item::Products,
    Item::Sums,
    Item::Comparisons,
    Item::Conjunctions,
    Item::Disjunctions,
];

/// What a token does where an item is expected.
#[tactic(auto, unfolding(crate::specs::Table::row_of))]
pub fn row_of(item: Item, token: &Token) -> Row
    ensures { line_of result ≡ spec.row_of item token.now }
{
    match item {
        Item::File => tasks::file(token),
        Item::Tasks => tasks::tasks(token),
        Item::TaskName => tasks::task_name(token),
        Item::Var => tasks::var(token),
        Item::Declarations => tasks::declarations(token),
        Item::Colon => tasks::colon(token),
        Item::Sort => tasks::sort(token),
        Item::BoolStart => tasks::bool_start(token),
        Item::Truth => tasks::truth(token),
        Item::DintStart => tasks::dint_start(token),
        Item::Signed => tasks::signed(token),
        Item::Negative => tasks::negative(token),
        Item::Open => tasks::open(token),
        Item::Object => tasks::object(token),
        Item::Close => tasks::close(token),
        Item::Semicolon => tasks::semicolon(token),
        Item::Gets => tasks::gets(token),
        Item::EndProgram => tasks::end_program(token),
        Item::Statements => statements::statements(token),
        Item::BehindName => statements::behind_name(token),
        Item::Execute => statements::execute(token),
        Item::Executed => Row::Passes(Note::Executed),
        Item::Keys => statements::keys(token),
        Item::Key => statements::key(token),
        Item::Mode => statements::mode(token),
        Item::Master => statements::master(token),
        Item::Given => Row::Passes(Note::Given),
        Item::SetEnd => statements::set_end(token),
        Item::CallEnd => statements::call_end(token),
        Item::Then => statements::then(token),
        Item::Else => statements::otherwise(token),
        Item::EndIf => statements::end_if(token),
        Item::Of => statements::of(token),
        Item::Branches => statements::branches(token),
        Item::NegativeBranch => statements::negative_branch(token),
        Item::EndCase => statements::end_case(token),
        Item::Expr => expressions::unary(&BEHIND_CONJUNCTION, token),
        Item::Conjunction => expressions::unary(&BEHIND_COMPARISON, token),
        Item::Comparison => expressions::unary(&BEHIND_SUM, token),
        Item::Sum => expressions::unary(&BEHIND_PRODUCT, token),
        Item::Product => expressions::unary(&BEHIND_UNARY, token),
        Item::Unary => expressions::unary(&[], token),
        Item::Primary => expressions::primary(&[], token),
        Item::Dot => expressions::dot(token),
        Item::Flag => expressions::flag(token),
        Item::Parenthesis => expressions::parenthesis(token),
        Item::Products => expressions::products(token),
        Item::Sums => expressions::sums(token),
        Item::Comparisons => expressions::comparisons(token),
        Item::Conjunctions => expressions::conjunctions(token),
        Item::Disjunctions => expressions::disjunctions(token),
        Item::Minus => Row::Passes(Note::Minus),
        Item::Not => Row::Passes(Note::Not),
        Item::Join(operator) => Row::Passes(Note::Join(operator)),
    }
}
