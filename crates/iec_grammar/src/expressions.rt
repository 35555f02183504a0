// The rows of expressions.

ghost use Rattle.std.specs.Prelude.{◌≡◌, ◌≤◌, ◌+◌, length};
ghost use Rattle.iec_grammar.specs.Lines.{line_of};
ghost use Rattle.iec_grammar.specs.Expressions as spec;
ghost use Rattle.iec_tree.specs.Functions.{function_named};

use crate::item::{Item, Level};
use crate::row::{Row, begin, skip, take};
use iec_tokens::{Name, Sign, Token, Word};
use iec_tree::{Function, Operator, Part, function_named};

/// All levels of operators, the tightest first.
pub const LEVELS: [Item; 7] = [
    Item::Operators(Level::Product),
    Item::Operators(Level::Sum),
    Item::Operators(Level::Comparison),
    Item::Operators(Level::Equality),
    Item::Operators(Level::Conjunction),
    Item::Operators(Level::Exclusion),
    Item::Operators(Level::Disjunction),
];

// An operand of the operators of a level.
pub fn operand(level: Level, token: &Token) -> Row
    ensures { line_of result ≡ spec.unary (spec.tighter level) token.now }
{
    match level {
        Level::Product => unary(&[], token),
        Level::Sum => unary(&LEVELS[..1], token),
        Level::Comparison => unary(&LEVELS[..2], token),
        Level::Equality => unary(&LEVELS[..3], token),
        Level::Conjunction => unary(&LEVELS[..4], token),
        Level::Exclusion => unary(&LEVELS[..5], token),
        Level::Disjunction => unary(&LEVELS[..6], token),
    }
}

// The operator that a word is at a level.
fn word_at(level: Level, word: Word) -> Option<Operator>
    ensures { result ≡ spec.word_at level word }
{
    match (level, word) {
        (Level::Disjunction, Word::Or) => Some(Operator::Or),
        (Level::Exclusion, Word::Xor) => Some(Operator::Xor),
        (Level::Conjunction, Word::And) => Some(Operator::And),
        (Level::Product, Word::Mod) => Some(Operator::Mod),
        _ => None,
    }
}

// The operator that a sign is at a level.
fn sign_at(level: Level, sign: Sign) -> Option<Operator>
    ensures { result ≡ spec.sign_at level sign }
{
    match (level, sign) {
        (Level::Conjunction, Sign::And) => Some(Operator::And),
        (Level::Equality, Sign::Equal) => Some(Operator::Equal),
        (Level::Equality, Sign::Different) => Some(Operator::Different),
        (Level::Comparison, Sign::Below) => Some(Operator::Below),
        (Level::Comparison, Sign::AtMost) => Some(Operator::AtMost),
        (Level::Comparison, Sign::Above) => Some(Operator::Above),
        (Level::Comparison, Sign::AtLeast) => Some(Operator::AtLeast),
        (Level::Sum, Sign::Plus) => Some(Operator::Plus),
        (Level::Sum, Sign::Minus) => Some(Operator::Minus),
        (Level::Product, Sign::Times) => Some(Operator::Times),
        (Level::Product, Sign::Over) => Some(Operator::Over),
        _ => None,
    }
}

// The operator that a token is at a level.
fn operator_at(level: Level, token: &Token) -> Option<Operator>
    ensures { result ≡ spec.operator_at level token.now }
{
    match token {
        Token::Word(word) => word_at(level, *word),
        Token::Sign(sign) => sign_at(level, *sign),
        _ => None,
    }
}

// Further operators of a level, each with its operand.
pub fn operators(level: Level, token: &Token) -> Row
    ensures { line_of result ≡ spec.operators level token.now }
{
    match operator_at(level, token) {
        Some(operator) => skip(&[
            Item::Operand(level),
            Item::Join(operator),
            Item::Operators(level),
        ]),
        None => Row::Passes(None),
    }
}

// What is expected after a name, which may be that of a function.
fn operand_named(name: &Name) -> Item
    ensures { result ≡ spec.operand_named (function_named name.now) }
{
    match function_named(name.bytes()) {
        Some(function) => Item::BehindFunction(function),
        None => Item::BehindOperand,
    }
}

// A prim, and what is expected after it.
pub fn primary(behind: &[Item], token: &Token) -> Row
    requires { length behind.now ≤ 8 }
    ensures { line_of result ≡ spec.primary behind.now token.now }
{
    match token {
        Token::Number(number) => {
            let number = *number;
            begin(
                Some(Part::Number {
                    negative: false,
                    number,
                }),
                &[],
                behind,
            )
        }
        Token::Word(Word::True) => begin(Some(Part::Truth(true)), &[], behind),
        Token::Word(Word::False) => begin(Some(Part::Truth(false)), &[], behind),
        Token::Name(name) => begin(Some(Part::Name(*name)), &[operand_named(name)], behind),
        Token::Sign(Sign::Open) => begin(
            Some(Part::Parenthesis),
            &[Item::Expression, Item::Parenthesis],
            behind,
        ),
        _ => Row::Refuses,
    }
}

// An un, and what is expected after it.
pub fn unary(behind: &[Item], token: &Token) -> Row
    requires { length behind.now ≤ 8 }
    ensures { line_of result ≡ spec.unary behind.now token.now }
{
    match token {
        Token::Sign(Sign::Minus) => begin(None, &[Item::NegativePrimary], behind),
        Token::Word(Word::Not) => begin(None, &[Item::Primary, Item::Not], behind),
        _ => primary(behind, token),
    }
}

// What a minus stands before.
pub fn negative_primary(token: &Token) -> Row
    ensures { line_of result ≡ spec.negative_primary token.now }
{
    match token {
        Token::Number(number) => {
            let number = *number;
            take(
                Part::Number {
                    negative: true,
                    number,
                },
                &[],
            )
        }
        _ => primary(&[Item::Negative], token),
    }
}

// What stands after a name.
pub fn behind_operand(token: &Token) -> Row
    ensures { line_of result ≡ spec.behind_operand token.now }
{
    match token {
        Token::Sign(Sign::OpenIndex) => take(Part::Index, &[Item::Expression, Item::Element]),
        Token::Sign(Sign::Open) => Row::Misnamed,
        Token::Sign(Sign::Dot) => skip(&[Item::Word, Item::Member]),
        _ => Row::Passes(Some(Part::Variable)),
    }
}

// What stands after a name that is a function's too.
pub fn behind_function(function: Function, token: &Token) -> Row
    ensures { line_of result ≡ spec.behind_function function token.now }
{
    match token {
        Token::Sign(Sign::Open) => take(
            Part::Arguments(function),
            &[Item::Expression, Item::FunctionArguments(function)],
        ),
        _ => behind_operand(token),
    }
}

// Further arguments of a function.
pub fn function_arguments(function: Function, token: &Token) -> Row
    ensures { line_of result ≡ spec.function_arguments function token.now }
{
    match token {
        Token::Sign(Sign::Comma) => take(
            Part::Comma,
            &[Item::Expression, Item::FunctionArguments(function)],
        ),
        Token::Sign(Sign::Close) => take(Part::Function(function), &[]),
        _ => Row::Refuses,
    }
}

// The end of an index.
pub fn element(token: &Token) -> Row
    ensures { line_of result ≡ spec.element token.now }
{
    match token {
        Token::Sign(Sign::CloseIndex) => take(Part::Element, &[]),
        _ => Row::Refuses,
    }
}

// The end of an expression in parentheses.
pub fn parenthesis(token: &Token) -> Row
    ensures { line_of result ≡ spec.parenthesis token.now }
{
    match token {
        Token::Sign(Sign::Close) => take(Part::ParenthesisEnd, &[]),
        _ => Row::Refuses,
    }
}
