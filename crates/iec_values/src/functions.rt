// Functions: which there are for arguments of each type, and what they give.

ghost use Rattle.std.specs.Prelude.{◌≡◌, if◌then◌else◌};
ghost use Rattle.std.specs.Int.{int_max, int_min};
ghost use Rattle.iec_tree.specs.declared.function.Function.TheVariants as function;
ghost use Rattle.iec_values.specs.Functions as spec;
ghost use Rattle.iec_values.specs.Operations.{operation_value};
ghost use Rattle.iec_values.specs.Truths.{is_true};

use crate::changes::{Change, changed};
use crate::operations::{Operation, apply};
use crate::truths::is_true;
use crate::types::{all_widen, common_type};
use iec_tree::{Elementary, Function};

/// How a function makes its value.
#[derive(Clone, Copy)]
pub enum Manner {
    /// Of its argument.
    Change(Change),
    /// Of the first two, then of that and the third, and so on.
    Join(Operation),
    /// The second argument, not below the first, then not above the third.
    Limit,
    /// The third argument where the first is TRUE, else the second.
    Select,
}

/// What a function makes of its arguments: how, the type to which they widen, and that of its
/// value. The first argument of SEL stays a BOOL.
#[derive(Clone, Copy)]
pub struct Call {
    pub manner: Manner,
    pub arguments: Elementary,
    pub result: Elementary,
}

// Whether a function takes this many arguments.
fn takes(function: Function, count: usize) -> bool
    ensures { result ≡ spec.takes function count }
{
    match function {
        Function::Min | Function::Max => 2 <= count,
        Function::Limit | Function::Sel => count == 3,
        _ => count == 1,
    }
}

// The type of a conversion's parameter.
fn parameter_of(function: Function) -> Option<Elementary>
    ensures { result ≡ spec.parameter_of function }
{
    match function {
        Function::IntToDint | Function::IntToLreal => Some(Elementary::Int),
        Function::DintToLreal | Function::DintToInt | Function::DintToTime => {
            Some(Elementary::Dint)
        }
        Function::LrealToDint | Function::LrealToInt => Some(Elementary::Lreal),
        Function::TimeToDint => Some(Elementary::Time),
        Function::BoolToInt | Function::BoolToDint => Some(Elementary::Bool),
        _ => None,
    }
}

// The type, where all of several widen to it.
#[tactic(auto, unfolding(crate::specs::Functions::widened_to))]
fn widened_to(types: &[Elementary], to: Elementary) -> Option<Elementary>
    ensures { result ≡ spec.widened_to types.now to }
{
    if all_widen(types, to) { Some(to) } else { None }
}

// The common type of what SEL chooses from, behind a BOOL.
#[tactic(auto, unfolding(crate::specs::Functions::chosen_of))]
fn chosen_of(types: &[Elementary]) -> Option<Elementary>
    ensures { result ≡ spec.chosen_of types.now }
{
    match types {
        [Elementary::Bool, rest @ ..] => common_type(rest),
        _ => None,
    }
}

// The type to which arguments of these types widen; of SEL, those behind the first.
#[tactic(auto, unfolding(crate::specs::Functions::argument_of))]
fn argument_of(function: Function, types: &[Elementary]) -> Option<Elementary>
    ensures { result ≡ spec.argument_of function types.now }
{
    match function {
        Function::Abs | Function::Min | Function::Max | Function::Limit => common_type(types),
        Function::Sel => chosen_of(types),
        _ => widened_to(types, parameter_of(function)?),
    }
}

// How ABS makes its value of an argument of a type.
fn size_of(of: Elementary) -> Option<Manner>
    ensures { result ≡ spec.manner_of function.Abs of }
{
    match of {
        Elementary::Int | Elementary::Dint => Some(Manner::Change(Change::DintAbs)),
        Elementary::Lreal => Some(Manner::Change(Change::LrealAbs)),
        _ => None,
    }
}

// A manner that is for arguments of any type but BOOL.
fn ordered(of: Elementary, manner: Manner) -> Option<Manner>
    ensures { result ≡ spec.ordered of manner }
{
    match of {
        Elementary::Bool => None,
        _ => Some(manner),
    }
}

// How a conversion makes its value.
fn conversion_of(function: Function) -> Change
    ensures { result ≡ spec.conversion_of function }
{
    match function {
        Function::IntToDint | Function::DintToInt => Change::ToInt,
        Function::IntToLreal => Change::IntToLreal,
        Function::DintToLreal => Change::DintToLreal,
        Function::DintToTime => Change::DintToTime,
        Function::LrealToDint => Change::LrealToDint,
        Function::LrealToInt => Change::LrealToInt,
        Function::TimeToDint => Change::TimeToDint,
        _ => Change::Truth,
    }
}

// How a function makes its value of arguments of one type, if it is for that type.
fn manner_of(function: Function, of: Elementary) -> Option<Manner>
    ensures { result ≡ spec.manner_of function of }
{
    match function {
        Function::Abs => size_of(of),
        Function::Min => ordered(of, Manner::Join(Operation::Least)),
        Function::Max => ordered(of, Manner::Join(Operation::Greatest)),
        Function::Limit => ordered(of, Manner::Limit),
        Function::Sel => Some(Manner::Select),
        _ => Some(Manner::Change(conversion_of(function))),
    }
}

// The type of a function's value, by that of its arguments.
fn result_of(function: Function, of: Elementary) -> Elementary
    ensures { result ≡ spec.result_of function of }
{
    match function {
        Function::IntToDint | Function::LrealToDint | Function::TimeToDint | Function::BoolToDint =>
            Elementary::Dint,
        Function::DintToInt | Function::LrealToInt | Function::BoolToInt => Elementary::Int,
        Function::IntToLreal | Function::DintToLreal => Elementary::Lreal,
        Function::DintToTime => Elementary::Time,
        _ => of,
    }
}

// What a function makes of arguments of one type.
#[tactic(auto, unfolding(crate::specs::Functions::made_of))]
fn made_of(function: Function, of: Elementary) -> Option<Call>
    ensures { result ≡ spec.made_of function of }
{
    let manner = manner_of(function, of)?;
    Some(Call {
        manner,
        arguments: of,
        result: result_of(function, of),
    })
}

/// What a function makes of arguments by their types, if it is for them.
#[tactic(auto, unfolding(crate::specs::Functions::call_of))]
pub fn call_of(function: Function, types: &[Elementary]) -> Option<Call>
    ensures { result ≡ spec.call_of function types.now }
{
    if takes(function, types.len()) {
        made_of(function, argument_of(function, types)?)
    } else {
        None
    }
}

// The value of an argument.
#[tactic(auto, unfolding(crate::specs::Functions::argument))]
fn argument(values: &[i64], place: usize) -> i64
    ensures { result ≡ spec.argument values.now place }
{
    values.get(place).copied().unwrap_or(0)
}

// The first value joined to the second, then to the third and so on.
#[tactic(auto, using(std::proofs::lemmas::List::Sums::fold_more), unfolding(crate::specs::Functions::folded))]
fn folded(operation: Operation, values: &[i64]) -> i64
    ensures { result ≡ spec.folded (operation_value operation) values.now }
{
    let Some((first, rest)) = values.split_first() else {
        return 0;
    };
    let mut value = *first;
    for next in rest {
        value = apply(operation, value, *next);
    }
    value
}

/// The value that a function makes of its arguments.
pub fn evaluate(manner: Manner, values: &[i64]) -> i64
    ensures { result ≡ spec.manner_value manner values.now }
{
    match manner {
        Manner::Change(change) => changed(change, argument(values, 0)),
        Manner::Join(operation) => folded(operation, values),
        Manner::Limit => limited(
            argument(values, 0),
            argument(values, 1),
            argument(values, 2),
        ),
        Manner::Select => selected(
            argument(values, 0),
            argument(values, 1),
            argument(values, 2),
        ),
    }
}

// A value, not below the least and then not above the greatest.
fn limited(least: i64, value: i64, greatest: i64) -> i64
    ensures { result ≡ int_min (int_max value least) greatest }
{
    value.max(least).min(greatest)
}

// One of two values, by a truth.
fn selected(truth: i64, if_false: i64, if_true: i64) -> i64
    ensures { result ≡ (if is_true truth then if_true else if_false) }
{
    if is_true(truth) { if_true } else { if_false }
}
