// Expressions from their parts.

ghost use Rattle.std.specs.Prelude.{◌≡◌, ◌≤◌, ◌<◌, ◌-◌, ◌++◌, ◌∷◌, [], Bool, true, false, List, IfOk, OnOk, suc, drop, length, map};
ghost use Rattle.st_build.specs.Chains as chains;
ghost use Rattle.st_build.specs.Chains.{IsJoined};
ghost use Rattle.st_build.specs.Ahead.{IsAtExpression};
ghost use Rattle.st_tree.specs.Parts as spec;
ghost use Rattle.st_tree.specs.Places as places;
ghost use Rattle.st_tree.specs.Places.{Around, Inside, Passes};

use crate::cursor::{begins, push};
use motion_numbers::OutOfMemory;
use st_tree::{Expr, Operator, Part, Term};
use std::alloc::Global;

// Whether two operators are of one level of the grammar that may have more than two operands.
fn are_of_one_level(a: Operator, b: Operator) -> bool
    ensures { result ≡ chains.are_of_one_level a b }
{
    match a {
        Operator::Or => matches!(b, Operator::Or),
        Operator::And => matches!(b, Operator::And),
        Operator::Plus | Operator::Minus => matches!(b, Operator::Plus | Operator::Minus),
        Operator::Times => matches!(b, Operator::Times),
        _ => false,
    }
}

// Whether an operand is a chain that may go on with an operator.
fn goes_on(first: &Expr, operator: Operator) -> bool
    ensures { result ≡ chains.goes_on first.now operator }
{
    let Expr::Chain { terms, .. } = first else {
        return false;
    };
    match terms.last() {
        Some(term) => are_of_one_level(term.operator, operator),
        None => false,
    }
}

// The operand of `-`, made negative.
fn negative(alloc: Global, operand: Expr) -> Result<Expr, OutOfMemory>
    ensures { IfOk result (λ e. spec.expr_parts e ≡ spec.expr_parts operand ++ Part.Negative ∷ []) }
{
    match Box::new(alloc, operand) {
        Ok(operand) => Ok(Expr::Negative(operand)),
        Err(_) => Err(OutOfMemory),
    }
}

// The operand of `NOT`, inverted.
fn inverted(alloc: Global, operand: Expr) -> Result<Expr, OutOfMemory>
    ensures { IfOk result (λ e. spec.expr_parts e ≡ spec.expr_parts operand ++ Part.Not ∷ []) }
{
    match Box::new(alloc, operand) {
        Ok(operand) => Ok(Expr::Not(operand)),
        Err(_) => Err(OutOfMemory),
    }
}

// A chain of this operand.
fn chain(alloc: Global, first: Expr, term: Term) -> Result<Expr, OutOfMemory>
    ensures operand { IfOk result (λ e. chains.first_of e ≡ first) }
    ensures terms { IfOk result (λ e. chains.terms_of e ≡ term ∷ []) }
    ensures spelled { IfOk result (λ e. spec.expr_parts e ≡ spec.expr_parts first ++ spec.term_parts term) }
{
    let Ok(first) = Box::new(alloc, first) else {
        return Err(OutOfMemory);
    };
    let mut terms = Vec::new(alloc);
    push(&mut terms, term)?;
    Ok(Expr::Chain { first, terms })
}

// A chain with a term more.
fn longer(first: Box<Expr>, terms: Vec<Term>, term: Term) -> Result<Expr, OutOfMemory>
    ensures operand { IfOk result (λ e. chains.first_of e ≡ first.value) }
    ensures terms { IfOk result (λ e. chains.terms_of e ≡ terms.items ++ term ∷ []) }
    ensures spelled { IfOk result (λ e. spec.expr_parts e ≡
        (spec.expr_parts first.value ++ spec.all_of (map spec.term_parts terms.items)) ++
        spec.term_parts term) }
{
    let mut terms = terms;
    push(&mut terms, term)?;
    Ok(Expr::Chain { first, terms })
}

// Two operands, joined.
fn joined(alloc: Global, first: Expr, term: Term) -> Result<Expr, OutOfMemory>
    ensures joined { IfOk result (IsJoined first term) }
    ensures spelled { IfOk result (λ e. spec.expr_parts e ≡ spec.expr_parts first ++ spec.term_parts term) }
{
    if !goes_on(&first, term.operator) {
        return chain(alloc, first, term);
    }
    match first {
        Expr::Chain { first, terms } => longer(first, terms, term),
        Expr::Number(number) => chain(alloc, Expr::Number(number), term),
        Expr::Truth(truth) => chain(alloc, Expr::Truth(truth), term),
        Expr::Variable(variable) => chain(alloc, Expr::Variable(variable), term),
        Expr::Flag { instance, flag } => chain(alloc, Expr::Flag { instance, flag }, term),
        Expr::Negative(operand) => chain(alloc, Expr::Negative(operand), term),
        Expr::Not(operand) => chain(alloc, Expr::Not(operand), term),
    }
}

// An operator and its operand.
fn term(operator: Operator, operand: Expr) -> Term
    ensures { spec.term_parts result ≡ spec.expr_parts operand ++ Part.Join operator ∷ [] }
{
    Term { operator, operand }
}

// Adds an operand to those that wait.
fn put(operands: &mut Vec<Expr>, operand: Expr) -> Result<(), OutOfMemory>
    ensures count { OnOk result (length operands.new.items ≡ suc (length operands.old.items)) }
    ensures spelled { OnOk result (spec.operands_parts operands.new.items ≡
        spec.operands_parts operands.old.items ++ spec.expr_parts operand) }
{
    push(operands, operand)
}

// Makes the last operand negative.
fn negate_last(alloc: Global, operands: &mut Vec<Expr>) -> Result<(), OutOfMemory>
    requires { 1 ≤ length operands.old.items }
    ensures count { OnOk result (length operands.new.items ≡ length operands.old.items) }
    ensures spelled { OnOk result (spec.operands_parts operands.new.items ≡
        spec.operands_parts operands.old.items ++ Part.Negative ∷ []) }
{
    let Some(operand) = operands.pop() else {
        unreachable!()
    };
    let made = negative(alloc, operand)?;
    put(operands, made)
}

// Inverts the last operand.
fn invert_last(alloc: Global, operands: &mut Vec<Expr>) -> Result<(), OutOfMemory>
    requires { 1 ≤ length operands.old.items }
    ensures count { OnOk result (length operands.new.items ≡ length operands.old.items) }
    ensures spelled { OnOk result (spec.operands_parts operands.new.items ≡
        spec.operands_parts operands.old.items ++ Part.Not ∷ []) }
{
    let Some(operand) = operands.pop() else {
        unreachable!()
    };
    let made = inverted(alloc, operand)?;
    put(operands, made)
}

// Joins the last two operands.
fn join_last(alloc: Global, operands: &mut Vec<Expr>, operator: Operator) -> Result<(), OutOfMemory>
    requires { 2 ≤ length operands.old.items }
    ensures count { OnOk result (length operands.new.items ≡ length operands.old.items - 1) }
    ensures spelled { OnOk result (spec.operands_parts operands.new.items ≡
        spec.operands_parts operands.old.items ++ Part.Join operator ∷ []) }
{
    let Some(second) = operands.pop() else {
        unreachable!()
    };
    let Some(first) = operands.pop() else {
        unreachable!()
    };
    let made = joined(alloc, first, term(operator, second))?;
    put(operands, made)
}

// Takes a part of an expression to the operands that wait.
fn put_part(alloc: Global, operands: &mut Vec<Expr>, part: Part) -> Result<(), OutOfMemory>
    requires expression { places.is_of_expression part ≡ true }
    requires enough { places.operands_for part ≤ length operands.old.items }
    ensures count { OnOk result (length operands.new.items ≡
        places.operands_after part (length operands.old.items)) }
    ensures spelled { OnOk result (spec.operands_parts operands.new.items ≡
        spec.operands_parts operands.old.items ++ part ∷ []) }
{
    match part {
        Part::Number(number) => put(operands, Expr::Number(number)),
        Part::Truth(truth) => put(operands, Expr::Truth(truth)),
        Part::Variable(variable) => put(operands, Expr::Variable(variable)),
        Part::Flag { instance, flag } => put(operands, Expr::Flag { instance, flag }),
        Part::Negative => negate_last(alloc, operands),
        Part::Not => invert_last(alloc, operands),
        Part::Join(operator) => join_last(alloc, operands, operator),
        _ => unreachable!(),
    }
}

// The operands whose parts stand from this place on, as far as they go.
fn operands_at(alloc: Global, parts: &[Part], at: &mut usize) -> Result<Vec<Expr>, OutOfMemory>
    requires { IsAtExpression (drop at.old parts.now) }
    ensures spelled { IfOk result (λ v.
        drop at.old parts.now ≡ spec.operands_parts v.items ++ drop at.new parts.now) }
    ensures passes { (keys : Bool) → (around : List Around) → IfOk result (λ v.
        Passes (Inside 0 keys around) (Inside (length v.items) keys around)
        (drop at.old parts.now) (drop at.new parts.now)) }
    ensures some { IfOk result (λ v. 1 ≤ length v.items) }
    ensures ended { OnOk result (places.begins (drop at.new parts.now) ≡ false) }
    ensures onward { OnOk result (at.old < at.new) }
{
    let mut operands = Vec::new(alloc);
    while begins(parts, *at) {
        put_part(alloc, &mut operands, parts[*at])?;
        *at += 1;
    }
    Ok(operands)
}

/// The expression whose parts stand from this place on. It is gone over.
pub fn expr_at(alloc: Global, parts: &[Part], at: &mut usize) -> Result<Expr, OutOfMemory>
    requires { IsAtExpression (drop at.old parts.now) }
    ensures spelled { IfOk result (λ e.
        drop at.old parts.now ≡ spec.expr_parts e ++ drop at.new parts.now) }
    ensures passes { (keys : Bool) → (around : List Around) → OnOk result
        (Passes (Inside 0 keys around) (Inside 1 keys around)
        (drop at.old parts.now) (drop at.new parts.now)) }
    ensures ended { OnOk result (places.begins (drop at.new parts.now) ≡ false) }
    ensures onward { OnOk result (at.old < at.new) }
{
    let mut operands = operands_at(alloc, parts, at)?;
    let Some(found) = operands.pop() else {
        unreachable!()
    };
    Ok(found)
}
