// Statements from their parts.

ghost use Rattle.std.specs.Prelude.{◌≡◌, ◌≤◌, ◌<◌, ◌++◌, ◌∷◌, Bool, true, false, List, IfOk, OnOk, drop, map};
ghost use Rattle.st_build.specs.Ahead.{IsInThen};
ghost use Rattle.st_tree.specs.Parts as spec;
ghost use Rattle.st_tree.specs.Places as places;
ghost use Rattle.st_tree.specs.Places.{Around, Inside, IsInside, IsSelected, Passes, Selected, Then};
ghost use Rattle.st_tree.specs.declared.part.Part.{Part};

use crate::cursor::{begins, go_over, next, push};
use crate::expression::expr_at;
use motion_numbers::OutOfMemory;
use st_tree::{Branch, Expr, Given, Part, Stmt};
use std::alloc::Global;

// Whether a call ends at this place.
fn ends_call(parts: &[Part], at: usize) -> bool
    ensures { result ≡ places.ends_call (drop at parts.now) }
{
    matches!(parts.get(at), Some(Part::CallEnd))
}

// Whether a branch stands at this place.
fn branches(parts: &[Part], at: usize) -> bool
    ensures { result ≡ places.branches (drop at parts.now) }
{
    matches!(parts.get(at), Some(Part::Branch(_)))
}

// What a key gives, whose parts stand from this place on.
fn given_at(alloc: Global, parts: &[Part], at: &mut usize) -> Result<Given, OutOfMemory>
    requires inside { IsInside 0 true (drop at.old parts.now) }
    requires goes_on { places.ends_call (drop at.old parts.now) ≡ false }
    ensures spelled { IfOk result (λ g.
        drop at.old parts.now ≡ spec.given_parts g ++ drop at.new parts.now) }
    ensures passes { (around : List Around) → OnOk result
        (Passes (Inside 0 true around) (Inside 0 true around)
        (drop at.old parts.now) (drop at.new parts.now)) }
    ensures onward { OnOk result (at.old < at.new) }
{
    if begins(parts, *at) {
        return number_at(alloc, parts, at);
    }
    match next(parts, at) {
        Part::Mode(mode) => Ok(Given::Mode(mode)),
        Part::Master(axis) => Ok(Given::Master(axis)),
        _ => unreachable!(),
    }
}

// A number for a key.
fn number_at(alloc: Global, parts: &[Part], at: &mut usize) -> Result<Given, OutOfMemory>
    requires inside { IsInside 0 true (drop at.old parts.now) }
    requires begun { places.begins (drop at.old parts.now) ≡ true }
    ensures spelled { IfOk result (λ g.
        drop at.old parts.now ≡ spec.given_parts g ++ drop at.new parts.now) }
    ensures passes { (around : List Around) → OnOk result
        (Passes (Inside 0 true around) (Inside 0 true around)
        (drop at.old parts.now) (drop at.new parts.now)) }
    ensures onward { OnOk result (at.old < at.new) }
{
    let value = expr_at(alloc, parts, at)?;
    match next(parts, at) {
        Part::Given(key) => Ok(Given::Number { key, value }),
        _ => unreachable!(),
    }
}

// What the keys of a call give.
fn all_given_at(alloc: Global, parts: &[Part], at: &mut usize) -> Result<Vec<Given>, OutOfMemory>
    requires { IsInside 0 true (drop at.old parts.now) }
    ensures spelled { IfOk result (λ v. drop at.old parts.now ≡
        spec.all_of (map spec.given_parts v.items) ++ drop at.new parts.now) }
    ensures passes { (around : List Around) → OnOk result
        (Passes (Inside 0 true around) (Inside 0 true around)
        (drop at.old parts.now) (drop at.new parts.now)) }
    ensures ended { OnOk result (places.ends_call (drop at.new parts.now) ≡ true) }
    ensures onward { OnOk result (at.old ≤ at.new) }
{
    let mut given = Vec::new(alloc);
    while !ends_call(parts, *at) {
        let one = given_at(alloc, parts, at)?;
        push(&mut given, one)?;
    }
    Ok(given)
}

// A call after its value for `execute`.
fn call_at(
    alloc: Global,
    parts: &[Part],
    at: &mut usize,
    instance: u16,
    execute: Expr,
) -> Result<Stmt, OutOfMemory>
    requires { IsInside 0 true (drop at.old parts.now) }
    ensures spelled { IfOk result (λ s.
        spec.expr_parts execute ++ (Part.Execute instance ∷ drop at.old parts.now) ≡
        spec.stmt_parts s ++ drop at.new parts.now) }
    ensures passes { (around : List Around) → OnOk result
        (Passes (Inside 0 true around) (Inside 0 false around)
        (drop at.old parts.now) (drop at.new parts.now)) }
    ensures onward { OnOk result (at.old ≤ at.new) }
{
    let given = all_given_at(alloc, parts, at)?;
    go_over(parts, at);
    Ok(Stmt::Call {
        instance,
        execute,
        given,
    })
}

/// The statements whose parts stand from this place on. They are gone over.
#[cycle(statement)]
pub fn body_at(alloc: Global, parts: &[Part], at: &mut usize) -> Result<Vec<Stmt>, OutOfMemory>
    requires { IsInside 0 false (drop at.old parts.now) }
    ensures spelled { IfOk result (λ v.
        drop at.old parts.now ≡ spec.body_parts v.items ++ drop at.new parts.now) }
    ensures passes { (around : List Around) → OnOk result
        (Passes (Inside 0 false around) (Inside 0 false around)
        (drop at.old parts.now) (drop at.new parts.now)) }
    ensures ended { OnOk result (places.begins (drop at.new parts.now) ≡ false) }
    ensures onward { OnOk result (at.old ≤ at.new) }
{
    let mut body = Vec::new(alloc);
    while begins(parts, *at) {
        let statement = statement_at(alloc, parts, at)?;
        push(&mut body, statement)?;
    }
    Ok(body)
}

// A statement.
#[cycle(statement)]
fn statement_at(alloc: Global, parts: &[Part], at: &mut usize) -> Result<Stmt, OutOfMemory>
    requires inside { IsInside 0 false (drop at.old parts.now) }
    requires begun { places.begins (drop at.old parts.now) ≡ true }
    ensures spelled { IfOk result (λ s.
        drop at.old parts.now ≡ spec.stmt_parts s ++ drop at.new parts.now) }
    ensures passes { (around : List Around) → OnOk result
        (Passes (Inside 0 false around) (Inside 0 false around)
        (drop at.old parts.now) (drop at.new parts.now)) }
    ensures onward { OnOk result (at.old < at.new) }
{
    let value = expr_at(alloc, parts, at)?;
    match next(parts, at) {
        Part::Set(variable) => Ok(Stmt::Set { variable, value }),
        Part::Execute(instance) => call_at(alloc, parts, at, instance, value),
        Part::If => if_at(alloc, parts, at, value),
        Part::Case => case_at(alloc, parts, at, value),
        _ => unreachable!(),
    }
}

// An `IF` after its condition.
#[cycle(statement)]
fn if_at(
    alloc: Global,
    parts: &[Part],
    at: &mut usize,
    condition: Expr,
) -> Result<Stmt, OutOfMemory>
    requires { IsInThen (drop at.old parts.now) }
    ensures spelled { IfOk result (λ s.
        spec.expr_parts condition ++ (Part.If ∷ drop at.old parts.now) ≡
        spec.stmt_parts s ++ drop at.new parts.now) }
    ensures passes { (around : List Around) → OnOk result
        (Passes (Inside 0 false (Then ∷ around)) (Inside 0 false around)
        (drop at.old parts.now) (drop at.new parts.now)) }
    ensures onward { OnOk result (at.old ≤ at.new) }
{
    let then = body_at(alloc, parts, at)?;
    go_over(parts, at);
    let otherwise = body_at(alloc, parts, at)?;
    go_over(parts, at);
    Ok(Stmt::If {
        condition,
        then,
        otherwise,
    })
}

// A `CASE` after its selector.
#[cycle(statement)]
fn case_at(
    alloc: Global,
    parts: &[Part],
    at: &mut usize,
    selector: Expr,
) -> Result<Stmt, OutOfMemory>
    requires { IsSelected (drop at.old parts.now) }
    ensures spelled { IfOk result (λ s.
        spec.expr_parts selector ++ (Part.Case ∷ drop at.old parts.now) ≡
        spec.stmt_parts s ++ drop at.new parts.now) }
    ensures passes { (around : List Around) → OnOk result
        (Passes (Selected around) (Inside 0 false around)
        (drop at.old parts.now) (drop at.new parts.now)) }
    ensures onward { OnOk result (at.old ≤ at.new) }
{
    let branches = branches_at(alloc, parts, at)?;
    go_over(parts, at);
    let otherwise = body_at(alloc, parts, at)?;
    go_over(parts, at);
    Ok(Stmt::Case {
        selector,
        branches,
        otherwise,
    })
}

// A branch.
#[cycle(statement)]
fn branch_at(alloc: Global, parts: &[Part], at: &mut usize) -> Result<Branch, OutOfMemory>
    requires selected { IsSelected (drop at.old parts.now) }
    requires begun { places.branches (drop at.old parts.now) ≡ true }
    ensures spelled { IfOk result (λ b.
        drop at.old parts.now ≡ spec.branch_parts b ++ drop at.new parts.now) }
    ensures passes { (around : List Around) → OnOk result
        (Passes (Selected around) (Selected around)
        (drop at.old parts.now) (drop at.new parts.now)) }
    ensures onward { OnOk result (at.old < at.new) }
{
    let Part::Branch(value) = next(parts, at) else {
        unreachable!()
    };
    let body = body_at(alloc, parts, at)?;
    Ok(Branch { value, body })
}

// The branches of a `CASE`.
#[cycle(statement)]
fn branches_at(alloc: Global, parts: &[Part], at: &mut usize) -> Result<Vec<Branch>, OutOfMemory>
    requires { IsSelected (drop at.old parts.now) }
    ensures spelled { IfOk result (λ v.
        drop at.old parts.now ≡ spec.branches_parts v.items ++ drop at.new parts.now) }
    ensures passes { (around : List Around) → OnOk result
        (Passes (Selected around) (Selected around)
        (drop at.old parts.now) (drop at.new parts.now)) }
    ensures ended { OnOk result (places.branches (drop at.new parts.now) ≡ false) }
    ensures onward { OnOk result (at.old ≤ at.new) }
{
    let mut found = Vec::new(alloc);
    while branches(parts, *at) {
        let branch = branch_at(alloc, parts, at)?;
        push(&mut found, branch)?;
    }
    Ok(found)
}
