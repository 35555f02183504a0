// Programs from their names and parts.

ghost use Rattle.std.specs.Prelude.{◌≡◌, ◌≤◌, ◌<◌, ◌++◌, ◌∷◌, ◌+◌, None, false, IfOk, IfSome, OnOk, drop, length};
ghost use Rattle.st_tree.specs.Parts as spec;
ghost use Rattle.st_tree.specs.Parts.{Spells};
ghost use Rattle.st_tree.specs.Places as places;
ghost use Rattle.st_tree.specs.Places.{AreOfTrees, Declaring, Leads};
ghost use Rattle.st_build.specs.Ahead.{AreDeclared};
ghost use Rattle.st_tree.specs.declared.part.Part.{Part};

use crate::cursor::{go_over, next, push};
use crate::statement::body_at;
use motion_numbers::OutOfMemory;
use st_tree::{Name, Part, StProgram, Start, Task, Variable};
use std::alloc::Global;

// The name at this place, which is gone over.
fn next_name(names: &[Name], at: &mut usize) -> Name
    requires { 1 ≤ length (drop at.old names.now) }
    ensures { drop at.old names.now ≡ result ∷ drop at.new names.now }
{
    let found = names[*at];
    *at += 1;
    found
}

// What the variable at this place begins with, which is gone over where there is one.
fn next_start(parts: &[Part], at: &mut usize) -> Option<Start>
    ensures start { IfSome result
        (λ s. drop at.old parts.now ≡ Part.Declared s ∷ drop at.new parts.now) }
    ensures onward { IfSome result (λ s. at.old < at.new) }
    ensures left { result ≡ None → at.new ≡ at.old }
    ensures none { result ≡ None → places.declares (drop at.old parts.now) ≡ false }
{
    let Some(Part::Declared(start)) = parts.get(*at).copied() else {
        return None;
    };
    *at += 1;
    Some(start)
}

// The variables that stand from these places on.
fn variables_at(
    alloc: Global,
    parts: &[Part],
    at: &mut usize,
    names: &[Name],
    at_name: &mut usize,
) -> Result<Vec<Variable>, OutOfMemory>
    requires { AreDeclared (drop at_name.old names.now) (drop at.old parts.now) }
    ensures parts { IfOk result (λ v.
        drop at.old parts.now ≡ spec.declared_parts v.items ++ drop at.new parts.now) }
    ensures names { IfOk result (λ v.
        drop at_name.old names.now ≡ spec.variable_names v.items ++ drop at_name.new names.now) }
    ensures ahead { OnOk result (AreDeclared (drop at_name.new names.now) (drop at.new parts.now)) }
    ensures ended { OnOk result (places.declares (drop at.new parts.now) ≡ false) }
    ensures blocks { OnOk result
        (places.blocks_in (drop at.old parts.now) ≡ places.blocks_in (drop at.new parts.now)) }
    ensures onward { OnOk result (at.old ≤ at.new) }
{
    let mut variables = Vec::new(alloc);
    while let Some(start) = next_start(parts, at) {
        let name = next_name(names, at_name);
        push(&mut variables, Variable { name, start })?;
    }
    Ok(variables)
}

// This many numbers from this on.
#[tactic(auto, using(crate::proofs::Numbers::length_numbers))]
fn numbers_from(alloc: Global, first: usize, count: u16) -> Result<Vec<u16>, OutOfMemory>
    requires { first + count ≤ 65535 }
    ensures numbered { IfOk result (λ v. v.items ≡ spec.numbers_from first (length v.items)) }
    ensures counted { IfOk result (λ v. length v.items ≡ count) }
{
    let mut numbers = Vec::new(alloc);
    for i in 0..count {
        push(&mut numbers, (first + i as usize) as u16)?;
    }
    Ok(numbers)
}

// Goes over a `Body`, and answers its number of blocks.
fn go_over_body(parts: &[Part], at: &mut usize) -> u16
    requires leads { Leads Declaring (drop at.old parts.now) }
    requires ended { places.declares (drop at.old parts.now) ≡ false }
    ensures body { drop at.old parts.now ≡ Part.Body result ∷ drop at.new parts.now }
    ensures onward { at.new ≡ at.old + 1 }
{
    match next(parts, at) {
        Part::Body(blocks) => blocks,
        _ => unreachable!(),
    }
}

// The task that stands from these places on, whose blocks are numbered from this on.
fn task_at(
    alloc: Global,
    parts: &[Part],
    at: &mut usize,
    names: &[Name],
    at_name: &mut usize,
    first: usize,
) -> Result<Task, OutOfMemory>
    requires ahead { AreOfTrees first (drop at_name.old names.now) (drop at.old parts.now) }
    requires some { 1 ≤ length (drop at.old parts.now) }
    ensures parts { IfOk result (λ t.
        drop at.old parts.now ≡ spec.task_parts t ++ drop at.new parts.now) }
    ensures names { IfOk result (λ t.
        drop at_name.old names.now ≡ spec.task_names t ++ drop at_name.new names.now) }
    ensures blocks { IfOk result (λ t.
        t.blocks.items ≡ spec.numbers_from first (length t.blocks.items)) }
    ensures ahead { IfOk result (λ t. AreOfTrees (first + length t.blocks.items)
        (drop at_name.new names.now) (drop at.new parts.now)) }
    ensures onward { OnOk result (at.old < at.new) }
{
    go_over(parts, at);
    let name = next_name(names, at_name);
    let variables = variables_at(alloc, parts, at, names, at_name)?;
    let count = go_over_body(parts, at);
    let blocks = numbers_from(alloc, first, count)?;
    let body = body_at(alloc, parts, at)?;
    go_over(parts, at);
    Ok(Task {
        name,
        variables,
        blocks,
        body,
    })
}

/// The program that spells these names and parts, which are those of trees.
pub fn program_of(alloc: Global, names: &[Name], parts: &[Part]) -> Result<StProgram, OutOfMemory>
    requires { AreOfTrees 0 names.now parts.now }
    ensures { IfOk result (λ p. Spells p.tasks.items names.now parts.now) }
{
    let mut tasks = Vec::new(alloc);
    let mut at = 0;
    let mut at_name = 0;
    let mut blocks = 0usize;
    while at < parts.len() {
        let task = task_at(alloc, parts, &mut at, names, &mut at_name, blocks)?;
        blocks += task.blocks.len();
        push(&mut tasks, task)?;
    }
    Ok(StProgram { tasks })
}
