// By which line and rule declarations are refused.

use iec_declared::Declarations;
use iec_grammar::{Reading, read_tree};
use iec_names::{Scopes, Sort};
use iec_tokens::{Name, is_name};
use motion_numbers::OutOfMemory;
use std::alloc::Global;

// What may stand before a program that is in order.
const RIGHT: [&str; 6] = [
    "TYPE Mode : (Idle, Running := 5, Done); END_TYPE",
    "VAR_GLOBAL CONSTANT k : INT := -3; l : LREAL := k; t : TIME := T#1s; END_VAR",
    "VAR_GLOBAL a : ARRAY[-2..2] OF DINT := [1, -2]; timer : TON; END_VAR",
    "TYPE Mode : (Idle := -5); END_TYPE VAR_GLOBAL m : Mode := Mode.Idle; END_VAR",
    "VAR_GLOBAL CONSTANT k : INT := 3; END_VAR VAR_GLOBAL a : ARRAY[1..k] OF BOOL; END_VAR",
    "VAR_GLOBAL one_1, _two, Three : BOOL := TRUE; END_VAR",
];

// What may stand in it, where all else is in order.
const RIGHT_LOCALS: [&str; 4] = [
    "VAR m : MC_Power(X); n : GroupEnable(g); o : MoveAbsolute; r : ReadStatus(Y); END_VAR",
    "VAR X, Y, main : BOOL; END_VAR",
    "VAR_INPUT Start : BOOL; END_VAR",
    "VAR CONSTANT a : ARRAY[0..999] OF LREAL := [1, 2.5]; END_VAR",
];

// What is refused before a program, and by which line and rule.
const WRONG: [(&str, u64, u8); 14] = [
    ("VAR_GLOBAL x : BOOL; END_VAR", 1, 3),
    ("VAR_GLOBAL start : BOOL; END_VAR", 1, 3),
    ("VAR_GLOBAL g : BOOL; END_VAR", 1, 3),
    ("TYPE a : (b, B); END_TYPE", 1, 3),
    ("TYPE a : (A); END_TYPE", 1, 3),
    ("TYPE a : (b); END_TYPE\nTYPE c : (a); END_TYPE", 2, 3),
    ("TYPE a : (b := 4, c := a.d); END_TYPE", 1, 3),
    ("TYPE a : (b := c, c); END_TYPE", 1, 3),
    ("TYPE\na : (\nb := 40000); END_TYPE", 1, 4),
    ("TYPE a : (b := 32767,\nc); END_TYPE", 2, 5),
    (
        "VAR_GLOBAL CONSTANT k : DINT := 1; END_VAR\nTYPE a : (b := k); END_TYPE",
        2,
        4,
    ),
    ("VAR_GLOBAL main : DINT; END_VAR\n", 2, 3),
    (
        "VAR_GLOBAL a : ARRAY[1..2] OF INT := [1,\n2,\n3,\n4]; END_VAR",
        3,
        5,
    ),
    ("VAR_GLOBAL CONSTANT k : INT := k; END_VAR", 1, 3),
];

// What is refused in one, in whose second line it stands.
const WRONG_LOCALS: [(&str, u64, u8); 24] = [
    ("VAR x, X : BOOL; END_VAR", 2, 3),
    ("VAR x : FOO; END_VAR", 2, 2),
    ("VAR x : MC_TON; END_VAR", 2, 2),
    ("VAR x : MC_Power(G); END_VAR", 2, 3),
    ("VAR x : GroupEnable(X); END_VAR", 2, 3),
    ("VAR x : MC_Power(\nQ); END_VAR", 3, 3),
    ("VAR x : BOOL := 1; END_VAR", 2, 4),
    ("VAR x : INT := 32768; END_VAR", 2, 4),
    ("VAR x :\nINT :=\n1.0; END_VAR", 2, 4),
    ("VAR y : DINT := 3; x : DINT := y; END_VAR", 2, 3),
    ("VAR x,\nx : INT := 1.0; END_VAR", 3, 3),
    ("VAR CONSTANT\nx,\ny : INT\n; END_VAR", 3, 5),
    ("VAR x : TON := 5; END_VAR", 2, 4),
    ("VAR a : ARRAY[1..3] OF INT := 1; END_VAR", 2, 4),
    ("VAR a : INT := [1]; END_VAR", 2, 4),
    ("VAR x : ARRAY[1\n..\n0] OF INT; END_VAR", 4, 5),
    ("VAR a : ARRAY[0..1000] OF INT; END_VAR", 2, 5),
    ("VAR_INPUT x : BOOL; END_VAR", 2, 3),
    ("VAR_INPUT start : INT; END_VAR", 2, 4),
    ("VAR_INPUT start : BOOL\n:= TRUE; END_VAR", 2, 5),
    ("VAR_INPUT start : TON; END_VAR", 2, 4),
    ("VAR _a : MC_Power(X); END_VAR", 2, 3),
    (
        "VAR CONSTANT k : BOOL := TRUE; END_VAR VAR x : BOOL := -k; END_VAR",
        2,
        4,
    ),
    ("VAR x : DINT := 2147483648; END_VAR", 2, 5),
];

// Adds a name of the machine.
fn name_machine(names: &mut Scopes, bytes: &[u8], sort: Sort) -> Result<(), OutOfMemory> {
    if is_name(bytes) {
        names.define_globally(&Name::new(bytes), sort)
    } else {
        Ok(())
    }
}

// The names of a machine with the axes X and Y, the group G and the input start.
fn machine(alloc: Global) -> Result<Scopes, OutOfMemory> {
    let mut names = Scopes::new(alloc);
    name_machine(&mut names, b"X", Sort::Axis(0))?;
    name_machine(&mut names, b"Y", Sort::Axis(1))?;
    name_machine(&mut names, b"G", Sort::Group(0))?;
    name_machine(&mut names, b"start", Sort::MachineInput(0))?;
    Ok(names)
}

// The first line that breaks a rule by a declaration, and the rule.
fn fault_in(alloc: Global, reading: &Reading) -> Result<Option<(u64, u8)>, OutOfMemory> {
    let mut declarations = Declarations::open(alloc, machine(alloc)?);
    for node in reading.nodes.iter() {
        declarations.note(node)?;
    }
    Ok(declarations.fault().map(|f| (f.line, f.rule)))
}

// That of a text of the grammar.
fn fault_of(alloc: Global, text: &str) -> Option<Option<(u64, u8)>> {
    let Ok(reading) = read_tree(alloc, text.as_bytes()) else {
        return None;
    };
    if reading.refused.is_some() {
        return None;
    }
    fault_in(alloc, &reading).ok()
}

// That of a program with these parts before it and in its second line.
fn fault_with(alloc: Global, before: &str, inside: &str) -> Option<Option<(u64, u8)>> {
    match format!(in alloc; "{before} PROGRAM main\n{inside}\nEND_PROGRAM") {
        Ok(text) => fault_of(alloc, &text),
        Err(_) => None,
    }
}

#[test]
fn declarations_in_order_break_no_rule(rt: HostRuntime) {
    for before in RIGHT {
        assert_eq!(rt; fault_with(rt.alloc(), before, ""), Some(None));
    }
    for inside in RIGHT_LOCALS {
        assert_eq!(rt; fault_with(rt.alloc(), "", inside), Some(None));
    }
}

#[test]
fn wrong_declarations_are_refused_by_their_line_and_rule(rt: HostRuntime) {
    for (before, line, rule) in WRONG {
        assert_eq!(rt;
            fault_with(rt.alloc(), before, ""),
            Some(Some((line, rule)))
        );
    }
    for (inside, line, rule) in WRONG_LOCALS {
        assert_eq!(rt;
            fault_with(rt.alloc(), "", inside),
            Some(Some((line, rule)))
        );
    }
}
