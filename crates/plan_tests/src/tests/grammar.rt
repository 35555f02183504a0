// What texts are read as, and where damaged ones are refused.

use iec_grammar::read_tree;
use iec_tree::{Operator, Part};
use std::alloc::Global;

const CONVEYOR: &str = "TYPE Mode : (Idle, Running := 5); END_TYPE
VAR_GLOBAL CONSTANT fast : LREAL := 100.0; END_VAR
PROGRAM conveyor
VAR m : MC_MoveAbsolute(X); t : TON; a : ARRAY[1..3] OF INT := [1, -2]; i : INT; END_VAR
VAR_INPUT start : BOOL; END_VAR
IF start AND NOT m.Busy THEN m(Execute := TRUE, Position := fast * 2.0, Done => start);
ELSIF a[i + 1] >= 16#7F THEN m.Velocity := MAX(1.0, fast); ELSE ; END_IF;
CASE i OF
  0, 2..4: a[1] := -i; m();
  Mode.Idle: t(IN := TRUE, PT := T#1s500ms);
  Running: FOR i := 1 TO 10 BY 2 DO EXIT; END_FOR;
ELSE RETURN; END_CASE
END_PROGRAM
";

const SUM: &str = "PROGRAM p VAR x : DINT; END_VAR x := 1 + 2 * 3; END_PROGRAM";

// A text is read to its end.
fn is_read(alloc: Global, text: &str) -> bool {
    match read_tree(alloc, text.as_bytes()) {
        Ok(reading) => reading.refused.is_none(),
        Err(_) => false,
    }
}

// The line and the rule of what stands in the third line of a program.
fn refused(alloc: Global, third: &str) -> Option<(u64, u8)> {
    let Ok(text) = format!(in alloc;
        "PROGRAM p\nVAR x : DINT; m : Power(X); END_VAR\n{third}\nEND_PROGRAM"
    ) else {
        return None;
    };
    match read_tree(alloc, text.as_bytes()) {
        Ok(reading) => reading.refused.map(|r| (r.line, r.rule)),
        Err(_) => None,
    }
}

#[test]
fn programs_are_read(rt: HostRuntime) {
    assert!(rt; is_read(rt.alloc(), CONVEYOR));
    assert!(rt; is_read(rt.alloc(), SUM));
}

#[test]
fn products_are_joined_before_sums(rt: HostRuntime) {
    let Ok(reading) = read_tree(rt.alloc(), SUM.as_bytes()) else {
        assert!(rt; false);
        return;
    };
    assert_eq!(rt; reading.nodes.len(), 18);
    let operators = reading.nodes.iter().filter_map(|node| match node.part {
        Part::Join(operator) => Some(operator),
        _ => None,
    });
    assert!(rt; operators.eq([Operator::Times, Operator::Plus]));
}

#[test]
fn damaged_texts_are_refused_at_their_line(rt: HostRuntime) {
    for (third, line, rule) in [
        ("x := 1 + ;", 3, 2),
        ("x := (1;", 3, 2),
        ("x := 1", 4, 2),
        ("x := 1_;", 3, 2),
        ("x := T#1s5;", 3, 1),
        ("x := NONE(1);", 3, 2),
        ("EXIT;", 3, 2),
        ("IF x = 1 THEN EXIT; END_IF", 3, 2),
        ("CASE x OF m.y, 2 x := 1; END_CASE", 3, 2),
        ("m(Enable = TRUE);", 3, 2),
        ("(* no end", 3, 1),
    ] {
        assert_eq!(rt; refused(rt.alloc(), third), Some((line, rule)), "{third}");
    }
}

#[test]
fn exit_stands_in_a_loop(rt: HostRuntime) {
    let inside = "FOR x := 1 TO 3 DO IF x = 1 THEN EXIT; END_IF END_FOR";
    assert_eq!(rt; refused(rt.alloc(), inside), None);
}

#[test]
fn nesting_is_bounded(rt: HostRuntime) {
    let deepest = "x := ((((((((((((((((((((((((((((((((1))))))))))))))))))))))))))))))));";
    assert_eq!(rt; refused(rt.alloc(), deepest), None);
    let deeper = "x := (((((((((((((((((((((((((((((((((1)))))))))))))))))))))))))))))))));";
    assert_eq!(rt; refused(rt.alloc(), deeper), Some((3, 6)));
}
