// Damaged texts: each is rejected at its position, by its rule.

use super::{ONE_MOVE, ONE_MOVE_TRACE, TWO_TASKS, files_of, outcome};
use outside::Host;
use std::alloc::{AllocError, Global};
use std::sync::Wait;
use std::test::Fail;

// A text with another line at a position, counted from 1; the lines after it stay.
fn with_line(alloc: Global, text: &[u8], number: u64, line: &[u8]) -> Result<Vec<u8>, AllocError> {
    let mut changed = Vec::new(alloc);
    let mut at: u64 = 1;
    for byte in text {
        if at != number {
            changed.push(*byte)?;
        }
        if *byte == b'\n' {
            if at == number {
                changed.extend_from_slice(line)?;
                changed.push(b'\n')?;
            }
            at = at.saturating_add(1);
        }
    }
    Ok(changed)
}

// The first lines of a text.
fn first_lines(alloc: Global, text: &[u8], count: u64) -> Result<Vec<u8>, AllocError> {
    let mut kept = Vec::new(alloc);
    let mut at: u64 = 0;
    for byte in text {
        if at >= count {
            break;
        }
        kept.push(*byte)?;
        if *byte == b'\n' {
            at = at.saturating_add(1);
        }
    }
    Ok(kept)
}

// How a command ends on a text, and what it writes.
fn on_text<H: Host + Wait + Sync>(
    rt: &H,
    alloc: Global,
    command: &str,
    text: &[u8],
) -> Result<(u8, Vec<u8>), Fail> {
    let mut files = files_of(alloc, &[])?;
    files.put("text", text)?;
    outcome(rt, alloc, &[command, "text"], &mut files)
}

#[test]
fn benches_with_a_damaged_line(rt: HostRuntime) -> Result<(), Fail> {
    let cases: [(u64, &[u8], &[u8]); 6] = [
        (1, b"motion-bench", b"refused text 1 B2\n"),
        (3, b"axis X 0 50 10", b"refused text 3 B4\n"),
        (4, b"task\0main", b"refused text 4 B1\n"),
        (7, b"cal", b"refused text 7 B3\n"),
        (7, b"call M on pos=", b"refused text 7 B7\n"),
        (10, b"end mai", b"refused text 10 B6\n"),
    ];
    for (number, line, answer) in cases {
        let text = with_line(rt.alloc(), ONE_MOVE, number, line)?;
        let (exit, written) = on_text(&rt, rt.alloc(), "bench", text.as_slice())?;
        assert_eq!(rt; exit, 3);
        assert_eq!(rt; written.as_slice(), answer);
    }
    Ok(())
}

#[test]
fn texts_that_are_cut_short(rt: HostRuntime) -> Result<(), Fail> {
    let cases: [(&str, &[u8], u64, &[u8]); 4] = [
        ("bench", ONE_MOVE, 0, b"refused text 1 B10\n"),
        ("bench", ONE_MOVE, 5, b"refused text 5 B10\n"),
        ("check", ONE_MOVE_TRACE, 10, b"refused text 10 T6\n"),
        ("check", ONE_MOVE_TRACE, 9, b"refused text 9 T6\n"),
    ];
    for (command, text, lines, answer) in cases {
        let text = first_lines(rt.alloc(), text, lines)?;
        let (exit, written) = on_text(&rt, rt.alloc(), command, text.as_slice())?;
        assert_eq!(rt; exit, 3);
        assert_eq!(rt; written.as_slice(), answer);
    }
    Ok(())
}

#[test]
fn traces_with_a_damaged_record(rt: HostRuntime) -> Result<(), Fail> {
    let cases: [(u64, &[u8], &[u8]); 2] = [
        (2, b"trace,4,bench,20,40,,,,,,,", b"refused text 2 T2\n"),
        (
            5,
            b"block,M,main,MoveAbsolute,X,,,,,,",
            b"refused text 5 T1\n",
        ),
    ];
    for (number, record, answer) in cases {
        let text = with_line(rt.alloc(), ONE_MOVE_TRACE, number, record)?;
        let (exit, written) = on_text(&rt, rt.alloc(), "check", text.as_slice())?;
        assert_eq!(rt; exit, 3);
        assert_eq!(rt; written.as_slice(), answer);
    }
    Ok(())
}

#[test]
fn a_configuration_that_ends_inside_a_table(rt: HostRuntime) -> Result<(), Fail> {
    let mut files = files_of(rt.alloc(), &[])?;
    files.put("machine", b"cycle_us = 1000\n[[axis")?;
    let (exit, written) = outcome(&rt, rt.alloc(), &["run", "machine", "program"], &mut files)?;
    assert_eq!(rt; exit, 3);
    assert_eq!(rt; written.as_slice(), b"refused machine 0 C1\n".as_slice());
    Ok(())
}

#[test]
fn a_program_that_ends_inside_a_repeat(rt: HostRuntime) -> Result<(), Fail> {
    let mut text = Vec::from_slice(rt.alloc(), TWO_TASKS)?;
    text.extend_from_slice(b"repeat 2\ncall MY off\n")?;
    let mut files = files_of(rt.alloc(), &[])?;
    files.put("program", text.as_slice())?;
    let (exit, written) = outcome(&rt, rt.alloc(), &["run", "machine", "program"], &mut files)?;
    assert_eq!(rt; exit, 3);
    assert_eq!(rt; written.as_slice(), b"refused program 19 P10\n".as_slice());
    Ok(())
}
