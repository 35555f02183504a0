// Files that can't be read, outputs that fail or take a byte at a time, and starts that are
// refused.

use super::{ONE_MOVE_TRACE, ended, files_of, outcome};
use job_ends::Status;
use outside::MemorySink;
use std::test::Fail;

// A run whose listed read fails: its words, and the line that it writes.
#[derive(Drop)]
struct Unread {
    words: &'static [&'static str],
    fails: &'static [u32],
    line: &'static [u8],
}

#[test]
fn a_file_that_fails_is_named(rt: HostRuntime) -> Result<(), Fail> {
    let cases = [
        Unread {
            words: &["bench", "one_move"],
            fails: &[1],
            line: b"cannot read one_move\n",
        },
        Unread {
            words: &["bench", "other"],
            fails: &[],
            line: b"cannot read other\n",
        },
        Unread {
            words: &["run", "machine", "program"],
            fails: &[1],
            line: b"cannot read machine\n",
        },
        Unread {
            words: &["run", "machine", "program"],
            fails: &[2],
            line: b"cannot read program\n",
        },
    ];
    for case in &cases {
        let mut files = files_of(rt.alloc(), case.fails)?;
        let (exit, line) = outcome(&rt, rt.alloc(), case.words, &mut files)?;
        assert_eq!(rt; exit, 4);
        assert_eq!(rt; line.as_slice(), case.line);
    }
    Ok(())
}

// Whether a trace that was cut by a failing write is less than all, and a beginning of it.
fn is_cut(part: &[u8]) -> bool {
    part.len() < ONE_MOVE_TRACE.len() && ONE_MOVE_TRACE.starts_with(part)
}

// The writes of the worked bench fail one after another, until one more than it makes.
#[test]
fn each_write_that_fails_leaves_a_beginning(rt: HostRuntime) -> Result<(), Fail> {
    let mut failed = 0u64;
    for write in 1..=64u64 {
        let mut out = MemorySink::new(rt.alloc(), &[write], u32::MAX)?;
        let mut files = files_of(rt.alloc(), &[])?;
        let status = ended(
            &rt,
            rt.alloc(),
            &["bench", "one_move"],
            &mut files,
            &mut out,
            &[],
        )?;
        if status == Status::Ok {
            assert_eq!(rt; out.bytes(), ONE_MOVE_TRACE, "write {write}");
            assert_eq!(rt; failed.wrapping_add(1), write);
            assert!(rt; failed > 0);
            return Ok(());
        }
        assert_eq!(rt; status, Status::WriteFault, "write {write}");
        assert!(rt; is_cut(out.bytes()), "write {write}");
        failed = write;
    }
    Err(Fail::new("each of 64 writes was made"))
}

#[test]
fn an_output_of_a_byte_a_write_gets_all(rt: HostRuntime) -> Result<(), Fail> {
    let mut out = MemorySink::new(rt.alloc(), &[], 1)?;
    let mut files = files_of(rt.alloc(), &[])?;
    let status = ended(
        &rt,
        rt.alloc(),
        &["bench", "one_move"],
        &mut files,
        &mut out,
        &[],
    )?;
    assert_eq!(rt; status, Status::Ok);
    assert_eq!(rt; out.bytes(), ONE_MOVE_TRACE);
    Ok(())
}

#[test]
fn each_start_that_is_refused_ends_the_run(rt: HostRuntime) -> Result<(), Fail> {
    for start in 1..=4 {
        let mut out = MemorySink::new(rt.alloc(), &[], u32::MAX)?;
        let mut files = files_of(rt.alloc(), &[])?;
        let words = ["run", "machine", "program"];
        let status = ended(&rt, rt.alloc(), &words, &mut files, &mut out, &[start])?;
        assert_eq!(rt; status, Status::ThreadRefused, "start {start}");
        assert_eq!(rt;
            out.bytes(),
            b"thread refused\n".as_slice(),
            "start {start}"
        );
    }
    Ok(())
}
