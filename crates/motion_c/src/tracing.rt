// The trace of a machine, or of its segment as a trace segment of one, and copying its text.

ghost use Rattle.std.specs.Prelude.{◌≡◌, ◌≢◌, ◌↔◌, ◌++◌, [], IsTrue, Some, None, length, drop};
ghost use Rattle.motion_c.specs.Held.{held};
ghost use Rattle.motion_c.specs.Traces.{MakesTraceSegment, MakesTrace, TellsTrace, bytes_between, trace_of};
ghost use Rattle.motion_c.specs.declared.machine.Machine.{Machine};

use crate::code::{CLOSED, LATER, LENGTH, NO_MEMORY, OK};
use crate::machine::Machine;
use crate::motion::{Motion, put, take};
use crate::texts::{trace_segment_written, trace_written};
use lasting_kernel::LastingKernel;
use plc_types::DriveIn;
use std::alloc::Global;

/// Makes the trace of all that was called, cycled and ended from opening on, where none of it
/// was given out. Each drive took the setpoint of every cycle, and ends with this answer. It takes
/// memory, which closing gives back.
#[unsafe(no_mangle)]
pub extern "C" fn motion_trace(alloc: Global, motion: &mut Motion, answers: &[DriveIn]) -> u32
    ensures closed { (result ≡ 1) ↔ (held motion.old ≡ None) }
    ensures code { (m : Machine) → held motion.old ≡ Some m →
        TellsTrace m.kernel (length answers.now) result }
    ensures made { (m : Machine) → held motion.old ≡ Some m → result ≡ 0 →
        MakesTrace m answers.now (held motion.new) }
    ensures codes { result ≢ 0 → result ≢ 1 → result ≢ 6 → result ≢ 13 → result ≡ 3 }
    ensures kept { result ≢ 0 → held motion.new ≡ held motion.old }
{
    let Some(mut machine) = take(alloc, motion) else {
        return CLOSED;
    };
    let answer = make_trace(alloc, &mut machine, answers);
    put(motion, machine);
    answer
}

/// Makes the text of the machine's segment as a trace segment: where the segment begins, and what
/// was called, cycled and ended since. Each drive took the setpoint of every cycle of the segment,
/// and ends with this answer. The trace segment is kept as the trace that was made last. It takes
/// memory, which closing gives back.
#[unsafe(no_mangle)]
pub extern "C" fn motion_segment_text(
    alloc: Global,
    motion: &mut Motion,
    answers: &[DriveIn],
) -> u32
    ensures closed { (result ≡ 1) ↔ (held motion.old ≡ None) }
    ensures length { (m : Machine) → held motion.old ≡ Some m →
        ((result ≡ 6) ↔ (length answers.now ≢ length m.kernel.kernel.config.axes)) }
    ensures made { (m : Machine) → held motion.old ≡ Some m → result ≡ 0 →
        MakesTraceSegment m answers.now (held motion.new) }
    ensures codes { result ≢ 0 → result ≢ 1 → result ≢ 6 → result ≡ 3 }
    ensures kept { result ≢ 0 → held motion.new ≡ held motion.old }
{
    let Some(mut machine) = take(alloc, motion) else {
        return CLOSED;
    };
    let answer = make_trace_segment(alloc, &mut machine, answers);
    put(motion, machine);
    answer
}

/// Copies the trace or the trace segment that was made last into `room`, from a place on, and says
/// how many bytes it copied: 0 after its end, before one was made, and where the handle is closed.
#[unsafe(no_mangle)]
pub extern "C" fn motion_trace_text(
    alloc: Global,
    motion: &mut Motion,
    from: u64,
    room: &mut [u8],
) -> u64
    ensures count { result ≡ length (bytes_between (trace_of (held motion.old)) from (length room.old)) }
    ensures copied { room.new ≡ bytes_between (trace_of (held motion.old)) from (length room.old) ++
        drop result room.old }
    ensures kept { held motion.new ≡ held motion.old }
{
    let Some(machine) = take(alloc, motion) else {
        return 0;
    };
    let count = match &machine.trace {
        Some(trace) => copy_from(trace.bytes(), from, room),
        None => 0,
    };
    put(motion, machine);
    count
}

// Makes the trace of a machine of which no entry was given out, and keeps it.
fn make_trace(alloc: Global, machine: &mut Machine, answers: &[DriveIn]) -> u32
    ensures code { TellsTrace machine.old.kernel (length answers.now) result }
    ensures open { result ≢ 1 }
    ensures made { result ≡ 0 → MakesTrace machine.old answers.now (Some machine.new) }
    ensures codes { result ≢ 0 → result ≢ 6 → result ≢ 13 → result ≡ 3 }
    ensures kept { result ≢ 0 → machine.new ≡ machine.old }
{
    if !is_whole(&machine.kernel) {
        return LATER;
    }
    if answers.len() != machine.kernel.segment().config().axes().len() {
        return LENGTH;
    }
    match trace_written(alloc, machine, answers) {
        Some(trace) => {
            machine.trace = Some(trace);
            OK
        }
        None => NO_MEMORY,
    }
}

// Whether nothing was before the segment, so that it is the whole history.
fn is_whole(kernel: &LastingKernel) -> bool
    ensures { IsTrue result ↔ (kernel.now.past ≡ []) }
{
    // law: what was before the segment is counted
    kernel.keeps_laws();
    kernel.segment().before().entries == 0
}

// Makes the trace segment that a machine's segment is, and keeps it.
fn make_trace_segment(alloc: Global, machine: &mut Machine, answers: &[DriveIn]) -> u32
    ensures length { (result ≡ 6) ↔
        (length answers.now ≢ length machine.old.kernel.kernel.config.axes) }
    ensures made { result ≡ 0 → MakesTraceSegment machine.old answers.now (Some machine.new) }
    ensures codes { result ≢ 0 → result ≢ 6 → result ≡ 3 }
    ensures kept { result ≢ 0 → machine.new ≡ machine.old }
{
    if answers.len() != machine.kernel.segment().config().axes().len() {
        return LENGTH;
    }
    match trace_segment_written(alloc, machine.kernel.segment(), answers) {
        Some(trace_segment) => {
            machine.trace = Some(trace_segment);
            OK
        }
        None => NO_MEMORY,
    }
}

// Copies a text from a place on, as far as there is room, and says how many bytes.
fn copy_from(text: &[u8], from: u64, room: &mut [u8]) -> u64
    ensures count { result ≡ length (bytes_between text.now from (length room.old)) }
    ensures copied { room.new ≡ bytes_between text.now from (length room.old) ++ drop result room.old }
{
    if from >= text.len() as u64 {
        return 0;
    }
    let rest = &text[from as usize..];
    let count = rest.len().min(room.len());
    room[..count].copy_from_slice(&rest[..count]);
    count as u64
}
