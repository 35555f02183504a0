// Opening a machine by its text, and closing it.

ghost use Rattle.std.specs.Prelude.{◌≡◌, ◌≢◌, ◌↔◌, IfOk, IfErr, IfSome, Some, None, Err, Ok};
ghost use Rattle.bench_text.specs.Reading.{bench_of, ReadsBy};
ghost use Rattle.motion_c.specs.Held.{held};
ghost use Rattle.motion_c.specs.Opened.{IsRefused, IsTold, Opens, at_rest, with_go};
ghost use Rattle.motion_c.specs.declared.machine.Machine.{Machine};
ghost use Rattle.motion_history.specs.declared.refused.TextFault.{TextFault};
ghost use Rattle.motion_history.specs.declared.refused.TextRefused.{TextRefused};

use crate::code::{CLOSED, NO_MEMORY, OK, OPEN, REFUSED};
use crate::machine::Machine;
use crate::motion::{Motion, is_open, put, take};
use bench_text::{Bench, read_bench};
use lasting_kernel::LastingKernel;
use motion_history::{Config, TextFault, TextRefused, TraceVersion};
use std::alloc::Global;

/// Where a text is refused, and by which rule: a letter and a number, as B and 8.
#[repr(C)]
#[derive(Clone, Copy)]
pub struct MotionRefusal {
    /// The line, counted from 1.
    pub line: u64,
    /// The letter of the rule, in ASCII.
    pub letter: u8,
    pub number: u8,
}

/// Opens a machine by the machine part of a bench, without `go`. It touches the memory of the
/// segment's whole room, so that no call and no cycle pays for its pages.
#[unsafe(no_mangle)]
pub extern "C" fn motion_open(
    alloc: Global,
    motion: &mut Motion,
    text: &[u8],
    refusal: &mut MotionRefusal,
) -> u32
    ensures open { (result ≡ 2) ↔ (held motion.old ≢ None) }
    ensures opened { result ≡ 0 → Opens text.now (held motion.new) }
    ensures refused { result ≡ 4 → IsRefused text.now refusal.new }
    ensures codes { result ≢ 0 → result ≢ 2 → result ≢ 4 → result ≡ 3 }
    ensures kept { result ≢ 0 → held motion.new ≡ held motion.old }
    ensures same { result ≢ 4 → refusal.new ≡ refusal.old }
{
    if is_open(motion) {
        return OPEN;
    }
    match opened(alloc, text) {
        Ok(machine) => {
            put(motion, machine);
            OK
        }
        Err(TextFault::Refused(refused)) => {
            *refusal = told(&refused);
            REFUSED
        }
        Err(TextFault::OutOfMemory) => NO_MEMORY,
    }
}

/// Closes a machine, and gives its memory back.
#[unsafe(no_mangle)]
pub extern "C" fn motion_close(alloc: Global, motion: &mut Motion) -> u32
    ensures closed { (result ≡ 1) ↔ (held motion.old ≡ None) }
    ensures ok { (result ≡ 0) ↔ (held motion.old ≢ None) }
    ensures none { held motion.new ≡ None }
{
    match take(alloc, motion) {
        Some(machine) => {
            drop(machine);
            OK
        }
        None => CLOSED,
    }
}

/// The refusal as C has it.
pub fn told(refused: &TextRefused) -> MotionRefusal
    ensures { IsTold refused.now result }
{
    MotionRefusal {
        line: refused.place,
        letter: refused.rule.letter,
        number: refused.rule.number,
    }
}

// The machine of a text.
fn opened(alloc: Global, text: &[u8]) -> Result<Box<Machine>, TextFault>
    ensures opened { IfOk result (λ b. Opens text.now (Some b.value)) }
    ensures refused { (r : TextRefused) → result ≡ Err (TextFault.Refused r) →
        bench_of (with_go text.now) ≡ Err r }
{
    let bench = match read_machine(alloc, text) {
        Ok(bench) => bench,
        Err(fault) => return Err(fault),
    };
    let Some(config) = copied(alloc, bench.config()) else {
        return Err(TextFault::OutOfMemory);
    };
    machine_of(alloc, config, bench.version(), 0)
}

// The bench that a machine's text is with `go`.
fn read_machine(alloc: Global, text: &[u8]) -> Result<Bench, TextFault>
    ensures { ReadsBy (bench_of (with_go text.now)) result }
{
    match whole_text(alloc, text) {
        Some(whole) => read_bench(alloc, whole.as_slice()),
        None => Err(TextFault::OutOfMemory),
    }
}

// A machine's text with `go`.
fn whole_text(alloc: Global, text: &[u8]) -> Option<Vec<u8>>
    ensures { IfSome result (λ v. v.items ≡ with_go text.now) }
{
    let mut whole = Vec::new(alloc);
    whole.extend_from_slice(text).ok()?;
    whole.extend_from_slice(b"\ngo\n").ok()?;
    Some(whole)
}

// An equal configuration, if there is memory for it.
fn copied(alloc: Global, config: &Config) -> Option<Config>
    ensures { IfSome result (λ c. c ≡ config.now) }
{
    config.copy(alloc).ok()
}

/// The machine of a configuration, at rest, with the memory of its segment's room touched.
pub fn machine_of(
    alloc: Global,
    config: Config,
    version: TraceVersion,
    cycle_us: u32,
) -> Result<Box<Machine>, TextFault>
    ensures machine { IfOk result (λ b. b.value ≡ at_rest config version cycle_us) }
    ensures memory { IfErr result (λ e. e ≡ TextFault.OutOfMemory) }
{
    match boxed(alloc, config, version, cycle_us) {
        Some(machine) => Ok(machine),
        None => Err(TextFault::OutOfMemory),
    }
}

// The machine of a configuration, if there is memory for it.
fn boxed(
    alloc: Global,
    config: Config,
    version: TraceVersion,
    cycle_us: u32,
) -> Option<Box<Machine>>
    ensures { IfSome result (λ b. b.value ≡ at_rest config version cycle_us) }
{
    let mut kernel = LastingKernel::open(alloc, config).ok()?;
    kernel.touch();
    let machine = Machine {
        kernel,
        version,
        cycle_us,
        trace: None,
    };
    Box::new(alloc, machine).ok()
}
