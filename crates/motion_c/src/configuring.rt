// Opening a machine by a configuration and a program.

ghost use Rattle.std.specs.Prelude.{◌≡◌, ◌≢◌, ◌↔◌, IfOk, Some, None, Err, Ok};
ghost use Rattle.motion_c.specs.Configured.{IsOneRefused, OpensBoth, ReadsBoth, reading_of};
ghost use Rattle.motion_c.specs.Held.{held};
ghost use Rattle.motion_history.specs.Setup.{IsSetup};
ghost use Rattle.motion_history.specs.declared.refused.TextRefused.{TextRefused};

use crate::code::{NO_MEMORY, OK, OPEN, REFUSED};
use crate::machine::Machine;
use crate::motion::{Motion, is_open, put};
use crate::opening::{MotionRefusal, machine_of, told};
use machine_config::read_config;
use motion_history::{Builder, Config, TextFault, TraceVersion};
use plc_program::read_program;
use std::alloc::Global;

/// Opens a machine by the texts that `motion run` takes: a configuration in TOML, and a program,
/// whose tasks and blocks the machine gets. The program's other lines are read and not kept: the
/// caller makes the calls. As `motion_open` it touches the segment's memory.
#[unsafe(no_mangle)]
pub extern "C" fn motion_open_config(
    alloc: Global,
    motion: &mut Motion,
    config: &[u8],
    program: &[u8],
    refusal: &mut MotionRefusal,
) -> u32
    ensures open { (result ≡ 2) ↔ (held motion.old ≢ None) }
    ensures opened { result ≡ 0 → OpensBoth config.now program.now (held motion.new) }
    ensures refused { result ≡ 4 → IsOneRefused config.now program.now refusal.new }
    ensures codes { result ≢ 0 → result ≢ 2 → result ≢ 4 → result ≡ 3 }
    ensures kept { result ≢ 0 → held motion.new ≡ held motion.old }
    ensures same { result ≢ 4 → refusal.new ≡ refusal.old }
{
    if is_open(motion) {
        return OPEN;
    }
    match configured(alloc, config, program) {
        Ok(machine) => {
            put(motion, machine);
            OK
        }
        Err(TextFault::Refused(refused)) => {
            *refusal = told(&refused);
            REFUSED
        }
        Err(TextFault::OutOfMemory) => NO_MEMORY,
    }
}

// What both texts make: a configuration with tasks and blocks, the version of its text, and the
// microseconds of a cycle.
#[derive(Drop)]
struct BothRead {
    config: Config,
    version: TraceVersion,
    cycle_us: u32,
}

// The machine of both texts.
fn configured(alloc: Global, config: &[u8], program: &[u8]) -> Result<Box<Machine>, TextFault>
    ensures opened { IfOk result (λ b. OpensBoth config.now program.now (Some b.value)) }
    ensures refused { (r : TextRefused) → result ≡ Err (TextFault.Refused r) →
        reading_of config.now program.now ≡ Err r }
{
    let both = match read_both(alloc, config, program) {
        Ok(both) => both,
        Err(fault) => return Err(fault),
    };
    machine_of(alloc, both.config, both.version, both.cycle_us)
}

// The configuration with the tasks and blocks of the program.
fn read_both(alloc: Global, config: &[u8], program: &[u8]) -> Result<BothRead, TextFault>
    ensures { ReadsBoth config.now program.now result }
{
    let machine = match read_config(alloc, config) {
        Ok(machine) => machine,
        Err(fault) => return Err(fault),
    };
    let mut items = machine.config;
    match read_program(
        alloc,
        program,
        &mut items,
        machine.version,
        machine.cycle_us,
    ) {
        Ok(_) => Ok(BothRead {
            config: whole(items),
            version: machine.version,
            cycle_us: machine.cycle_us,
        }),
        Err(fault) => Err(fault),
    }
}

// A configuration that is whole.
fn whole(machine: Builder) -> Config
    requires { IsSetup machine }
    ensures { result ≡ machine }
{
    match machine.finish() {
        Ok(config) => config,
        Err(_) => unreachable!(),
    }
}
