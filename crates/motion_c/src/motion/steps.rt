// Taking a machine out of a handle, and putting it back.

ghost use Rattle.std.specs.Prelude.{◌≡◌, ◌↔◌, ◌≢◌, IsTrue, None, Some};
ghost use Rattle.std.specs.Option.{option_map};
ghost use Rattle.motion_c.specs.Held.{held};

use super::Motion;
use crate::machine::Machine;
use crate::machine_pointer::MachinePointer;
use crate::parts::Parts;
use std::alloc::Global;
use std::mem::replace;

/// Takes the machine out of a handle.
pub fn take(alloc: Global, motion: &mut Motion) -> Option<Box<Machine>>
    ensures taken { option_map (λ b. b.value) result ≡ held motion.old }
    ensures none { held motion.new ≡ None }
{
    if motion.state != 1 {
        return None;
    }
    motion.state = 0;
    let machine_pointer = replace(&mut motion.machine_pointer, MachinePointer::none(alloc));
    Some(machine_pointer.into_parts().into_box())
}

/// Puts a machine into a handle.
pub fn put(motion: &mut Motion, machine: Box<Machine>)
    ensures { held motion.new ≡ Some machine.value }
{
    motion.state = 0;
    motion.machine_pointer = MachinePointer::of_parts(Parts::of(machine));
    motion.state = 1;
}

/// Whether the handle holds a machine.
pub fn is_open(motion: &Motion) -> bool
    ensures { IsTrue result ↔ (held motion.now ≢ None) }
{
    motion.state == 1
}
