// A box of a machine as a pointer that C holds.

ghost use Rattle.std.specs.Prelude.{◌≡◌, ◌≢◌, Option, Some, None};
ghost use Rattle.motion_c.specs.declared.machine.Machine.{Machine};

use crate::machine::Machine;
use crate::parts::Parts;
use std::alloc::Global;
use std::marker::Model;

/// Where the box of a machine lies, as a pointer that C holds, or nothing.
#[repr(C)]
#[derive(Drop)]
pub struct MachinePointer {
    at: *mut u8,
    alloc: Global,
    pub ghost held: { Option Machine },
}

impl Model for MachinePointer {
    ghost use Rattle.motion_c.specs.Owned.{machine_owned};

    ghost also_owns = { λ s. machine_owned s.alloc s.at s.held };
}

impl MachinePointer {
    /// A pointer to no machine.
    pub fn none(alloc: Global) -> MachinePointer
        ensures { result.held ≡ None }
    {
        MachinePointer {
            at: std::ptr::null_mut(),
            alloc,
        }
    }

    /// The pointer to these parts.
    pub fn of_parts(parts: Parts<Machine, Global>) -> MachinePointer
        ensures { result.held ≡ Some parts.value }
    {
        let Parts { ptr, alloc } = parts;
        MachinePointer {
            at: ptr as *mut u8,
            alloc,
        }
    }

    /// The parts of a pointer that has some.
    pub fn into_parts(self) -> Parts<Machine, Global>
        requires { self.held ≢ None }
        ensures { self.held ≡ Some result.value }
    {
        let MachinePointer { at, alloc } = self;
        Parts {
            ptr: at as *mut Machine,
            alloc,
        }
    }
}

unsafe impl Send for MachinePointer {}
