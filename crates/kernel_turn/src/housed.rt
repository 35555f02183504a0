// The kernel in memory of its own, so that it is moved by its address.

use motion_kernel::Kernel;
use std::marker::Model;

/// A kernel that is moved by its address. Contracts see it as the kernel.
#[derive(Drop)]
pub struct Housed {
    pub(crate) kernel: Box<Kernel>,
}

impl Model for Housed {
    ghost use Rattle.motion_kernel.specs.KernelState.{KernelState};

    ghost Value = { KernelState };

    ghost view = { λ h. h.kernel.value };
}
