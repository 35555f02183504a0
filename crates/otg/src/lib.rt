//! A trajectory generator with limited jerk for C and C++ programs, as a static library: `c/otg.h`
//! declares what is exported here. A generator is a struct of fixed size, with no memory of its
//! own; each step gives the next setpoint, and whatever is wanted in between, no setpoint leaves
//! the limits. It stands on `jerk_core` and `jerk_plan`. Begin at [`otg_step`].
#![tactic(auto)]

mod commands;
mod generator;
mod laws;
mod opening;
mod own;
mod stepping;

pub use commands::{otg_halt, otg_move, otg_velocity};
pub use generator::Otg;
pub use laws::{halts_are_done, moves_are_done, velocities_are_done};
pub use opening::{otg_is_open, otg_open};
pub use stepping::{otg_step, step_counted};
