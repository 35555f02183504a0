//! Blending: the step of a move that goes over into the next one without a stop. By the buffer mode
//! a move crosses its target at its own velocity, at the next one's, or at the lower or higher of
//! both. It stands on `kin_core` and `ramp_root`. Begin at [`blend_step`]; the modes are in
//! `modes`.
#![tactic(auto)]

mod blended;
mod crossing;
mod endings;
mod laws;
mod modes;
mod passing;
mod reaches;
mod risen;
mod sizes;

pub use blended::{blend_step, blend_step_counted};
pub use command_pool::Rates;
pub use crossing::crosses;
pub use endings::{
    blends_go_on_until_they_cross, blends_never_turn_back, blends_settle,
    blends_without_steps_brake, crossings_are_told_by_test, crossings_have_the_target_between,
};
pub use laws::{
    blend_steps_are_greatest, blend_steps_are_safe, blend_velocities_are_of_the_moves,
    blends_apply_by_test, crossings_pass_the_first_target,
};
pub use modes::{Blend, blend_velocity};
