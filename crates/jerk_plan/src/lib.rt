//! Moves, velocities and halts with limited jerk: the step that a command wants in a cycle, by its
//! own rates. What is safe, `jerk_core` tells. It stands on `jerk_core`. Begin at [`move_step`],
//! [`velocity_step`] and [`halt_step`].
#![tactic(auto)]

mod laws;
mod speeds;
mod steps;

pub use jerk_core::JerkRates;
pub use laws::{
    halts_rest, move_steps_are_safe, moves_arrive, moves_stay_before_their_targets,
    velocities_are_held, velocities_are_reached,
};
pub use speeds::{halt_speed, move_speed, own_speed, velocity_speed};
pub use steps::{halt_step, move_step, move_step_counted, velocity_step};
