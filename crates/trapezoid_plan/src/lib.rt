//! Moves, velocities and halts of one axis: the step that a command wants in a cycle. Only what is
//! wanted is reported here; what is safe, `kin_core` gives. It stands on `kin_core` and
//! `ramp_root`. Begin at [`move_step`], [`velocity_step`] and [`halt_step`]; how long a move takes
//! at most is [`cycles_bound`].
#![tactic(auto)]

mod cycles;
mod halts;
mod laws;
mod moves;
mod velocities;

pub use command_pool::Rates;
pub use cycles::cycles_bound;
pub use halts::halt_step;
pub use laws::{
    cycles_bounds_grow, halts_come_to_rest_in_time, move_steps_are_greatest, move_steps_are_safe,
    moves_arrive_in_time, moves_head_for_their_targets, moves_that_head_away_brake,
};
pub use moves::{PlannedStep, move_step, move_step_counted, plan_move};
pub use ramp_root::reach;
pub use velocities::velocity_step;
