//! Which steps of an axis are safe within its limits. A step is safe where the axis can
//! still come to rest inside its limits afterwards; the safe steps are an interval, and the step
//! taken is the one nearest to the wanted one. Every limit in this kernel rests on it. It stands on
//! `plc_types`. Begin at [`nearest_safe`] and [`stoppable`].
#![tactic(auto)]

mod laws;
mod stopping;
mod taking;

pub use laws::{
    braking_steps_are_only_cut, safe_steps_are_an_interval, safe_steps_lead_on, standing_is_kept,
    steps_ahead_are_safe, steps_fall_toward_zero, steps_follow_by_direction, taken_steps_keep,
    taken_steps_keep_for_ever,
};
pub use motion_numbers::{greatest_ramp, ramp_sum, run_sum};
pub use stopping::stoppable;
pub use taking::nearest_safe;
