//! Greatest counts of the terms of a ramp, by an integer root, and the steps that they give. It
//! stands on `motion_numbers`. The plans ask it how long a ramp may be: a closed form instead of a
//! search. Begin at [`reach`] and [`greatest_count`].
#![tactic(auto)]

mod counts;
mod reaches;
mod roots;

pub use counts::{
    fits, greatest_count, greatest_count_counted, sums_in_closed_form, sums_of_ramps,
};
pub use motion_numbers::Counter;
pub use reaches::reach;
pub use roots::root;
