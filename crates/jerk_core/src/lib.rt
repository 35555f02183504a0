//! The limits of an axis with limited jerk, and which steps are safe within them. The speed of such
//! an axis is itself an axis: it rises by at most amax and falls by at most dmax each cycle, and
//! that change changes by at most jmax. It stands on `kin_core`, whose limits it keeps too.
#![tactic(auto)]

mod ahead;
mod braking;
mod keeping;
mod laws;
mod limits;
mod motions;
mod rates;
mod reaching;
mod rest;
mod sums;
mod taking;

pub use ahead::{greatest_between, greatest_left, greatest_safe, keeps, safe_speed};
pub use braking::{braked, rest_fits};
pub use keeping::{is_kept, is_kept_counted};
pub use laws::{
    kept_is_stoppable, kept_motions_go_on, kept_without_jerk, lesser_rates_are_kept,
    rest_can_be_left, safe_speeds_are_an_interval, standing_is_kept_by_jerk, ways_unfold,
};
pub use limits::JerkLimits;
pub use motion_numbers::Counter;
pub use motions::{Motion, Setpoints};
pub use rates::JerkRates;
pub use reaching::greatest_fall;
pub use rest::way_to_rest;
pub use taking::{nearest_safe, nearest_safe_counted};
