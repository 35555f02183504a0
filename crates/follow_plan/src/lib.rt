//! Followers: the step of a gear and the position of a cam, from the master's setpoints. It stands
//! on `cam_table` and `motion_numbers`, and knows no limits: what it wants is cut to a safe step
//! elsewhere. Begin at [`gear_toward`] and [`cam_position`].
#![tactic(auto)]

mod cam;
mod floor;
mod gear;
mod laws;

pub use cam::cam_position;
pub use gear::{gear_difference, gear_toward};
pub use laws::{cam_positions_lie_between_points, gears_keep_their_ratio};
