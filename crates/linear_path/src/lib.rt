//! Straight lines of several axes at once, and the limits of a path along them. A line runs from
//! the place of each axis to its target, and its own limits are the tightest that no axis' limits
//! are broken by. It stands on `kin_core`. Begin at [`Path`], which is all that a group asks of a
//! path, and [`LinePath`].
#![tactic(auto)]

mod laws;
mod limits;
mod line;
mod on_line;
mod part;
mod path;

pub use laws::steps_along_a_path_are_safe;
pub use limits::path_limits;
pub use line::LinePath;
pub use path::Path;
