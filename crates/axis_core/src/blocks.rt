// The function blocks of an axis, one file each, and the targets and blends of moves.

pub mod blends;
pub mod cam;
pub mod gear;
pub mod halts;
pub mod home;
pub mod moves;
pub mod path;
pub mod power;
pub mod reset;
pub mod targets;
pub mod velocity;
