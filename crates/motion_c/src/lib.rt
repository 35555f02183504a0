//! The kernel for C and C++ programs, as a static library: `c/motion.h` declares what is exported
//! here. A handle that C holds owns a machine, a kernel with its trace; each export takes it out,
//! works on it and puts it back, so that the work itself is plain code over `lasting_kernel`, the
//! readers of texts, `trace_text` and `segment_text`. A machine that runs for days gives its
//! segment to a second handle (`src/swapping.rt`). Begin with `specs/Held.antt`, then
//! `src/calling.rt`; `src/laws.rt` gives the laws of the history after a handle.
#![tactic(auto)]

mod calling;
mod code;
mod configuring;
mod cycling;
mod ending;
mod forgetting;
mod given;
mod input_laws;
mod items;
mod laws;
mod looking;
mod machine;
mod machine_pointer;
mod motion;
mod names;
mod naming;
mod opening;
mod parts;
mod rows;
mod sameness;
mod sending;
mod swapping;
mod texts;
mod tracing;
mod version;

pub use calling::{MotionOutputs, motion_call};
pub use configuring::motion_open_config;
pub use cycling::motion_cycle;
pub use ending::motion_end;
pub use forgetting::motion_forget;
pub use given::{MotionInputs, inputs_given};
pub use input_laws::given_inputs_are_in_range;
pub use items::{
    MotionBlockRow, MotionLimits, motion_axis_limits, motion_block_look, motion_cycle_us,
};
pub use laws::held_histories_keep_their_laws;
pub use looking::{
    MotionAxisRow, MotionGroupRow, motion_axis_look, motion_cycles_left, motion_group_look,
    motion_room_left,
};
pub use machine::Machine;
pub use machine_pointer::MachinePointer;
pub use motion::Motion;
pub use names::{
    MotionName, motion_axis_name, motion_block_name, motion_group_name, motion_kind_name,
    motion_task_name,
};
pub use naming::{
    motion_axes, motion_axis, motion_block, motion_blocks, motion_group, motion_groups,
    motion_task, motion_tasks,
};
pub use opening::{MotionRefusal, motion_close, motion_open};
pub use plc_types::{DriveIn, DriveOut};
pub use swapping::motion_swap;
pub use tracing::{motion_segment_text, motion_trace, motion_trace_text};
pub use version::motion_version;
