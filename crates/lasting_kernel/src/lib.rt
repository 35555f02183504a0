//! A motion kernel that runs for as long as one likes: a kernel whose history is in segments, and
//! in its contracts the whole past with it, all entries before the segment, of which none is in
//! memory. It stands on `motion_kernel`, which makes the entries, and on `motion_laws`, whose laws
//! hold of all of them from opening on, however many segments were handed over. Begin at
//! [`LastingKernel`], whose words are in specs/Lasting.
#![tactic(auto)]

mod kernel_with_past;
mod lasting;
mod past;

pub use lasting::LastingKernel;
pub use motion_kernel::SegmentedKernel;
