// Segments given out, taken in and handed over.

ghost use Rattle.std.specs.Prelude.{◌≡◌, [], IfOk};
ghost use Rattle.motion_kernel.specs.Segments.{IsEarly, IsHeldSegment, IsSpare, IsUnused, after_segment, machine_now};
ghost use Rattle.motion_kernel.specs.kept.Machine.{IsMachineKept};
ghost use Rattle.motion_kernel.specs.owners.Blocks.{OwnersHaveBlocks};

use super::SegmentedKernel;
use crate::laws::machines_stay_kept;
use crate::segment::{Before, Segment};
use motion_history::OutOfMemory;
use std::alloc::Global;
use std::mem::swap;

impl SegmentedKernel {
    /// An empty segment for `swap`, with its whole room reserved. It begins at opening.
    pub fn spare(&self, alloc: Global) -> Result<Segment, OutOfMemory>
        ensures spare { IfOk result (IsSpare self.now.config) }
        ensures unused { IfOk result (IsUnused self.now.config) }
    {
        // law: a machine at opening has the sizes of its configuration
        machines_stay_kept();
        Segment::empty(alloc, &self.layout)
    }

    /// Gives the segment out for an empty one, and goes on. It takes no memory, and as long
    /// whatever the segment holds. What was before must be early ([`Before::is_early`]).
    pub fn swap(&mut self, spare: &mut Segment)
        requires early { IsEarly self.old.before }
        requires spare { IsSpare self.old.config spare.old }
        ensures kernel { self.new ≡ record self.old {
          before = after_segment self.old;
          start = machine_now self.old;
          history = [];
        } }
        ensures segment { IsHeldSegment self.old spare.new }
    {
        spare.before = self.before_next();
        spare.start.copy_from(&self.parts);
        swap(&mut self.segment, spare);
    }

    /// Hands its segment over to another kernel of the same configuration, which then is what this
    /// one was, and goes on with an empty one. It takes no memory, and as long whatever the
    /// segments hold.
    pub fn hand_over(&mut self, other: &mut SegmentedKernel)
        requires early { IsEarly self.old.before }
        requires same { other.old.config ≡ self.old.config }
        ensures other { other.new ≡ self.old }
        ensures kernel { self.new ≡ record self.old {
          before = after_segment self.old;
          start = machine_now self.old;
          history = [];
        } }
    {
        let before = self.before_next();
        other.parts.copy_from(&self.parts);
        swap(&mut self.segment, &mut other.segment);
        self.segment.before = before;
        self.segment.start.copy_from(&self.parts);
        self.segment.history.clear();
    }

    /// Empties its segment, and goes on with it: what the segment held is nowhere any more. It takes
    /// no memory, and as long whatever the segment holds.
    pub fn forget(&mut self)
        requires early { IsEarly self.old.before }
        ensures { self.new ≡ record self.old {
          before = after_segment self.old;
          start = machine_now self.old;
          history = [];
        } }
    {
        self.segment.before = self.before_next();
        self.segment.start.copy_from(&self.parts);
        self.segment.history.clear();
    }

    /// Goes on from where an empty segment begins, in the place of what it was. It takes no memory.
    pub fn resume(&mut self, segment: Segment)
        requires spare { IsSpare self.old.config segment }
        requires kept { IsMachineKept self.old.config segment.start }
        requires owners { OwnersHaveBlocks self.old.config segment.start }
        ensures { self.new ≡ record self.old {
          before = segment.before;
          start = segment.start;
          history = [];
        } }
    {
        segment.start.copy_to(&mut self.parts);
        self.segment = segment;
    }

    // What is before the next segment.
    fn before_next(&self) -> Before
        requires { IsEarly self.now.before }
        ensures { result ≡ after_segment self.now }
    {
        Before {
            segments: self.segment.before.segments + 1,
            entries: self.segment.before.entries + self.segment.history.entries(),
            cycles: self.segment.before.cycles + u64::from(self.cycles_made()),
        }
    }
}
