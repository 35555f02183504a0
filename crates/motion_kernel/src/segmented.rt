// The kernel whose history is in segments: its state is the replay of the last one from where that
// begins.

ghost use Rattle.std.specs.Prelude.{◌≡◌, ◌<◌, ◌≤◌, ◌+◌, ◌-◌, ◌++◌, ◌∷◌, [], length, map, IfOk, All};
ghost use Rattle.std.specs.Option.{option_map};
ghost use Rattle.plc_types.specs.declared.axis.AxisRow.{AxisRow};
ghost use Rattle.plc_types.specs.declared.drive.DriveIn.{DriveIn};
ghost use Rattle.motion_history.specs.Bits.{HasBits};
ghost use Rattle.motion_history.specs.Calls.{IsCall};
ghost use Rattle.motion_history.specs.Entries.{call, cycle, end_of, cycles_of};
ghost use Rattle.motion_history.specs.LastCycles.{cycle_told, last_cycle_of};
ghost use Rattle.motion_history.specs.Setup.{IsSetup};
ghost use Rattle.motion_kernel.specs.Segments.{at_opening, machine_now};
ghost use Rattle.motion_kernel.specs.calls.Calls.{reply_of};
ghost use Rattle.motion_kernel.specs.cycles.Cycles.{cycled};
ghost use Rattle.motion_kernel.specs.Histories.{IsLegalFrom};
ghost use Rattle.motion_kernel.specs.kept.Machine.{AreWhole, IsSized};

use crate::block_calls::call_block;
use crate::drive_answers::counts_have_32_bits;
use crate::laws::machines_stay_kept;
use crate::layout::Layout;
use crate::machine_cycle::{Aside, cycle_machine};
use crate::opening::open_parts;
use crate::owner_laws::owners_have_blocks;
use crate::parts::Parts;
use crate::segment::{Before, Segment};
use crate::start::Start;
use motion_history::{
    Config, CycleLook, History, OutOfMemory, configurations_are_sound, cycles_add_up,
};
use plc_types::{DriveIn, DriveOut, Inputs, Outputs};
use std::alloc::Global;
use std::marker::Model;

mod swapping;

/// A kernel whose history is in segments, of which it holds the last one: a full segment is given
/// out for an empty one, and the kernel goes on. Contracts see it as its configuration, what was
/// before the segment, the machine with which the segment begins, and the segment's entries.
#[derive(Drop)]
pub struct SegmentedKernel {
    layout: Layout,
    parts: Parts,
    aside: Aside,
    segment: Segment,
}

impl Model for SegmentedKernel {
    ghost use Rattle.motion_kernel.specs.Segments.{SegmentedState};
    ghost use Rattle.motion_kernel.specs.kept.Segmented.{seen_of, IsSegmentedKept};

    ghost Value = { SegmentedState };

    ghost view = { seen_of };

    ghost invariant = { IsSegmentedKept };
}

impl SegmentedKernel {
    /// A kernel at rest, with the whole room of its first segment reserved.
    pub fn open(alloc: Global, config: Config) -> Result<SegmentedKernel, OutOfMemory>
        ensures { IfOk result (λ k. k ≡ at_opening config) }
    {
        // law: the invariant of a machine holds at opening
        machines_stay_kept();
        owners_have_blocks();
        let layout = Layout::open(alloc, config)?;
        let parts = open_parts(alloc, &layout)?;
        let aside = Aside::open(alloc, &layout)?;
        let segment = Segment::empty(alloc, &layout)?;
        Ok(SegmentedKernel {
            layout,
            parts,
            aside,
            segment,
        })
    }

    /// Touches the memory of the segment's whole room, so that no call and no cycle pays for its
    /// pages.
    pub fn touch(&mut self)
        ensures { self.new ≡ self.old }
    {
        self.segment.history.touch();
    }

    /// Calls a block, and answers its outputs.
    pub fn call(&mut self, instance: u16, inputs: &Inputs) -> Outputs
        requires room { length self.old.history < self.old.config.entries }
        requires call { IsCall self.old.config instance inputs.now }
        ensures reply { result ≡ reply_of self.old.config (machine_now self.old) instance
            inputs.now }
        ensures after { self.new ≡ record self.old {
          history = self.old.history ++ call instance inputs.now result ∷ [];
        } }
    {
        // law: it holds after a call
        cycles_add_up();
        machines_stay_kept();
        owners_have_blocks();
        configurations_are_sound();
        let reply = call_block(instance, inputs, &self.layout, &mut self.parts);
        self.segment.history.record_call(instance, inputs, &reply);
        reply
    }

    /// Goes through a cycle with the drives' answers, and gives each drive its controlword, mode
    /// and target.
    pub fn cycle(&mut self, ins: &[DriveIn], outs: &mut [DriveOut])
        requires room { length self.old.history < self.old.config.entries }
        requires cycle { cycles_of self.old.history < self.old.config.cycles }
        requires ins { length ins.now ≡ length self.old.config.axes }
        requires outs { length outs.old ≡ length self.old.config.axes }
        ensures outs { outs.new ≡ map (λ (r : AxisRow). r.output) (cycled self.old.config
            (machine_now self.old) ins.now).axes }
        ensures after { self.new ≡ record self.old {
          history = self.old.history ++
              cycle (cycles_of self.old.history + 1) (cycled self.old.config
              (machine_now self.old) ins.now).axes
              (cycled self.old.config (machine_now self.old) ins.now).groups ∷ [];
        } }
    {
        // law: it holds after a cycle, since the counts have 32 bits
        cycles_add_up();
        machines_stay_kept();
        owners_have_blocks();
        counts_have_32_bits(ins);
        let history = &mut self.segment.history;
        cycle_machine(
            ins,
            &self.layout,
            &mut self.parts,
            &mut self.aside,
            history,
            outs,
        );
        self.segment.history.record_cycle();
    }

    /// Ends a task. A second end of a task makes an entry and changes nothing else.
    pub fn end(&mut self, task: u8)
        requires room { length self.old.history < self.old.config.entries }
        requires task { task < length self.old.config.tasks }
        ensures { self.new ≡ record self.old { history = self.old.history ++ end_of task ∷ [] } }
    {
        // law: the cycles of a history add up
        cycles_add_up();
        self.segment.history.record_end(task);
    }

    /// The configuration.
    pub fn config(&self) -> &Config
        ensures { result.now ≡ self.now.config }
    {
        self.layout.config()
    }

    /// What was before the segment.
    pub fn before(&self) -> Before
        ensures { result ≡ self.now.before }
    {
        self.segment.before
    }

    /// The machine with which the segment begins.
    pub fn start(&self) -> &Start
        ensures machine { result.now ≡ self.now.start }
        ensures sized { IsSized self.now.config self.now.start }
    {
        &self.segment.start
    }

    /// How many entries more the segment has room for.
    pub fn room_left(&self) -> u64
        ensures { result ≡ self.now.config.entries - length self.now.history }
    {
        self.segment.history.room_left()
    }

    /// How many cycles more there may be in the segment.
    pub fn cycles_left(&self) -> u32
        ensures { result ≡ self.now.config.cycles - cycles_of self.now.history }
    {
        self.segment.history.cycles_left()
    }

    /// How many cycles were made in the segment, at most the configured number.
    pub fn cycles_made(&self) -> u32
        ensures cycles { result ≡ cycles_of self.now.history }
        ensures few { result ≤ self.now.config.cycles }
    {
        let _ = self.history();
        self.config().cycles() - self.cycles_left()
    }

    /// The segment's history so far: a legal one from where the segment begins, for a sound
    /// configuration whose groups are whole. Its numbers have the bits of their types.
    pub fn history(&self) -> &History
        ensures entries { result.now.entries ≡ self.now.history }
        ensures legal { IsLegalFrom self.now.config self.now.start self.now.history }
        ensures setup { IsSetup self.now.config }
        ensures whole { AreWhole self.now.config }
        ensures bits { All HasBits self.now.history }
    {
        self.segment.history.has_bits();
        &self.segment.history
    }

    /// The last cycle of the segment, if there was one: its number and its rows.
    pub fn last_cycle(&self) -> Option<CycleLook<'_>>
        ensures { option_map cycle_told result ≡ last_cycle_of self.now.history }
    {
        self.segment.history.last_cycle()
    }
}
