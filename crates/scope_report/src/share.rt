// What is reported of a share of the entries of a trace.

ghost use Rattle.std.specs.Prelude.{◌≡◌, ◌+◌, ◌<◌, ◌≤◌, ◌^◌, [], ◌++◌, ℕ, List, IfOk, length, slice_index_or, replicate};
ghost use Rattle.motion_history.specs.Entries.{Entry};
ghost use Rattle.motion_history.specs.Looks.{told};
ghost use Rattle.scope_report.specs.Counting.{HasOneMore, counts_of};
ghost use Rattle.scope_report.specs.Cuts.{between_cuts};
ghost use Rattle.scope_report.specs.Joining.{CanMerge, CanSum, Merges, Sums};
ghost use Rattle.scope_report.specs.Merging.{part_of};
ghost use Rattle.scope_report.specs.Parts.{PartState};
ghost use Rattle.scope_report.specs.Shares.{Adds, AddsReply, AddsRows, HasRoom, IsShare};
ghost use Rattle.scope_report.specs.Rows.{row_at};
ghost use Rattle.trace_text.specs.TraceState.{entries_of};

use crate::counts::{Counts, counted, no_calls};
use crate::joining::{join_counts, join_parts};
use crate::part::Part;
use motion_history::EntryLook;
use motion_numbers::OutOfMemory;
use plc_types::{AxisRow, Outputs};
use std::alloc::Global;
use std::marker::Model;
use trace_text::Trace;

/// What is reported of each axis and of each block in a share of a trace.
#[derive(Drop)]
pub struct Share {
    axes: Vec<Part>,
    blocks: Vec<Counts>,
}

impl Model for Share {
    ghost use Rattle.scope_report.specs.Shares.{ShareState};

    ghost Value = { ShareState };

    ghost view = { λ p. record { axes = p.axes.items; blocks = p.blocks.items } };
}

impl Share {
    /// What is reported of no entry, for this many axes and blocks.
    pub fn new(alloc: Global, axes: usize, blocks: usize) -> Result<Share, OutOfMemory>
        ensures { IfOk result (IsShare axes blocks []) }
    {
        Ok(Share {
            axes: no_rows(alloc, axes)?,
            blocks: no_replies(alloc, blocks)?,
        })
    }

    // Goes on by an entry.
    fn add(&mut self, entry: &EntryLook<'_>)
        requires room { HasRoom self.old }
        ensures { Adds (told entry.now) self.old self.new }
    {
        match entry {
            EntryLook::Call {
                instance,
                reply,
                ..
            } => add_reply(self.blocks.as_mut_slice(), *instance, reply),
            EntryLook::Cycle { axes, .. } => add_rows(self.axes.as_mut_slice(), axes),
            EntryLook::End { .. } => {}
        }
    }

    /// Puts what is reported of the entries after these to what is reported of these.
    pub fn join(&mut self, other: &Share)
        requires axes { length other.now.axes ≡ length self.old.axes }
        requires blocks { length other.now.blocks ≡ length self.old.blocks }
        requires merge { CanMerge self.old.axes other.now.axes }
        requires sum { CanSum self.old.blocks other.now.blocks }
        ensures axes { Merges self.old.axes other.now.axes self.new.axes }
        ensures blocks { Sums self.old.blocks other.now.blocks self.new.blocks }
    {
        join_parts(self.axes.as_mut_slice(), other.axes.as_slice());
        join_counts(self.blocks.as_mut_slice(), other.blocks.as_slice());
    }

    /// What is reported of each axis.
    pub fn parts(&self) -> &[Part]
        ensures { result.now ≡ self.now.axes }
    {
        self.axes.as_slice()
    }

    /// What is reported of each block.
    pub fn counts(&self) -> &[Counts]
        ensures { result.now ≡ self.now.blocks }
    {
        self.blocks.as_slice()
    }
}

// As many parts of no row.
fn no_rows(alloc: Global, count: usize) -> Result<Vec<Part>, OutOfMemory>
    ensures { IfOk result (λ v. v.items ≡ replicate count (part_of [])) }
{
    let mut parts = Vec::new(alloc);
    for made in 0..count {
        let Ok(()) = parts.push(Part::new()) else {
            return Err(OutOfMemory);
        };
    }
    Ok(parts)
}

// As many counts of no call.
fn no_replies(alloc: Global, count: usize) -> Result<Vec<Counts>, OutOfMemory>
    ensures { IfOk result (λ v. v.items ≡ replicate count (counts_of [])) }
{
    let mut counts = Vec::new(alloc);
    for made in 0..count {
        let Ok(()) = counts.push(no_calls()) else {
            return Err(OutOfMemory);
        };
    }
    Ok(counts)
}

// The part that the row of an axis in a cycle is, if there is one.
fn part_at(cycle: &[AxisRow], axis: usize) -> Part
    ensures { result ≡ part_of (row_at axis cycle.now) }
{
    match cycle.get(axis) {
        Some(row) => Part::of(row),
        None => Part::new(),
    }
}

// Adds the row of each axis.
fn add_rows(parts: &mut [Part], cycle: &[AxisRow])
    requires few { (a : ℕ) (d : PartState) → a < length parts.old →
        (slice_index_or parts.old a d).rows + 1 < 2 ^ 64 }
    ensures { AddsRows cycle.now parts.old parts.new }
{
    for axis in 0..parts.len() {
        parts[axis] = parts[axis].with(&part_at(cycle, axis));
    }
}

// Counts the reply of a call.
fn add_reply(blocks: &mut [Counts], instance: u16, reply: &Outputs)
    requires few { (b : ℕ) (d : Counts) → b < length blocks.old →
        HasOneMore (slice_index_or blocks.old b d) }
    ensures { AddsReply instance reply.now blocks.old blocks.new }
{
    let place = instance as usize;
    if place < blocks.len() {
        blocks[place] = counted(blocks[place], reply);
    }
}

/// What is reported of the entries from one place to another, by what is reported of none.
pub fn told_between(mut so_far: Share, trace: &Trace, from: u64, to: u64) -> Share
    requires order { from ≤ to }
    requires within { to ≤ length (entries_of trace.now) }
    requires nothing { IsShare (length so_far.axes) (length so_far.blocks) [] so_far }
    ensures { IsShare (length so_far.axes) (length so_far.blocks)
        (between_cuts from to (entries_of trace.now)) result }
{
    for place in from..to {
        match trace.look(place) {
            Some(entry) => so_far.add(&entry),
            None => unreachable!(),
        }
    }
    so_far
}
