// The cycles: an answer of each drive, a turn, and an output to each drive.

ghost use Rattle.std.specs.Prelude.{◌≡◌, ◌<◌, ◌≤◌, ◌+◌, [], List, Some, false, length, slice_get, slice_set, vec_len};
ghost use Rattle.drive_jobs.specs.DriveLinkState.{DriveLinkState};
ghost use Rattle.kernel_turn.specs.PermitState.{PermitState};
ghost use Rattle.motion_history.specs.declared.sizes.TheConstants.{MOST_CYCLES};
ghost use Rattle.motion_plant.specs.Calls.{fixed_part};
ghost use Rattle.motion_plant.specs.Cycling.{Cycled, IsCycled, IsCycling, Stepped};
ghost use Rattle.motion_plant.specs.Lines.{IsInStep, with_answer, with_output};
ghost use Rattle.motion_plant.specs.Makers.{IsUpTo, Owns};
ghost use Rattle.motion_plant.specs.Places.{Each, zip_with};
ghost use Rattle.setpoint_ring.specs.declared.TheConstants.{MOST_OUTPUTS};

use crate::rooms::CycleRoom;
use crossbeam_utils::Backoff;
use drive_jobs::DriveLink;
use kernel_turn::{DriveIn, DriveOut, KernelTurn, Permit, Turn};
use std::sync::Wait;

/// What the turns of one cycle came to.
#[derive(Clone, Copy)]
pub enum Step {
    /// The cycle was made, and this many tasks live.
    Made { live: u8 },
    /// No cycle is left.
    Over,
    /// There is no room.
    Full,
}

/// How the cycles came to their end.
#[derive(Clone, Copy, PartialEq, Eq)]
pub enum Ending {
    /// No task lives.
    Done,
    /// No cycle is left.
    Over,
    /// There is no room.
    Full,
}

// Takes the next answer of each drive.
fn take_all<R: Wait>(rt: &R, lines: &mut Vec<DriveLink>, ins: &mut [DriveIn])
    requires width { length ins.old ≡ length lines.old.items }
    ensures taken { lines.new.items ≡ zip_with with_answer lines.old.items ins.new }
    ensures width { length ins.new ≡ length ins.old }
{
    for i in 0..lines.len() {
        ins[i] = take_at(rt, lines, i);
    }
}

// Takes the next answer of one drive.
#[tactic(auto, unfolding(crate::specs::Lines::with_answer))]
fn take_at<R: Wait>(rt: &R, lines: &mut Vec<DriveLink>, i: usize) -> DriveIn
    requires there { i < length lines.old.items }
    ensures taken { (x : DriveLinkState) → slice_get lines.old.items i ≡ Some x →
        lines.new.items ≡ slice_set lines.old.items i (with_answer x result) }
    ensures len { length lines.new.items ≡ length lines.old.items }
{
    lines[i].take(rt)
}

// Gives one drive the output of a cycle.
#[tactic(auto, unfolding(crate::specs::Lines::with_output))]
fn push_at<R: Wait>(rt: &R, lines: &mut Vec<DriveLink>, i: usize, number: u32, out: DriveOut)
    requires there { i < length lines.old.items }
    requires next { (x : DriveLinkState) → slice_get lines.old.items i ≡ Some x →
        (number ≡ length x.outs + 1) × (x.ended ≡ false) }
    requires few { number ≤ MOST_OUTPUTS }
    ensures pushed { (x : DriveLinkState) → slice_get lines.old.items i ≡ Some x →
        lines.new.items ≡ slice_set lines.old.items i (with_output x out) }
    ensures len { length lines.new.items ≡ length lines.old.items }
{
    lines[i].push(rt, number, out);
}

// Gives each drive its output of a cycle.
fn push_all<R: Wait>(rt: &R, lines: &mut Vec<DriveLink>, outs: &[DriveOut], number: u32)
    requires width { length outs.now ≡ length lines.old.items }
    requires next { Each (λ i (x : DriveLinkState). (number ≡ length x.outs + 1) ×
        (x.ended ≡ false)) lines.old.items }
    requires few { number ≤ MOST_OUTPUTS }
    ensures pushed { lines.new.items ≡ zip_with with_output lines.old.items outs.now }
{
    for i in 0..lines.len() {
        push_at(rt, lines, i, number, outs[i]);
    }
}

// Repeats a cycle's turn until it is made, or there is no cycle or no room.
fn cycle_until<R: Wait>(
    rt: &R,
    turn: &KernelTurn,
    permit: &mut Permit,
    ins: &[DriveIn],
    outs: &mut [DriveOut],
    most: u32,
) -> Step
    requires own { permit.old.table ≡ turn.now }
    requires owns { Owns (IsUpTo permit.old.config 0) permit.old.own permit.old.seen }
    requires width { (length ins.now ≡ length permit.old.config.axes) ×
        (length outs.old ≡ length permit.old.config.axes) }
    requires most { most ≡ permit.old.config.cycles }
    ensures fixed { fixed_part permit.new ≡ fixed_part permit.old }
    ensures owns { Owns (IsUpTo permit.old.config 0) permit.new.own permit.new.seen }
    ensures width { length outs.new ≡ length outs.old }
    ensures step { Stepped permit.old.config ins.now outs.new permit.old permit.new result }
{
    let backoff = Backoff::new();
    for _ in rt.forever() {
        match turn.turn_cycle(rt, permit, ins, outs) {
            Turn::Made { answer, .. } => return Step::Made { live: answer },
            Turn::Full { cycles, .. } => {
                if cycles == most {
                    return Step::Over;
                }
                return Step::Full;
            }
            Turn::Early { .. } => backoff.snooze(),
        }
    }
    unreachable!()
}

// One cycle: an answer of each drive, the turn, and an output to each drive.
fn one_cycle<R: Wait>(
    rt: &R,
    turn: &KernelTurn,
    permit: &mut Permit,
    lines: &mut Vec<DriveLink>,
    room: &mut CycleRoom,
) -> Step
    requires own { permit.old.table ≡ turn.now }
    requires cycling { (first : PermitState) × (ls : List DriveLinkState) ×
        IsCycling first ls room.old.made permit.old lines.old.items }
    requires width { (vec_len room.old.ins ≡ length permit.old.config.axes) ×
        (vec_len room.old.outs ≡ length permit.old.config.axes) }
    requires few { (permit.old.config.cycles ≤ MOST_CYCLES) ×
        (room.old.most ≡ permit.old.config.cycles) }
    ensures width { (vec_len room.new.ins ≡ vec_len room.old.ins) ×
        (vec_len room.new.outs ≡ vec_len room.old.outs) }
    ensures kept { (room.new.made ≡ room.old.made) × (room.new.most ≡ room.old.most) }
    ensures own { (permit.new.table ≡ permit.old.table) × (permit.new.config ≡ permit.old.config) }
    ensures cycled { (first : PermitState) → (ls : List DriveLinkState) →
        IsCycling first ls room.old.made permit.old lines.old.items →
        Cycled first ls room.old.made permit.new lines.new.items result }
{
    let ins = room.ins.as_mut_slice();
    let outs = room.outs.as_mut_slice();
    take_all(rt, lines, ins);
    match cycle_until(rt, turn, permit, ins, outs, room.most) {
        Step::Made { live } => {
            push_all(rt, lines, outs, room.made + 1);
            Step::Made { live }
        }
        Step::Over => Step::Over,
        Step::Full => Step::Full,
    }
}

/// Makes cycles until no task lives, or there is no cycle or no room. Waits for the drives' answers
/// and while a task is quiet, so that it may never return.
pub fn run_cycles<R: Wait>(
    rt: &R,
    turn: &KernelTurn,
    permit: &mut Permit,
    lines: &mut Vec<DriveLink>,
    room: &mut CycleRoom,
) -> Ending
    requires own { permit.old.table ≡ turn.now }
    requires fresh { (permit.old.own ≡ []) × Each (IsInStep []) lines.old.items ×
        (room.old.made ≡ 0) }
    requires width { (length lines.old.items ≡ length permit.old.config.axes) ×
        (vec_len room.old.ins ≡ length permit.old.config.axes) ×
        (vec_len room.old.outs ≡ length permit.old.config.axes) }
    requires few { (permit.old.config.cycles ≤ MOST_CYCLES) ×
        (room.old.most ≡ permit.old.config.cycles) }
    ensures cycled { IsCycled permit.old lines.old.items permit.new lines.new.items result }
{
    for _ in rt.forever() {
        match one_cycle(rt, turn, permit, lines, room) {
            Step::Made { live } => {
                room.made += 1;
                if live == 0 {
                    return Ending::Done;
                }
            }
            Step::Over => return Ending::Over,
            Step::Full => return Ending::Full,
        }
    }
    unreachable!()
}
