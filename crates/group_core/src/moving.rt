// How a group moves along its path, whatever path that is.

ghost use Rattle.std.specs.Int.{int_min};
ghost use Rattle.std.specs.Prelude.{◌≡◌, ◌<◌, ◌≤◌, ◌*◌, ◌+ℤ◌, ◌-ℤ◌, ◌≤ℤ◌, pos, IfSome, length, unsigned_abs};
ghost use Rattle.command_pool.specs.Rates.{AreRates};
ghost use Rattle.group_core.specs.Cycles as cycles;
ghost use Rattle.group_core.specs.GroupKept.{AreNumbers, IsDeceleration};
ghost use Rattle.group_core.specs.Kinds as kinds;
ghost use Rattle.group_core.specs.Tracks as spec;
ghost use Rattle.group_core.specs.Tracks.{IsMotionKept, places_of};
ghost use Rattle.plc_types.specs.Limits.{AreLimits};
ghost use Rattle.kin_core.specs.Admissible.{IsKept};
ghost use Rattle.kin_core.specs.Taken.{taken_step_of};
ghost use Rattle.motion_numbers.specs.Ranges.{IsStep, IsWay};

use crate::blocks::halts::halt_ending;
use crate::blocks::line::line_ending;
use crate::group::{Group, Motion, Track};
use crate::states::is_error_stop;
use command_pool::{Finish, Rates, Wanted};
use kin_core::nearest_safe;
use linear_path::Path;
use motion_numbers::{MOST_STEP, MOST_WAY};
use plc_types::{BlockKind, Limits};
use trapezoid_plan::{halt_step, move_step};

// The step of the last cycle.
fn old_step(motion: &Motion) -> i64
    requires { IsMotionKept motion.now }
    ensures value { result ≡ motion.now.place -ℤ motion.now.previous }
    ensures small { IsStep result }
{
    motion.place - motion.previous
}

// The way that is left to the end of the path.
fn way_left(motion: &Motion) -> i64
    requires { IsMotionKept motion.now }
    ensures value { result ≡ motion.now.limits.hi -ℤ motion.now.place }
    ensures small { IsWay result }
{
    motion.limits.hi - motion.place
}

// The step that is taken where this one is wanted.
fn taken(motion: &Motion, step: i64) -> i64
    requires motion { IsMotionKept motion.now }
    requires step { unsigned_abs step ≤ 2 * MOST_WAY }
    ensures value { result
        ≡ taken_step_of motion.now.limits motion.now.previous motion.now.place step }
    ensures kept { IsKept motion.now.limits motion.now.place (motion.now.place +ℤ result) }
    ensures small { IsStep result }
{
    nearest_safe(&motion.limits, motion.previous, motion.place, step)
}

// A rate, cut to the greatest one.
fn lesser(rate: i64, most: i64) -> i64
    requires least { pos 1 ≤ℤ rate }
    requires some { pos 1 ≤ℤ most }
    requires in_range { most ≤ℤ pos MOST_STEP }
    ensures value { result ≡ int_min rate most }
    ensures least { pos 1 ≤ℤ result }
    ensures most { result ≤ℤ pos MOST_STEP }
{
    rate.min(most)
}

// The rates of a command, cut to the limits of the path.
fn cut(limits: &Limits, rates: &Rates) -> Rates
    requires limits { AreLimits limits.now }
    requires rates { AreRates rates.now }
    ensures value { result ≡ spec.cut limits.now rates.now }
    ensures rates { AreRates result }
{
    Rates {
        v: lesser(rates.v, limits.vmax),
        a: lesser(rates.a, limits.amax),
        d: lesser(rates.d, limits.dmax),
    }
}

// The taken step of a line, by the rates of its command.
#[tactic(auto, unfolding(trapezoid_plan::specs::MoveRun::move_taken_of))]
fn line_step(rates: &Rates, motion: &Motion) -> i64
    requires motion { IsMotionKept motion.now }
    requires rates { AreRates rates.now }
    ensures value { result ≡ spec.line_step_of rates.now motion.now }
    ensures kept { IsKept motion.now.limits motion.now.place (motion.now.place +ℤ result) }
    ensures small { IsStep result }
{
    let rates = cut(&motion.limits, rates);
    taken(
        motion,
        move_step(way_left(motion), old_step(motion), &rates),
    )
}

// The taken step of a path that brakes by `d`.
#[tactic(auto, unfolding(trapezoid_plan::specs::MoveRun::halt_taken_of))]
fn braking_step(d: i64, motion: &Motion) -> i64
    requires motion { IsMotionKept motion.now }
    requires d { IsDeceleration d }
    ensures value { result ≡ spec.braking_step_of d motion.now }
    ensures kept { IsKept motion.now.limits motion.now.place (motion.now.place +ℤ result) }
    ensures small { IsStep result }
{
    let d = lesser(d, motion.limits.dmax);
    taken(motion, halt_step(old_step(motion), d))
}

// The taken step of an active command.
fn step_by(wanted: &Wanted, motion: &Motion) -> i64
    requires motion { IsMotionKept motion.now }
    requires numbers { AreNumbers wanted.now.kind wanted.now }
    ensures value { result ≡ kinds.step_by wanted.now.kind wanted.now motion.now }
    ensures kept { IsKept motion.now.limits motion.now.place (motion.now.place +ℤ result) }
    ensures small { IsStep result }
{
    match wanted.kind {
        BlockKind::MoveLinearAbsolute => line_step(&wanted.rates, motion),
        _ => braking_step(wanted.rates.d, motion),
    }
}

// How an active command ends by a taken step, if it does.
fn ending_by(kind: BlockKind, motion: &Motion, step: i64) -> Option<Finish>
    ensures { result ≡ kinds.ending_by kind motion.now step }
{
    match kind {
        BlockKind::MoveLinearAbsolute => line_ending(motion, step),
        _ => halt_ending(step),
    }
}

// The path after a step.
fn move_by(step: i64, motion: &mut Motion)
    requires motion { IsMotionKept motion.old }
    requires step { IsStep step }
    requires kept { IsKept motion.old.limits motion.old.place (motion.old.place +ℤ step) }
    ensures after { motion.new ≡ record motion.old {
      previous = motion.old.place;
      place = motion.old.place +ℤ step;
    } }
    ensures kept { IsMotionKept motion.new }
{
    let place = motion.place + step;
    motion.previous = motion.place;
    motion.place = place;
}

// The step of a cycle along the path, and how the active command ends by it, if it does.
#[tactic(auto, unfolding(crate::specs::Cycles::advanced))]
fn advance(group: &Group, motion: &mut Motion) -> Option<Finish>
    requires motion { IsMotionKept motion.old }
    requires active { IfSome group.now.active (λ w. AreNumbers w.kind w) }
    ensures motion { motion.new ≡ (cycles.advanced group.now motion.old).motion }
    ensures limits { motion.new.limits ≡ motion.old.limits }
    ensures kept { IsMotionKept motion.new }
    ensures ending { result ≡ (cycles.advanced group.now motion.old).ending }
{
    if is_error_stop(group.state) {
        let step = braking_step(motion.limits.dmax, motion);
        move_by(step, motion);
        return None;
    }
    let Some(wanted) = &group.active else {
        let step = taken(motion, 0);
        move_by(step, motion);
        return None;
    };
    let step = step_by(wanted, motion);
    let ending = ending_by(wanted.kind, motion, step);
    move_by(step, motion);
    ending
}

// Each axis of a path at its place on it, in the setpoints given.
#[tactic(auto, unfolding(crate::specs::Tracks::places_of))]
fn stand_on<P: Path>(path: &P, place: i64, setpoints: &mut [i64; 6])
    requires axes { P.count_of path.now ≤ 6 }
    requires from_the_start { pos 0 ≤ℤ place }
    requires to_the_target { place ≤ℤ P.length_of path.now }
    ensures { setpoints.new
        ≡ places_of (P.count_of path.now) (P.place_of path.now) place setpoints.old }
{
    for axis in 0..path.axes() {
        setpoints[axis as usize] = path.place(axis, place);
    }
}

/// A cycle along any path: it takes its step, and each of its axes its place in the setpoints
/// given. It is answered how the active command ends by that, if it does.
pub fn step_along<P: Path>(
    group: &Group,
    track: &mut Track<P>,
    setpoints: &mut [i64; 6],
) -> Option<Finish>
    requires axes { P.count_of track.old.path ≤ 6 }
    requires length { track.old.motion.limits.hi ≡ P.length_of track.old.path }
    requires motion { IsMotionKept track.old.motion }
    requires active { IfSome group.now.active (λ w. AreNumbers w.kind w) }
    ensures motion { track.new
        ≡ record track.old { motion = (cycles.advanced group.now track.old.motion).motion } }
    ensures limits { track.new.motion.limits ≡ track.old.motion.limits }
    ensures kept { IsMotionKept track.new.motion }
    ensures ending { result ≡ (cycles.advanced group.now track.old.motion).ending }
    ensures places { setpoints.new
        ≡ places_of (P.count_of track.old.path) (P.place_of track.old.path)
        (cycles.advanced group.now track.old.motion).motion.place setpoints.old }
{
    let ending = advance(group, &mut track.motion);
    stand_on(&track.path, track.motion.place, setpoints);
    ending
}
