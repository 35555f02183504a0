// Axes, groups and instances, written in the records of a header.

ghost use Rattle.std.specs.Prelude.{◌≡◌, ◌++◌, OnOk, Some};
ghost use Rattle.segment_text.specs.Texts.{fields_text, line_of};
ghost use Rattle.group_core.specs.Seen.{on_path};
ghost use Rattle.motion_kernel.specs.Seen.{placed};
ghost use Rattle.segment_text.specs.Fields.{progress_fields};
ghost use Rattle.segment_text.specs.Records as spec;
ghost use Rattle.segment_text.specs.WantedFields as commands;

use crate::writing::command::{push_active, push_wanted};
use crate::writing::field::{owner_text, push_fields, push_numbers, reset_text};
use axis_core::Axis;
use buffer_modes::PendingReset;
use command_pool::{Finish, Wanted};
use fb_outputs::{Instance, Progress};
use group_core::{Group, GroupOnPath, Limits, LinePath, Motion, Track};
use itoa::Buffer;
use std::alloc::AllocError;
use trace_columns::{axis_state_text, flag_text, group_state_text, hex_text};

// Puts the fields of an axis from its number to its controlword.
fn push_state(out: &mut Vec<u8>, number: u8, axis: &Axis) -> Result<(), AllocError>
    ensures { OnOk result (out.new.items ≡
        out.old.items ++ fields_text (spec.state_fields number axis.now)) }
{
    let mut first = Buffer::new();
    let mut second = Buffer::new();
    let fields = [
        first.format(number).as_bytes(),
        axis_state_text(axis.state).as_bytes(),
        second.format(axis.error).as_bytes(),
        flag_text(axis.reached).as_bytes(),
        flag_text(axis.power).as_bytes(),
        flag_text(axis.was_off).as_bytes(),
        flag_text(axis.driven).as_bytes(),
        &hex_text(axis.controlword),
    ];
    push_fields(out, &fields)
}

// Puts the pending reset and the hold of an axis or a group.
fn push_held(
    out: &mut Vec<u8>,
    reset: Option<PendingReset>,
    hold: Option<u16>,
) -> Result<(), AllocError>
    ensures { OnOk result
        (out.new.items ≡ out.old.items ++ fields_text (spec.held_fields reset hold)) }
{
    let mut first = Buffer::new();
    let mut second = Buffer::new();
    let fields = [reset_text(&mut first, reset), owner_text(&mut second, hold)];
    push_fields(out, &fields)
}

// Puts the setpoints of an axis and its offset.
fn push_places(out: &mut Vec<u8>, axis: &Axis) -> Result<(), AllocError>
    ensures { OnOk result (out.new.items ≡
        out.old.items ++ fields_text (spec.place_fields axis.now)) }
{
    push_numbers(out, &[axis.previous, axis.setpoint, axis.offset])
}

/// Puts the line of an axis.
#[tactic(auto, unfolding(crate::specs::Texts::line_of))]
pub fn push_axis(out: &mut Vec<u8>, number: u8, axis: &Axis) -> Result<(), AllocError>
    ensures { OnOk result (out.new.items ≡
        out.old.items ++ line_of (spec.axis_fields number axis.now)) }
{
    out.extend_from_slice(b"axis")?;
    push_state(out, number, axis)?;
    push_places(out, axis)?;
    push_held(out, axis.reset, axis.hold)?;
    push_active(out, axis.active)?;
    out.push(b'\n')?;
    Ok(())
}

// Puts limits.
fn push_limits(out: &mut Vec<u8>, limits: &Limits) -> Result<(), AllocError>
    ensures { OnOk result (out.new.items ≡
        out.old.items ++ fields_text (spec.limits_fields limits.now)) }
{
    let numbers = [limits.lo, limits.hi, limits.vmax, limits.amax, limits.dmax];
    push_numbers(out, &numbers)
}

// Puts the places of a path, before the current one and now.
fn push_motion_path(out: &mut Vec<u8>, motion: &Motion) -> Result<(), AllocError>
    ensures { OnOk result (out.new.items ≡
        out.old.items ++ fields_text (spec.way_fields motion.now)) }
{
    push_numbers(out, &[motion.previous, motion.place])
}

// Puts how a group moves along its path.
fn push_motion(out: &mut Vec<u8>, motion: &Motion) -> Result<(), AllocError>
    ensures { OnOk result (out.new.items ≡
        out.old.items ++ fields_text (spec.motion_fields motion.now)) }
{
    push_limits(out, &motion.limits)?;
    push_motion_path(out, motion)
}

// Puts the path of a group, if it is on one.
#[tactic(auto, unfolding(crate::specs::Records::path_fields), using(crate::proofs::TextLaws::none_put))]
fn push_path(out: &mut Vec<u8>, track: Option<Track<LinePath>>) -> Result<(), AllocError>
    ensures { OnOk result (out.new.items ≡
        out.old.items ++ fields_text (spec.path_fields (on_path track))) }
{
    match track {
        Some(track) => push_track(out, &track),
        None => Ok(()),
    }
}

// Puts the word of a path, and how many axes go along it.
fn push_count(out: &mut Vec<u8>, count: u8) -> Result<(), AllocError>
    ensures { OnOk result (out.new.items ≡
        out.old.items ++ fields_text (spec.count_fields count)) }
{
    let mut digits = Buffer::new();
    push_fields(out, &[b"path", digits.format(count).as_bytes()])
}

// Puts a path.
#[tactic(auto, unfolding(crate::specs::Records::path_fields))]
fn push_track(out: &mut Vec<u8>, track: &Track<LinePath>) -> Result<(), AllocError>
    ensures { OnOk result (out.new.items ≡
        out.old.items ++ fields_text (spec.path_fields (on_path (Some track.now)))) }
{
    push_count(out, track.path.count)?;
    push_numbers(out, &track.path.starts)?;
    push_numbers(out, &track.path.targets)?;
    push_motion(out, &track.motion)
}

// Puts the number of a group, its state and its error.
fn push_group_state(out: &mut Vec<u8>, number: u8, group: &Group) -> Result<(), AllocError>
    ensures { OnOk result (out.new.items ≡
        out.old.items ++ fields_text (spec.group_state_fields number group.now)) }
{
    let mut first = Buffer::new();
    let mut second = Buffer::new();
    let fields = [
        first.format(number).as_bytes(),
        group_state_text(group.state).as_bytes(),
        second.format(group.error).as_bytes(),
    ];
    push_fields(out, &fields)
}

/// Puts the line of a group.
pub fn push_group(
    out: &mut Vec<u8>,
    number: u8,
    group: &GroupOnPath<LinePath>,
) -> Result<(), AllocError>
    ensures { OnOk result (out.new.items ≡
        out.old.items ++ line_of (spec.group_fields number (placed group.now))) }
{
    out.extend_from_slice(b"group")?;
    push_group_state(out, number, &group.group)?;
    push_held(out, group.group.reset, group.group.hold)?;
    push_path(out, group.track)?;
    push_active(out, group.group.active)?;
    out.push(b'\n')?;
    Ok(())
}

/// Puts the line of a command that waits.
#[tactic(auto, unfolding(crate::specs::Texts::line_of))]
pub fn push_waiting(out: &mut Vec<u8>, wanted: &Wanted) -> Result<(), AllocError>
    ensures { OnOk result (out.new.items ≡
        out.old.items ++ line_of (commands.waiting_fields wanted.now)) }
{
    out.extend_from_slice(b"waiting")?;
    push_wanted(out, wanted)?;
    out.push(b'\n')?;
    Ok(())
}

// Puts how far the command of an instance is.
#[tactic(auto, unfolding(crate::specs::Fields::progress_fields))]
fn push_progress(out: &mut Vec<u8>, progress: Progress) -> Result<(), AllocError>
    ensures { OnOk result (out.new.items ≡
        out.old.items ++ fields_text (progress_fields progress)) }
{
    match progress {
        Progress::Idle => push_fields(out, &[b"idle"]),
        Progress::Waiting => push_fields(out, &[b"waiting"]),
        Progress::Active => push_fields(out, &[b"active"]),
        Progress::Ended { finish, shown } => push_end(out, finish, shown),
    }
}

// Puts how a command ended, and whether that was shown.
#[tactic(auto, unfolding(crate::specs::Fields::progress_fields))]
fn push_end(out: &mut Vec<u8>, finish: Finish, shown: bool) -> Result<(), AllocError>
    ensures { OnOk result (out.new.items ≡
        out.old.items ++ fields_text (progress_fields (Progress.Ended finish shown))) }
{
    let mut digits = Buffer::new();
    let shown = flag_text(shown).as_bytes();
    match finish {
        Finish::Done => push_fields(out, &[b"done", shown]),
        Finish::Aborted => push_fields(out, &[b"aborted", shown]),
        Finish::Error(number) => {
            let number = digits.format(number).as_bytes();
            push_fields(out, &[b"error", number, shown])
        }
    }
}

// Puts the number of a block, and what its instance took last.
fn push_taken(out: &mut Vec<u8>, number: u16, instance: &Instance) -> Result<(), AllocError>
    ensures { OnOk result (out.new.items ≡
        out.old.items ++ fields_text (spec.taken_fields number instance.now)) }
{
    let mut digits = Buffer::new();
    let fields = [
        digits.format(number).as_bytes(),
        flag_text(instance.execute()).as_bytes(),
        flag_text(instance.reached()).as_bytes(),
    ];
    push_fields(out, &fields)
}

/// Puts the line of the instance of a block.
pub fn push_instance(out: &mut Vec<u8>, number: u16, instance: &Instance) -> Result<(), AllocError>
    ensures { OnOk result (out.new.items ≡
        out.old.items ++ line_of (spec.instance_fields number instance.now)) }
{
    out.extend_from_slice(b"instance")?;
    push_taken(out, number, instance)?;
    push_progress(out, instance.progress())?;
    out.push(b'\n')?;
    Ok(())
}
