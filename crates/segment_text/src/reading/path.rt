// Paths of groups, read from the fields of a header's records.

ghost use Rattle.std.specs.Prelude.{◌≡◌, ◌↔◌, IfSome, IsTrue};
ghost use Rattle.std.specs.Option.{option_map};
ghost use Rattle.group_core.specs.Seen.{on_path};
ghost use Rattle.group_core.specs.Seen as seen;
ghost use Rattle.line_text.specs.Texts.{texts};
ghost use Rattle.linear_path.specs.Line.{AreInRange};
ghost use Rattle.segment_text.specs.reading.Groups as spec;

use crate::reading::column::byte_of;
use crate::reading::command::six_of;
use group_core::{Limits, LinePath, Motion, Track};
use line_text::says;
use motion_numbers::MOST_PLACE;
use trace_columns::wide_number_of;

// The limits with which fields begin, and the fields after them.
#[tactic(auto, unfolding(crate::specs::reading::Groups::limits_of))]
fn limits_of<'a, 'b>(fields: &'a [&'b [u8]]) -> Option<(Limits, &'a [&'b [u8]])>
    ensures { option_map (λ r. (r.0, texts r.1.now)) result ≡ spec.limits_of (texts fields.now) }
{
    let [lo, hi, vmax, amax, dmax, behind @ ..] = fields else {
        return None;
    };
    let lo = wide_number_of(lo)?;
    let hi = wide_number_of(hi)?;
    let vmax = wide_number_of(vmax)?;
    let amax = wide_number_of(amax)?;
    let dmax = wide_number_of(dmax)?;
    let limits = Limits {
        lo,
        hi,
        vmax,
        amax,
        dmax,
    };
    Some((limits, behind))
}

// The place before the current one and that, of a path with these limits.
#[tactic(auto, unfolding(crate::specs::reading::Groups::motion_by))]
fn motion_by<'a, 'b>(limits: Limits, fields: &'a [&'b [u8]]) -> Option<(Motion, &'a [&'b [u8]])>
    ensures { option_map (λ r. (r.0, texts r.1.now)) result ≡
        spec.motion_by limits (texts fields.now) }
{
    let [previous, place, behind @ ..] = fields else {
        return None;
    };
    let previous = wide_number_of(previous)?;
    let place = wide_number_of(place)?;
    let motion = Motion {
        limits,
        previous,
        place,
    };
    Some((motion, behind))
}

// How a group moves along its path.
#[tactic(auto, unfolding(crate::specs::reading::Groups::motion_of))]
fn motion_of<'a, 'b>(fields: &'a [&'b [u8]]) -> Option<(Motion, &'a [&'b [u8]])>
    ensures { option_map (λ r. (r.0, texts r.1.now)) result ≡ spec.motion_of (texts fields.now) }
{
    let (limits, behind) = limits_of(fields)?;
    motion_by(limits, behind)
}

// Whether all numbers are within 10^15.
#[tactic(auto, unfolding(crate::specs::reading::Groups::are_places))]
fn are_places(numbers: &[i64; 6]) -> bool
    ensures value { result ≡ spec.are_places numbers.now }
    ensures range { IsTrue result → AreInRange numbers.now }
{
    numbers.iter().all(|z| z.unsigned_abs() <= MOST_PLACE)
}

// A way of this many axes.
#[tactic(auto, unfolding(crate::specs::reading::Groups::way_by))]
fn way_by(count: u8, starts: [i64; 6], targets: [i64; 6]) -> Option<LinePath>
    ensures { option_map seen.way_of result ≡ spec.way_by count starts targets }
{
    if 2 <= count && count <= 6 && are_places(&starts) && are_places(&targets) {
        Some(LinePath {
            count,
            starts,
            targets,
        })
    } else {
        None
    }
}

// The way with which fields begin.
#[tactic(auto, unfolding(crate::specs::reading::Groups::way_of))]
fn way_of<'a, 'b>(fields: &'a [&'b [u8]]) -> Option<(LinePath, &'a [&'b [u8]])>
    ensures { option_map (λ r. (seen.way_of r.0, texts r.1.now)) result ≡
        spec.way_of (texts fields.now) }
{
    let [count, fields @ ..] = fields else {
        return None;
    };
    let count = byte_of(count)?;
    let (starts, fields) = six_of(fields)?;
    let (targets, behind) = six_of(fields)?;
    let way = way_by(count, starts, targets)?;
    Some((way, behind))
}

// The path with which fields begin, and how a group moves along it.
#[tactic(auto, unfolding(crate::specs::reading::Groups::on_path_of))]
fn track_of<'a, 'b>(fields: &'a [&'b [u8]]) -> Option<(Option<Track<LinePath>>, &'a [&'b [u8]])>
    ensures { option_map (λ r. (on_path r.0, texts r.1.now)) result ≡
        spec.on_path_of (texts fields.now) }
{
    let (path, fields) = way_of(fields)?;
    let (motion, behind) = motion_of(fields)?;
    Some((Some(Track { path, motion }), behind))
}

/// The path of a group, if fields begin with one, and the fields after it.
#[tactic(auto, unfolding(crate::specs::reading::Groups::path_of))]
pub fn path_of<'a, 'b>(fields: &'a [&'b [u8]]) -> Option<(Option<Track<LinePath>>, &'a [&'b [u8]])>
    ensures { option_map (λ r. (on_path r.0, texts r.1.now)) result ≡
        spec.path_of (texts fields.now) }
{
    let [first, behind @ ..] = fields else {
        return Some((None, fields));
    };
    if says(first, b"path") {
        track_of(behind)
    } else {
        Some((None, fields))
    }
}
