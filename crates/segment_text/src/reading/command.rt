// Commands, read from the fields of a header's records.

ghost use Rattle.std.specs.Prelude.{◌≡◌};
ghost use Rattle.std.specs.Option.{option_map};
ghost use Rattle.line_text.specs.Texts.{texts};
ghost use Rattle.segment_text.specs.reading.Commands as spec;

use crate::reading::column::{byte_of, owner_of, target_of};
use command_pool::{Follow, Rates, Wanted};
use line_text::says;
use plc_types::{kind_named, mode_named};
use trace_columns::{wide_number_of, word_of};

/// The six numbers with which fields begin, and the fields after them.
#[tactic(auto, unfolding(crate::specs::reading::Commands::six_of))]
pub fn six_of<'a, 'b>(fields: &'a [&'b [u8]]) -> Option<([i64; 6], &'a [&'b [u8]])>
    ensures { option_map (λ r. (r.0, texts r.1.now)) result ≡ spec.six_of (texts fields.now) }
{
    let [a, b, c, d, e, f, behind @ ..] = fields else {
        return None;
    };
    let numbers = numbers_of(a, b, c, d, e, f)?;
    Some((numbers, behind))
}

// The numbers that six fields are.
#[tactic(auto, unfolding(crate::specs::reading::Commands::numbers_of))]
fn numbers_of(a: &[u8], b: &[u8], c: &[u8], d: &[u8], e: &[u8], f: &[u8]) -> Option<[i64; 6]>
    ensures { result ≡ spec.numbers_of a.now b.now c.now d.now e.now f.now }
{
    let a = wide_number_of(a)?;
    let b = wide_number_of(b)?;
    let c = wide_number_of(c)?;
    let d = wide_number_of(d)?;
    let e = wide_number_of(e)?;
    let f = wide_number_of(f)?;
    Some([a, b, c, d, e, f])
}

// The rates with which fields begin, and the fields after them.
#[tactic(auto, unfolding(crate::specs::reading::Commands::rates_of))]
fn rates_of<'a, 'b>(fields: &'a [&'b [u8]]) -> Option<(Rates, &'a [&'b [u8]])>
    ensures { option_map (λ r. (r.0, texts r.1.now)) result ≡ spec.rates_of (texts fields.now) }
{
    let [velocity, acceleration, deceleration, behind @ ..] = fields else {
        return None;
    };
    let v = wide_number_of(velocity)?;
    let a = wide_number_of(acceleration)?;
    let d = wide_number_of(deceleration)?;
    Some((Rates { v, a, d }, behind))
}

// A gear by its master, its numerator and its denominator.
#[tactic(auto, unfolding(crate::specs::reading::Commands::gear_of))]
fn gear_of(master: &[u8], numerator: &[u8], denominator: &[u8]) -> Option<Follow>
    ensures { result ≡ spec.gear_of master.now numerator.now denominator.now }
{
    let master = byte_of(master)?;
    let n = wide_number_of(numerator)?;
    let d = wide_number_of(denominator)?;
    Some(Follow::Gear { master, n, d })
}

// A cam by its master and the number of its table.
#[tactic(auto, unfolding(crate::specs::reading::Commands::cam_of))]
fn cam_of(master: &[u8], table: &[u8]) -> Option<Follow>
    ensures { result ≡ spec.cam_of master.now table.now }
{
    let master = byte_of(master)?;
    let table = word_of(table)?;
    Some(Follow::Cam { master, table })
}

// Whom a command follows, if it follows one.
#[tactic(auto, unfolding(crate::specs::reading::Commands::follow_of))]
fn follow_of(fields: &[&[u8]]) -> Option<Follow>
    ensures { result ≡ spec.follow_of (texts fields.now) }
{
    match fields {
        [] => Some(Follow::None),
        [word, master, table] => {
            if says(word, b"cam") {
                cam_of(master, table)
            } else {
                None
            }
        }
        [word, master, numerator, denominator] => {
            if says(word, b"gear") {
                gear_of(master, numerator, denominator)
            } else {
                None
            }
        }
        _ => None,
    }
}

/// The command that fields are.
#[tactic(auto, unfolding(crate::specs::reading::Commands::wanted_of))]
pub fn wanted_of(fields: &[&[u8]]) -> Option<Wanted>
    ensures { result ≡ spec.wanted_of (texts fields.now) }
{
    let [kind, owner, target, mode, behind @ ..] = fields else {
        return None;
    };
    let kind = kind_named(kind)?;
    let owner = owner_of(owner)?;
    let target = target_of(target)?;
    let mode = mode_named(mode)?;
    let (targets, behind) = six_of(behind)?;
    let (rates, behind) = rates_of(behind)?;
    let follow = follow_of(behind)?;
    Some(Wanted {
        kind,
        owner,
        target,
        targets,
        rates,
        mode,
        follow,
    })
}

/// The active command that fields are, if there are any.
#[tactic(auto, unfolding(crate::specs::reading::Commands::active_of))]
pub fn active_of(fields: &[&[u8]]) -> Option<Option<Wanted>>
    ensures { result ≡ spec.active_of (texts fields.now) }
{
    if fields.is_empty() {
        return Some(None);
    }
    let wanted = wanted_of(fields)?;
    Some(Some(wanted))
}
