// What the line of a load counts in its history.

ghost use Rattle.std.specs.Prelude.{◌≡◌, ◌<◌, ◌≤◌, ◌^◌, IfSome, count_by, slice_get, unsigned_abs};
ghost use Rattle.std.specs.Option.{option_map};
ghost use Rattle.load_job.specs.Lines as spec;

use motion_history::{AxisRow, EntryLook, History};

/// How many calls with Execute true were refused.
pub fn refusals(history: &History) -> u64
    ensures { result ≡ count_by spec.is_refused history.now.entries }
{
    let mut count = 0;
    for place in 0..history.entries() {
        count += u64::from(is_refused(history, place));
    }
    count
}

// Whether the entry at a place is a refused call.
fn is_refused(history: &History, place: u64) -> bool
    ensures { IfSome (slice_get history.now.entries place) (λ e. result ≡ spec.is_refused e) }
{
    match history.look(place) {
        Some(EntryLook::Call { inputs, reply, .. }) => {
            inputs.execute && 1 <= reply.error_id && reply.error_id <= 19
        }
        _ => false,
    }
}

/// How many replies show Done.
pub fn dones(history: &History) -> u64
    ensures { result ≡ count_by spec.shows_done history.now.entries }
{
    let mut count = 0;
    for place in 0..history.entries() {
        count += u64::from(shows_done(history, place));
    }
    count
}

// Whether the entry at a place is a call whose reply shows Done.
fn shows_done(history: &History, place: u64) -> bool
    ensures { IfSome (slice_get history.now.entries place) (λ e. result ≡ spec.shows_done e) }
{
    match history.look(place) {
        Some(EntryLook::Call { reply, .. }) => reply.done,
        _ => false,
    }
}

/// The sum of the last setpoints.
pub fn last_sum(history: &History) -> i128
    ensures value { result ≡ spec.setpoint_sum (spec.last_rows history.now.entries) }
    ensures small { unsigned_abs result < 2 ^ 127 }
{
    let entries = history.entries();
    for behind in 0..entries {
        if let Some(rows) = rows_at(history, entries - 1 - behind) {
            return setpoint_sum(rows);
        }
    }
    0
}

// The rows of the axes in the entry at a place, if it is a cycle.
fn rows_at(history: &History, place: u64) -> Option<&[AxisRow]>
    ensures { IfSome (slice_get history.now.entries place)
        (λ e. option_map (λ rows. rows.now) result ≡ spec.rows_of e) }
{
    match history.look(place) {
        Some(EntryLook::Cycle { axes, .. }) => Some(axes),
        _ => None,
    }
}

// The sum of the setpoints in some rows.
fn setpoint_sum(rows: &[AxisRow]) -> i128
    ensures value { result ≡ spec.setpoint_sum rows.now }
    ensures small { unsigned_abs result < 2 ^ 127 }
{
    let mut sum = 0;
    for row in rows {
        sum += setpoint_of(row);
    }
    sum
}

// The setpoint of a row.
fn setpoint_of(row: &AxisRow) -> i128
    ensures value { result ≡ row.now.setpoint }
    ensures small { unsigned_abs result ≤ 2 ^ 63 }
{
    i128::from(row.setpoint)
}
