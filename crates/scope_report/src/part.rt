// What is reported of a part of an axis's rows.

ghost use Rattle.std.specs.Prelude.{◌≡◌, ◌+◌, ◌<◌, ◌≤◌, ◌^◌, [], ◌∷◌, None};
ghost use Rattle.std.specs.Int.{int_min, int_max};
ghost use Rattle.scope_report.specs.Merging as spec;
ghost use Rattle.scope_report.specs.Setpoints.{picked, still_of, travel_of};

use plc_types::AxisRow;
use std::marker::Model;

/// What is reported of some rows of an axis, and what joins it to those after them.
#[derive(Drop)]
pub struct Part {
    pub(crate) rows: u64,
    pub(crate) driven: u64,
    pub(crate) least: Option<i64>,
    pub(crate) greatest: Option<i64>,
    pub(crate) still: u64,
    pub(crate) travel: u128,
    pub(crate) first: Option<i64>,
    pub(crate) last: Option<i64>,
}

impl Model for Part {
    ghost use Rattle.scope_report.specs.Parts.{PartState};

    ghost Value = { PartState };

    ghost use Rattle.scope_report.specs.Inside.{part_view, IsPart};

    ghost view = { part_view };

    ghost invariant = { IsPart };
}

impl Part {
    /// Of no row.
    pub fn new() -> Part
        ensures { result ≡ spec.part_of [] }
    {
        Part {
            rows: 0,
            driven: 0,
            least: None,
            greatest: None,
            still: 0,
            travel: 0,
            first: None,
            last: None,
        }
    }

    /// Of one row.
    pub fn of(row: &AxisRow) -> Part
        ensures { result ≡ spec.part_of (row.now ∷ []) }
    {
        let setpoint = Some(row.setpoint);
        Part {
            rows: 1,
            driven: if row.driven { 1 } else { 0 },
            least: if row.driven { setpoint } else { None },
            greatest: if row.driven { setpoint } else { None },
            still: 0,
            travel: 0,
            first: setpoint,
            last: setpoint,
        }
    }

    /// Of these rows, and those of another part after them.
    pub fn with(&self, other: &Part) -> Part
        requires { self.now.rows + other.now.rows < 2 ^ 64 }
        ensures { result ≡ spec.merged self.now other.now }
    {
        Part {
            rows: self.rows + other.rows,
            driven: self.driven + other.driven,
            least: lesser(self.least, other.least),
            greatest: greater(self.greatest, other.greatest),
            still: self.still + still_between(self.last, other.first) + other.still,
            travel: self.travel + way_between(self.last, other.first) + other.travel,
            first: first_there(self.first, other.first),
            last: first_there(other.last, self.last),
        }
    }
}

// The lesser of both, where they are there.
fn lesser(a: Option<i64>, b: Option<i64>) -> Option<i64>
    ensures { result ≡ picked int_min a b }
{
    match (a, b) {
        (Some(a), Some(b)) => Some(a.min(b)),
        (Some(a), None) => Some(a),
        (None, b) => b,
    }
}

// The greater of both, where they are there.
fn greater(a: Option<i64>, b: Option<i64>) -> Option<i64>
    ensures { result ≡ picked int_max a b }
{
    match (a, b) {
        (Some(a), Some(b)) => Some(a.max(b)),
        (Some(a), None) => Some(a),
        (None, b) => b,
    }
}

// The first that is there.
fn first_there(a: Option<i64>, b: Option<i64>) -> Option<i64>
    ensures { result ≡ spec.first_there a b }
{
    match a {
        Some(a) => Some(a),
        None => b,
    }
}

// 1 where both are there and equal.
fn still_between(a: Option<i64>, b: Option<i64>) -> u64
    ensures value { result ≡ still_of (spec.between a b) }
    ensures bound { result ≤ 1 }
    ensures first { a ≡ None → result ≡ 0 }
    ensures second { b ≡ None → result ≡ 0 }
{
    match (a, b) {
        (Some(a), Some(b)) if a == b => 1,
        _ => 0,
    }
}

// The way from the first to the second, where both are there.
fn way_between(a: Option<i64>, b: Option<i64>) -> u128
    ensures value { result ≡ travel_of (spec.between a b) }
    ensures bound { result < 2 ^ 64 }
    ensures first { a ≡ None → result ≡ 0 }
    ensures second { b ≡ None → result ≡ 0 }
{
    match (a, b) {
        (Some(a), Some(b)) => u128::from(b.abs_diff(a)),
        _ => 0,
    }
}
