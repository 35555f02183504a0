// A record of a trace, as a user is shown it.

ghost use Rattle.std.specs.Prelude.{◌≡◌, ◌<◌, ℕ, [], List, IfOk, length, map, slice_index_or, slice_set};
ghost use Rattle.csv.specs.Records.{fields_of};
ghost use Rattle.line_text.specs.Texts.{texts};
ghost use Rattle.trace_text.specs.reading.Reading as spec;

use csv::ByteRecord;
use line_text::says;
use motion_history::OutOfMemory;
use std::alloc::Global;
use std::marker::Model;
use trace_columns::field;

/// How many fields a record has.
pub const FIELDS: usize = 12;

/// A record of a trace. Contracts see it as a list of twelve texts.
#[derive(Drop)]
pub struct Record {
    row: ByteRecord,
}

impl Model for Record {
    ghost use Rattle.std.specs.Prelude.{◌≡◌, ℕ, List, length};
    ghost use Rattle.csv.specs.Records.{fields_of};
    ghost use Rattle.trace_check.specs.declared.record.TheConstants.{FIELDS};

    ghost Value = { List (List ℕ) };

    ghost view = { λ r. fields_of r.row };

    ghost invariant = { λ r. length (fields_of r.row) ≡ FIELDS };
}

impl Record {
    /// A record of these fields.
    pub fn new(alloc: Global, fields: &[&[u8]; FIELDS]) -> Result<Record, OutOfMemory>
        ensures { IfOk result (λ r. r ≡ texts fields.now) }
    {
        let Ok(row) = ByteRecord::from_fields(alloc, fields) else {
            return Err(OutOfMemory);
        };
        Ok(Record { row })
    }

    /// The record of a row of twelve fields. One of another number is given up.
    pub fn of_row(row: ByteRecord) -> Result<Record, OutOfMemory>
        ensures { IfOk result (λ r. r ≡ fields_of row) }
    {
        if row.len() == FIELDS {
            Ok(Record { row })
        } else {
            Err(OutOfMemory)
        }
    }

    /// The record with another last field.
    pub fn with_last(&self, alloc: Global, last: &[u8]) -> Result<Record, OutOfMemory>
        ensures { IfOk result (λ r. r ≡ slice_set self.now 11 last.now) }
    {
        let row = &self.row;
        let fields = [
            field(row, 0),
            field(row, 1),
            field(row, 2),
            field(row, 3),
            field(row, 4),
            field(row, 5),
            field(row, 6),
            field(row, 7),
            field(row, 8),
            field(row, 9),
            field(row, 10),
            last,
        ];
        Record::new(alloc, &fields)
    }

    /// How many fields it has: twelve.
    pub fn len(&self) -> u32
        ensures fields { result ≡ length self.now }
        ensures twelve { result ≡ FIELDS }
    {
        self.row.len() as u32
    }

    /// The field at a place counted from 0, empty where there is none.
    pub fn field(&self, place: usize) -> &[u8]
        ensures { result.now ≡ slice_index_or self.now place [] }
    {
        field(&self.row, place)
    }

    /// Whether it is the same as another.
    pub fn is_same(&self, other: &Record) -> bool
        ensures { result ≡ spec.are_same self.now other.now }
    {
        for i in 0..FIELDS {
            if !says(field(&self.row, i), field(&other.row, i)) {
                return false;
            }
        }
        true
    }
}
