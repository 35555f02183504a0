// The bits that the numbers of an entry have by their types. Nothing runs.

ghost use Rattle.std.specs.Prelude.{◌≡◌, ◌≤◌, ◌≤ℤ◌, neg_ℤ, pos, length};
ghost use Rattle.std.proofs.Common.{FitsSigned, w64};
ghost use Rattle.plc_types.specs.Counts.{IsCount};
ghost use Rattle.motion_history.specs.Bits.{HasCallBits, HasGroupRowBits, HasRowBits};

use plc_types::{AxisRow, GroupRow, Inputs, Outputs};

// A word has 16 bits.
fn word_fits(word: u16)
    ensures { word ≤ 65535 }
{}

// A count has 32 bits.
fn count_fits(count: i32)
    ensures { IsCount count }
{}

// A mode has 8 bits.
fn mode_fits(mode: i8)
    ensures least { neg_ℤ (pos 128) ≤ℤ mode }
    ensures most { mode ≤ℤ pos 127 }
{}

// A number has 64 bits.
fn number_fits(number: i64)
    ensures { FitsSigned w64 number }
{}

// There are six positions.
fn positions_fit(positions: [i64; 6])
    ensures { length positions ≡ 6 }
{}

/// The numbers of a row of an axis have their bits.
pub fn row_has_bits(row: &AxisRow)
    ensures { HasRowBits row.now }
{
    word_fits(row.input.statusword);
    count_fits(row.input.actual);
    mode_fits(row.input.mode_display);
    word_fits(row.error);
    number_fits(row.setpoint);
    number_fits(row.offset);
    word_fits(row.output.controlword);
    count_fits(row.output.target);
}

/// The number of a row of a group has its bits.
pub fn group_row_has_bits(row: &GroupRow)
    ensures { HasGroupRowBits row.now }
{
    word_fits(row.error);
}

/// The numbers of a call have their bits.
pub fn call_has_bits(inputs: &Inputs, reply: &Outputs)
    ensures { HasCallBits inputs.now reply.now }
{
    positions_fit(inputs.positions);
    word_fits(inputs.table);
    word_fits(reply.error_id);
}
