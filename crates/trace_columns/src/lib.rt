//! The columns of a trace: how the values of its fields are spelled, and which value a field
//! spells; and the records of such fields. It stands on `line_text` for numbers, on `csv` for
//! records and on the types of axes, groups and blocks. Begin at `fields` for writing, and
//! `records`, `number`, `word` and `state` for reading; that one undoes the other is
//! [`columns_are_read_back`].
#![tactic(auto)]

mod eight;
mod fields;
mod laws;
mod number;
mod outputs;
mod records;
mod state;
mod word;

pub use fields::{
    axis_state_text, drive_state_text, flag_text, group_state_text, hex_text, outputs_text,
};
pub use laws::columns_are_read_back;
pub use number::{
    halves_of, int_of, number_of, point_of, small_int_of, unsigned_of, wide_number_of, word_of,
};
pub use outputs::outputs_of;
pub use records::{field, next_record, open_records, written_records_are_read_back};
pub use state::{axis_state_of, drive_state_of, group_state_of};
pub use word::{flag_of, hex_of};
