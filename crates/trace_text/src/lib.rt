//! Traces: the text of a machine, its history and what its drives took, as records of
//! comma-separated fields, written and read. It stands on `trace_columns` for fields, on
//! `csv_records` for records, and on `machine_words` for names. Begin at [`write_trace`] and
//! [`read_trace`], or [`read_within_room`] for one who verifies, in the folders `writing` and
//! `reading`; that what is written is read back is [`traces_are_read_back`].
#![tactic(auto)]

mod command;
mod drive_end;
mod found;
mod found_list;
mod found_rooms;
mod laws;
mod reading;
mod records;
mod same;
mod trace;
mod version;
mod writing;

pub use command::Command;
pub use drive_end::DriveEndRow;
pub use laws::{
    parts_are_beginnings, records_are_read_back, rows_are_read_back, traces_are_read_back,
};
pub use motion_history::{Config, History, OutOfMemory, TextFault, TextRefused, TraceVersion};
pub use reading::read::{read_trace, read_within_room};
pub use same::are_same_inputs;
pub use trace::Trace;
pub use version::trace_version;
pub use writing::cycle_rows::reported_place;
pub use writing::pieces::entry_piece;
pub use writing::write::{TraceFault, write_trace};
