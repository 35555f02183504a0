//! Texts made of lines: their words, numbers, points and keys, and the first line that breaks a
//! rule. It stands on `fixed_units`. Whatever a person writes line by line is read over it:
//! benches, programs, switch files. Begin at [`read_lines`] and [`LineReader`].
#![tactic(auto)]

mod key;
mod laws;
mod line;
mod number;
mod reader;
mod rule;
mod word;

pub use key::value_at;
pub use laws::{lines_are_spelled, numbers_are_small};
pub use line::first_line;
pub use number::{number_of, point_of};
pub use reader::{LineFault, LineReader, LineRefused, LinesFault, read_lines};
pub use rule::{broken_unless, in_range, required};
pub use word::{is_clean, says, words_of};
