//! The tokens of a text in Structured Text (IEC 61131-3): words, names, numbers, times and signs,
//! between blanks, line ends and comments. [`Tokens`] gives them one after another, each with its
//! line, and takes no memory. Begin with specs/Tokens, then specs/Lexemes.
#![tactic(auto)]

mod byte;
mod comment;
mod digits;
mod laws;
mod lexeme;
mod name;
mod number;
mod sign;
mod time;
mod token;
mod tokens;
mod word;

pub use laws::{tokens_end_once, words_are_read_back};
pub use name::{LONGEST_NAME, Name, is_name};
pub use sign::{SIGNS, sign_text};
pub use token::{Number, Placed, Sign, Token, Word};
pub use tokens::{MOST_TOKENS, Tokens};
pub use word::{WORDS, word_named, word_text};
