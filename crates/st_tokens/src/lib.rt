//! The tokens of a text in Structured Text (IEC 61131-3, in this project's profile): words, names,
//! numbers and signs, between blanks, line ends and comments. A reader asks for the lexeme at the
//! front of what is left of a text, a token or a gap, and goes after it. Begin with specs/Tokens,
//! then specs/Lexemes.
#![tactic(auto)]

mod byte;
mod comment;
mod lexeme;
mod number;
mod sign;
mod token;
mod word;

pub use lexeme::{Lexeme, lexeme_at};
pub use sign::{SIGNS, sign_text};
pub use token::{Sign, Token, Word};
pub use word::{WORDS, word_named, word_text};
