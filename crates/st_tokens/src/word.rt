// Reserved words.

ghost use Rattle.std.specs.Prelude.{◌≡◌};
ghost use Rattle.st_tokens.specs.Words as spec;

use crate::token::Word;

/// The reserved words.
pub const WORDS: [Word; 18] = [
    Word::Program,
    Word::Var,
    Word::EndVar,
    Word::EndProgram,
    Word::Bool,
    Word::Dint,
    Word::True,
    Word::False,
    Word::If,
    Word::Then,
    Word::Else,
    Word::EndIf,
    Word::Case,
    Word::Of,
    Word::EndCase,
    Word::Or,
    Word::And,
    Word::Not,
];

/// How a reserved word is written.
#[tactic(auto, unfolding(crate::specs::Words::word_text))]
pub fn word_text(word: Word) -> &'static str
    ensures { result.now ≡ spec.word_text word }
{
    match word {
        Word::Program => "PROGRAM",
        Word::Var => "VAR",
        Word::EndVar => "END_VAR",
        Word::EndProgram => "END_PROGRAM",
        Word::Bool => "BOOL",
        Word::Dint => "DINT",
        Word::True => "TRUE",
        Word::False => "FALSE",
        Word::If => "IF",
        Word::Then => "THEN",
        Word::Else => "ELSE",
        Word::EndIf => "END_IF",
        Word::Case => "CASE",
        Word::Of => "OF",
        Word::EndCase => "END_CASE",
        Word::Or => "OR",
        Word::And => "AND",
        Word::Not => "NOT",
    }
}

/// The reserved word that is written so.
#[tactic(auto, unfolding(crate::specs::Words::word_named))]
pub fn word_named(text: &[u8]) -> Option<Word>
    ensures { result ≡ spec.word_named text.now }
{
    WORDS
        .iter()
        .find(|word| word_text(**word).as_bytes() == text)
        .copied()
}
