// Reserved words.

ghost use Rattle.std.specs.Prelude.{◌≡◌};
ghost use Rattle.iec_tokens.specs.Words as spec;

use crate::token::Word;

/// The reserved words.
pub const WORDS: [Word; 32] = [
    Word::Type,
    Word::EndType,
    Word::VarGlobal,
    Word::Constant,
    Word::EndVar,
    Word::Program,
    Word::EndProgram,
    Word::Var,
    Word::VarInput,
    Word::Array,
    Word::Of,
    Word::True,
    Word::False,
    Word::If,
    Word::Then,
    Word::Elsif,
    Word::Else,
    Word::EndIf,
    Word::Case,
    Word::EndCase,
    Word::For,
    Word::To,
    Word::By,
    Word::Do,
    Word::EndFor,
    Word::Exit,
    Word::Return,
    Word::Or,
    Word::Xor,
    Word::And,
    Word::Mod,
    Word::Not,
];

/// How a reserved word is written in capitals.
#[tactic(auto, unfolding(crate::specs::Words::word_text))]
pub fn word_text(word: Word) -> &'static str
    ensures { result.now ≡ spec.word_text word }
{
    match word {
        Word::Type => "TYPE",
        Word::EndType => "END_TYPE",
        Word::VarGlobal => "VAR_GLOBAL",
        Word::Constant => "CONSTANT",
        Word::EndVar => "END_VAR",
        Word::Program => "PROGRAM",
        Word::EndProgram => "END_PROGRAM",
        Word::Var => "VAR",
        Word::VarInput => "VAR_INPUT",
        Word::Array => "ARRAY",
        Word::Of => "OF",
        Word::True => "TRUE",
        Word::False => "FALSE",
        Word::If => "IF",
        Word::Then => "THEN",
        Word::Elsif => "ELSIF",
        Word::Else => "ELSE",
        Word::EndIf => "END_IF",
        Word::Case => "CASE",
        Word::EndCase => "END_CASE",
        Word::For => "FOR",
        Word::To => "TO",
        Word::By => "BY",
        Word::Do => "DO",
        Word::EndFor => "END_FOR",
        Word::Exit => "EXIT",
        Word::Return => "RETURN",
        Word::Or => "OR",
        Word::Xor => "XOR",
        Word::And => "AND",
        Word::Mod => "MOD",
        Word::Not => "NOT",
    }
}

/// The reserved word that is written so, in any case of letters.
#[tactic(auto, unfolding(crate::specs::Words::word_named))]
pub fn word_named(text: &[u8]) -> Option<Word>
    ensures { result ≡ spec.word_named text.now }
{
    WORDS
        .iter()
        .find(|word| word_text(**word).as_bytes().eq_ignore_ascii_case(text))
        .copied()
}
