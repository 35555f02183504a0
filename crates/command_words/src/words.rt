// The words of a call of the program.

ghost use Rattle.std.specs.Prelude.{◌≡◌, ◌++◌, ◌∷◌, [], IfOk, OnErr, OnOk, map};
ghost use Rattle.std.specs.String.{string_bytes};
ghost use Rattle.command_words.specs.Args.{words_of};

use motion_numbers::OutOfMemory;
use std::alloc::{AllocError, Global};
use std::env::Args;
use std::marker::Model;

/// The words with which the program is called, without its own name. Contracts see them as a list
/// of texts.
#[derive(Drop)]
pub struct Words {
    alloc: Global,
    texts: Vec<String>,
}

impl Model for Words {
    ghost use Rattle.std.specs.Prelude.{ℕ, List};

    ghost Value = { List (List ℕ) };

    ghost use Rattle.command_words.specs.WordList.{texts_of};

    ghost view = { texts_of };
}

impl Words {
    /// No word yet.
    pub fn new(alloc: Global) -> Words
        ensures { result ≡ [] }
    {
        Words {
            alloc,
            texts: Vec::new(alloc),
        }
    }

    /// Adds a word after the others.
    pub fn push(&mut self, word: &str) -> Result<(), OutOfMemory>
        ensures ok { OnOk result (self.new ≡ self.old ++ word.now ∷ []) }
        ensures err { OnErr result (self.new ≡ self.old) }
    {
        let text = String::from_str(self.alloc, word)?;
        Ok(push_text(&mut self.texts, text)?)
    }

    /// The texts of the words.
    pub fn texts(&self) -> &[String]
        ensures { map string_bytes result.now ≡ self.now }
    {
        self.texts.as_slice()
    }
}

// Adds a text after the others.
fn push_text(texts: &mut Vec<String>, text: String) -> Result<(), AllocError>
    ensures ok { OnOk result (texts.new.items ≡ texts.old.items ++ text ∷ []) }
    ensures err { OnErr result (texts.new.items ≡ texts.old.items) }
{
    texts.push(text)?;
    Ok(())
}

/// The words of the arguments of the process: those after the first, which is the program's name.
pub fn words_from(alloc: Global, args: Args) -> Result<Words, OutOfMemory>
    ensures { IfOk result (λ words. words ≡ words_of args) }
{
    let texts = args.skip(1).collect(alloc)?;
    Ok(Words { alloc, texts })
}
