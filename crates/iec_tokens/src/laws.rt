// Laws of words, signs and units: each is the contract of a function that does nothing.

ghost use Rattle.std.specs.Prelude.{ℕ, List};
ghost use Rattle.iec_tokens.specs.Ended.{IsEnded};
ghost use Rattle.iec_tokens.specs.ReadBack.{AreReadBack};
ghost use Rattle.iec_tokens.specs.Tokens.{tokens_of};

/// Each reserved word, each sign and each unit of a time is read as the one that it is written as.
pub fn words_are_read_back()
    ensures { AreReadBack }
{}

/// The tokens of a text have a last, its end or one that is wrong or one too many, and none before
/// it is such.
pub fn tokens_end_once()
    ensures { (text : List ℕ) → IsEnded (tokens_of text) }
{}
