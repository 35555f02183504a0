// Laws of lines and words: each is the contract of a function that does nothing.

ghost use Rattle.std.specs.Prelude.{◌≡◌, ◌≤◌, List, ℕ, ℤ, Some, unsigned_abs};
ghost use Rattle.motion_numbers.specs.declared.TheConstants.{MOST_NUMBER};
ghost use Rattle.line_text.specs.Numbers.{number_of};
ghost use Rattle.line_text.specs.Spelling.{AreSpelled};

/// A number is at most 10^18 in size.
pub fn numbers_are_small()
    ensures { (word : List ℕ) (z : ℤ) → number_of word ≡ Some z → unsigned_abs z ≤ MOST_NUMBER }
{}

/// The lines of a text are those that it spells, and the words of a line those that it spells.
pub fn lines_are_spelled()
    ensures spelled { AreSpelled }
{}
