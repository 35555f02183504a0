// The numbers of a bench or a program.

ghost use Rattle.std.specs.Prelude.{◌≡◌, ◌≤◌, IfOk, unsigned_abs};
ghost use Rattle.line_text.specs.Reading.{Gives, each_of};
ghost use Rattle.line_text.specs.Texts.{texts};
ghost use Rattle.machine_words.specs.Numbers as spec;

use crate::rule::NO_VALUE;
use line_text::{LineFault, number_of};
use motion_numbers::MOST_NUMBER;
use std::alloc::Global;

/// The number that a word is.
#[tactic(auto, unfolding(crate::specs::Numbers::number))]
pub fn number(word: &[u8]) -> Result<i64, LineFault>
    ensures value { Gives (λ z. z) (spec.number word.now) result }
    ensures small { IfOk result (λ z. unsigned_abs z ≤ MOST_NUMBER) }
{
    match number_of(word) {
        Some(number) => Ok(number),
        None => Err(LineFault::Rule(NO_VALUE)),
    }
}

/// The numbers that words are.
pub fn numbers(alloc: Global, words: &[&[u8]]) -> Result<Vec<i64>, LineFault>
    ensures { Gives (λ v. v.items) (each_of spec.number (texts words.now)) result }
{
    let mut numbers = Vec::new(alloc);
    for word in words {
        let number = number(word)?;
        let Ok(()) = numbers.push(number) else {
            return Err(LineFault::OutOfMemory);
        };
    }
    Ok(numbers)
}
