// The points of a bench.

ghost use Rattle.std.specs.Prelude.{◌≡◌};
ghost use Rattle.line_text.specs.Reading.{Gives, each_of};
ghost use Rattle.line_text.specs.Texts.{texts};
ghost use Rattle.bench_text.specs.Items as spec;

use line_text::{LineFault, point_of, required};
use machine_words::NO_VALUE;
use std::alloc::Global;

// The point that a word is.
#[tactic(auto, unfolding(crate::specs::Items::point))]
fn point(word: &[u8]) -> Result<(i64, i64), LineFault>
    ensures { Gives (λ p. p) (spec.point word.now) result }
{
    required(point_of(word), NO_VALUE)
}

/// The points that words are.
pub fn points(alloc: Global, words: &[&[u8]]) -> Result<Vec<(i64, i64)>, LineFault>
    ensures { Gives (λ v. v.items) (each_of spec.point (texts words.now)) result }
{
    let mut points = Vec::new(alloc);
    for word in words {
        let point = point(word)?;
        let Ok(()) = points.push(point) else {
            return Err(LineFault::OutOfMemory);
        };
    }
    Ok(points)
}
