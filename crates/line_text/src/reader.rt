// Reading a text line by line, up to the first line that breaks a rule.

ghost use Rattle.std.specs.Prelude.{◌≡◌, ℕ, List, Result};
ghost use Rattle.line_text.specs.Lines.{last_line_of};
ghost use Rattle.line_text.specs.Reading.{Meaning, Takes, TakesText, line_meaning, text_meaning};
ghost use Rattle.line_text.specs.Texts.{texts};

use crate::line::first_line;
use crate::word::read_words;
use std::alloc::Global;

/// Why a line is not taken.
#[derive(Clone, Copy, Debug, PartialEq, Eq)]
pub enum LineFault {
    /// It breaks the rule of this number.
    Rule(u8),
    OutOfMemory,
}

/// The first line of a text that breaks a rule, counted from 1, and the first rule that it breaks.
#[derive(Clone, Copy, Debug, PartialEq, Eq)]
pub struct LineRefused {
    pub line: u64,
    pub rule: u8,
}

/// Why a text is not read.
#[derive(Clone, Copy, Debug, PartialEq, Eq)]
pub enum LinesFault {
    Refused(LineRefused),
    OutOfMemory,
}

/// What reads the lines of a text, one after another.
pub trait LineReader {
    // What words mean where the reader stands: where it stands after them, or the rule that they
    // break.
    ghost meaning: { Meaning Self };

    /// Takes the words of a line, of which there is one at least. Where a rule is broken or memory
    /// runs out, the reader is given up.
    fn read_line(&mut self, words: &[&[u8]]) -> Result<(), LineFault>
        ensures { Takes (meaning self.old (texts words.now)) self.new result };
}

/// Reads the lines of a text, up to the first that breaks a rule, and answers the number of the
/// last, which is 1 in an empty text. A line with a byte besides tab, CR and those from space to
/// `~` breaks rule 1. It takes memory for the words of one line at a time.
#[tactic(auto, unfolding(crate::specs::Reading::text_meaning))]
pub fn read_lines<R: LineReader>(
    alloc: Global,
    text: &[u8],
    reader: &mut R,
) -> Result<u64, LinesFault>
    ensures { TakesText (text_meaning R.meaning reader.old text.now) (last_line_of text.now)
        reader.new result }
{
    let mut words = Vec::new(alloc);
    let mut rest = text;
    let mut line = 0;
    while !rest.is_empty() {
        let (first, behind) = first_line(rest);
        line += 1;
        match take_line(first, &mut words, reader) {
            Ok(()) => {}
            Err(LineFault::Rule(rule)) => {
                return Err(LinesFault::Refused(LineRefused { line, rule }));
            }
            Err(LineFault::OutOfMemory) => return Err(LinesFault::OutOfMemory),
        }
        rest = behind;
    }
    Ok(line.max(1))
}

// Takes a line.
#[tactic(auto, unfolding(crate::specs::Reading::line_meaning))]
fn take_line<'a, R: LineReader>(
    line: &'a [u8],
    words: &mut Vec<&'a [u8]>,
    reader: &mut R,
) -> Result<(), LineFault>
    ensures { Takes (line_meaning R.meaning reader.old line.now) reader.new result }
{
    let Ok(clean) = read_words(line, words) else {
        return Err(LineFault::OutOfMemory);
    };
    if !clean {
        return Err(LineFault::Rule(1));
    }
    if words.is_empty() {
        return Ok(());
    }
    reader.read_line(words.as_slice())
}
