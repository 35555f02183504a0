// Reading a switch file.

ghost use Rattle.std.specs.Prelude.{◌≡◌, List, IfOk, Ok};
ghost use Rattle.switch_text.specs.declared.switch.Switch.{Switch};
ghost use Rattle.line_text.specs.Reading.{at_line};
ghost use Rattle.machine_words.specs.Rules.{refused_by, told_as};
ghost use Rattle.switch_text.specs.Reading as spec;
ghost use Rattle.switch_text.specs.Reading.{ReadsBy};
ghost use Rattle.switch_text.specs.Spelled.{IsSwitchText};

use crate::reader::{SwitchReader, WRONG_COUNT};
use crate::switches::Switches;
use line_text::{LineRefused, LinesFault, lines_are_spelled, read_lines};
use machine_words::refused_by;
use motion_history::{Config, TextFault};
use std::alloc::Global;

/// The switches that a text is for the axes of a machine: 1 to 64. A text that is none is refused
/// at its first line that breaks a rule, by the first rule that it breaks: K1 to K7. It takes
/// memory for the words of one line at a time, besides the switches.
pub fn read_switches(alloc: Global, text: &[u8], config: &Config) -> Result<Switches, TextFault>
    // What is read are the switches of the text.
    ensures found { IfOk result (IsSwitchText config.now text.now) }
    // The switches of the text are read, unless memory runs out.
    ensures only { (switches : List Switch) → IsSwitchText config.now text.now switches →
        ReadsBy (Ok switches) result }
    // A text that has none is refused so.
    ensures exact { ReadsBy (spec.switches_of config.now text.now) result }
{
    // laws
    lines_are_spelled();
    read(alloc, text, config)
}

// A switch file before its first line.
#[tactic(auto, unfolding(crate::specs::Reading::opening))]
fn opened<'a>(alloc: Global, config: &'a Config) -> SwitchReader<'a>
    ensures { result ≡ spec.opening config.now }
{
    SwitchReader {
        config,
        begun: false,
        switches: Vec::new(alloc),
    }
}

// The switches that a text is.
#[tactic(auto, unfolding(crate::specs::Reading::switches_of, line_text::specs::Reading::reading_of))]
fn read(alloc: Global, text: &[u8], config: &Config) -> Result<Switches, TextFault>
    ensures { ReadsBy (spec.switches_of config.now text.now) result }
{
    let mut reader = opened(alloc, config);
    match read_lines(alloc, text, &mut reader) {
        Ok(last) => switches_of(reader, last),
        Err(LinesFault::Refused(refused)) => Err(refusal(refused)),
        Err(LinesFault::OutOfMemory) => Err(TextFault::OutOfMemory),
    }
}

// How a switch file is refused at this place.
fn refusal(refused: LineRefused) -> TextFault
    ensures { result ≡ TextFault.Refused (told_as spec.letter refused) }
{
    refused_by(b'K', refused)
}

// The switches at the end of the text.
#[tactic(auto, unfolding(crate::specs::Reading::ending))]
fn switches_of(reader: SwitchReader<'_>, last: u64) -> Result<Switches, TextFault>
    ensures { ReadsBy (refused_by spec.letter (at_line last (spec.ending reader.entry))) result }
{
    let SwitchReader { switches, .. } = reader;
    if switches.is_empty() {
        return Err(refusal(LineRefused {
            line: last,
            rule: WRONG_COUNT,
        }));
    }
    Ok(Switches { list: switches })
}
