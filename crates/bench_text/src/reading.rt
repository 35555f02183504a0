// Reading a bench.

ghost use Rattle.std.specs.Prelude.{◌≡◌, IfErr, IfOk, Ok};
ghost use Rattle.line_text.specs.Reading.{at_line};
ghost use Rattle.machine_words.specs.Rules.{refused_by, told_as};
ghost use Rattle.bench_text.specs.BenchState.{BenchState};
ghost use Rattle.bench_text.specs.Reading as spec;
ghost use Rattle.bench_text.specs.Reading.{ReadsBy};
ghost use Rattle.bench_text.specs.Spelled.{IsBenchOf};
ghost use Rattle.bench_text.specs.UnderWay.{IsSoFar};

use crate::bench::Bench;
use crate::form::{Part, is_part};
use crate::reader::BenchReader;
use line_text::{LineRefused, LinesFault, lines_are_spelled, read_lines};
use machine_words::{KnownBlocks, NOT_WHOLE, inputs_are_fit, refused_by};
use motion_history::{Builder, DriveDefs, TextFault, TraceVersion};
use std::alloc::Global;

/// The bench that a text is. A text that is none is refused at its first line that breaks a rule,
/// by the first rule that it breaks: B1 to B11. It takes memory for the words of one line at a
/// time, besides the bench.
pub fn read_bench(alloc: Global, text: &[u8]) -> Result<Bench, TextFault>
    // What is read is a bench of the text.
    ensures found { IfOk result (IsBenchOf text.now) }
    // A bench of the text is read, unless memory runs out.
    ensures only { (bench : BenchState) → IsBenchOf text.now bench → ReadsBy (Ok bench) result }
    // A text that has none is refused so.
    ensures exact { ReadsBy (spec.bench_of text.now) result }
{
    // laws
    lines_are_spelled();
    read(alloc, text)
}

// The bench that a text is.
#[tactic(auto, unfolding(crate::specs::Reading::bench_of, line_text::specs::Reading::reading_of))]
fn read(alloc: Global, text: &[u8]) -> Result<Bench, TextFault>
    ensures { ReadsBy (spec.bench_of text.now) result }
{
    // laws
    inputs_are_fit();
    let mut reader = opened(alloc)?;
    match read_lines(alloc, text, &mut reader) {
        Ok(last) => bench_of(reader, last),
        Err(LinesFault::Refused(refused)) => Err(refusal(refused)),
        Err(LinesFault::OutOfMemory) => Err(TextFault::OutOfMemory),
    }
}

// How a bench is refused at this place.
fn refusal(refused: LineRefused) -> TextFault
    ensures { result ≡ TextFault.Refused (told_as spec.letter refused) }
{
    refused_by(b'B', refused)
}

// A bench before its first line.
#[tactic(auto, unfolding(crate::specs::Reading::opening))]
fn opened(alloc: Global) -> Result<BenchReader, TextFault>
    ensures ok { IfOk result (λ r. r ≡ spec.opening) }
    ensures only { IfErr result (λ fault. fault ≡ TextFault.OutOfMemory) }
{
    let Ok(machine) = Builder::open(alloc, 1, 1) else {
        return Err(TextFault::OutOfMemory);
    };
    Ok(BenchReader {
        alloc,
        part: Part::Start,
        version: TraceVersion::One,
        limited: false,
        machine,
        known: KnownBlocks::new(alloc),
        drives: Vec::new(alloc),
        stated: Vec::new(alloc),
        lines: Vec::new(alloc),
    })
}

// The bench at the end of the text.
#[tactic(auto, unfolding(crate::specs::Reading::ending))]
fn bench_of(reader: BenchReader, last: u64) -> Result<Bench, TextFault>
    requires { IsSoFar reader }
    ensures { ReadsBy (refused_by spec.letter (at_line last (spec.ending reader))) result }
{
    let BenchReader {
        part,
        version,
        machine,
        drives,
        lines,
        ..
    } = reader;
    if !is_part(part, Part::Events) {
        return Err(refusal(LineRefused {
            line: last,
            rule: NOT_WHOLE,
        }));
    }
    // It has been whole since `go`.
    let Ok(config) = machine.finish() else {
        return Err(TextFault::OutOfMemory);
    };
    Ok(Bench {
        version,
        config,
        drives: DriveDefs::of(drives),
        lines,
    })
}
