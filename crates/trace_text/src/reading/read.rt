// Reading a trace.

ghost use Rattle.std.specs.Prelude.{◌≡◌, IfErr, IfOk, None, Ok, false, length};
ghost use Rattle.csv.specs.Records.{fields_of};
ghost use Rattle.trace_columns.specs.Records.{records_of};
ghost use Rattle.line_text.specs.Reading.{Takes, at_line};
ghost use Rattle.line_text.specs.Texts.{texts};
ghost use Rattle.machine_words.specs.Rules.{refused_by, told_as};
ghost use Rattle.motion_history.specs.Setup.{IsSetup};
ghost use Rattle.trace_text.specs.reading.Reading as spec;
ghost use Rattle.trace_text.specs.reading.Reading.{ReadsBy};
ghost use Rattle.trace_text.specs.reading.Holding.{HoldsRecords, StandsAt, TakesApart, TakesRecords};
ghost use Rattle.trace_text.specs.reading.SoFar.{SoFar};
ghost use Rattle.trace_text.specs.Held.{ReadsHeld};
ghost use Rattle.trace_text.specs.TraceKept.{IsTraceKept};
ghost use Rattle.trace_text.specs.TraceState.{TraceState};

use crate::command::Command;
use crate::found::FoundCycle;
use crate::found_list::FoundList;
use crate::reading::held::{give_back, set_apart};
use crate::reading::kind::{Kind, Stage, is_stage};
use crate::reading::reader::TraceReader;
use crate::reading::rule::{NOT_TWELVE, TOO_SHORT};
use crate::records::FIELDS;
use crate::trace::Trace;
use csv::ByteRecord;
use line_text::{LineFault, LineRefused, LinesFault};
use machine_words::{KnownBlocks, refused_by};
use motion_history::{Builder, OutOfMemory, TextFault, TraceVersion};
use std::alloc::Global;
use trace_columns::{field, next_record, open_records};

/// The trace that a text is. A text that is none is refused at its first record that breaks a rule,
/// counted from 1, by the first rule that it breaks: T1 to T7. It takes memory for one record at a
/// time, besides the trace.
pub fn read_trace(alloc: Global, text: &[u8]) -> Result<Trace, TextFault>
    ensures reading { ReadsBy (spec.trace_of text.now) result }
    ensures kept { IfOk result (λ t. IsTraceKept t) }
{
    read_held(alloc, text, false)
}

/// The same for one who verifies the trace: entries after the first for which its machine has no
/// room needn't be kept, though their text is read as that of the others. How few are kept no
/// clause says.
pub fn read_within_room(alloc: Global, text: &[u8]) -> Result<Trace, TextFault>
    ensures reading { ReadsHeld (spec.trace_of text.now) result }
    ensures kept { IfOk result (λ t. IsTraceKept t) }
{
    read_held(alloc, text, true)
}

// The trace that a text is: all of it, or all but entries after some that don't keep within its
// room.
#[tactic(auto, unfolding(crate::specs::reading::Reading::trace_of, crate::specs::reading::Reading::reading_of))]
fn read_held(alloc: Global, text: &[u8], within_room: bool) -> Result<Trace, TextFault>
    ensures held { ReadsHeld (spec.trace_of text.now) result }
    ensures all { within_room ≡ false → ReadsBy (spec.trace_of text.now) result }
    ensures kept { IfOk result (λ t. IsTraceKept t) }
{
    let mut reader = opened(alloc)?;
    match hold_records(alloc, text, within_room, &mut reader) {
        Ok(last) => trace_of(reader, last),
        Err(LinesFault::Refused(refused)) => Err(refusal(refused)),
        Err(LinesFault::OutOfMemory) => Err(TextFault::OutOfMemory),
    }
}

// How a trace is refused at this place.
fn refusal(refused: LineRefused) -> TextFault
    ensures { result ≡ TextFault.Refused (told_as spec.letter refused) }
{
    refused_by(b'T', refused)
}

// A trace before its first record.
#[tactic(auto, unfolding(crate::specs::reading::Reading::opening))]
fn opened(alloc: Global) -> Result<TraceReader, TextFault>
    ensures ok { IfOk result (λ r. r ≡ spec.opening) }
    ensures only { IfErr result (λ fault. fault ≡ TextFault.OutOfMemory) }
{
    let Ok(machine) = Builder::open(alloc, 1, 1) else {
        return Err(TextFault::OutOfMemory);
    };
    Ok(TraceReader {
        alloc,
        stage: Stage::Header,
        last: Kind::Axis,
        version: TraceVersion::One,
        command: Command::Bench,
        machine,
        known: KnownBlocks::new(alloc),
        cycle: FoundCycle::new(alloc, 0),
        found: FoundList::new(alloc),
        drives: Vec::new(alloc),
    })
}

// Takes the records of a text, and answers how many there are.
fn hold_records(
    alloc: Global,
    text: &[u8],
    within_room: bool,
    reader: &mut TraceReader,
) -> Result<u64, LinesFault>
    ensures { HoldsRecords within_room (records_of text.now) reader.old reader.new result }
{
    let mut first = None;
    let last = read_records(alloc, text, within_room, reader, &mut first)?;
    match give_back(reader, first) {
        Ok(()) => Ok(last),
        Err(OutOfMemory) => Err(LinesFault::OutOfMemory),
    }
}

// Takes them, with the first entries apart, where the others aren't wanted.
fn read_records(
    alloc: Global,
    text: &[u8],
    within_room: bool,
    reader: &mut TraceReader,
    first: &mut Option<FoundList>,
) -> Result<u64, LinesFault>
    requires { first.old ≡ None }
    ensures taken { TakesRecords (records_of text.now) reader.old reader.new first.new result }
    ensures all { within_room ≡ false → first.new ≡ None }
{
    let mut rdr = open_records(alloc, text);
    let mut row = ByteRecord::new(alloc);
    for place in 0..u64::MAX {
        let Ok(found) = next_record(&mut rdr, &mut row) else {
            return Err(LinesFault::OutOfMemory);
        };
        if !found {
            return Ok(place);
        }
        match take_record(within_room, reader, first, &row) {
            Ok(()) => {}
            Err(LineFault::Rule(rule)) => {
                let line = place + 1;
                return Err(LinesFault::Refused(LineRefused { line, rule }));
            }
            Err(LineFault::OutOfMemory) => return Err(LinesFault::OutOfMemory),
        }
    }
    Err(LinesFault::OutOfMemory)
}

// Takes a record, with the first entries apart.
fn take_record(
    within_room: bool,
    reader: &mut TraceReader,
    first: &mut Option<FoundList>,
    row: &ByteRecord,
) -> Result<(), LineFault>
    ensures taken { (whole : SoFar) → StandsAt whole reader.old first.old →
        TakesApart (spec.meaning whole (fields_of row.now)) reader.new first.new result }
    ensures all { within_room ≡ false → first.new ≡ first.old }
{
    let taken = read_record(reader, row);
    if within_room {
        set_apart(reader, first);
    }
    taken
}

// Takes a record.
#[tactic(auto, unfolding(crate::specs::reading::Reading::meaning))]
fn read_record(reader: &mut TraceReader, row: &ByteRecord) -> Result<(), LineFault>
    ensures { Takes (spec.meaning reader.old (fields_of row.now)) reader.new result }
{
    if row.len() != FIELDS {
        return Err(LineFault::Rule(NOT_TWELVE));
    }
    reader.read_fields(&fields_in(row))
}

// The twelve fields of a record.
fn fields_in(row: &ByteRecord) -> [&[u8]; FIELDS]
    requires { length (fields_of row.now) ≡ FIELDS }
    ensures { texts result ≡ fields_of row.now }
{
    [
        field(row, 0),
        field(row, 1),
        field(row, 2),
        field(row, 3),
        field(row, 4),
        field(row, 5),
        field(row, 6),
        field(row, 7),
        field(row, 8),
        field(row, 9),
        field(row, 10),
        field(row, 11),
    ]
}

// The trace at the end of the text.
#[tactic(auto, unfolding(crate::specs::reading::Reading::ending))]
fn trace_of(reader: TraceReader, last: u64) -> Result<Trace, TextFault>
    requires { (t : TraceState) → spec.ending reader ≡ Ok t → IsSetup t.config → IsTraceKept t }
    ensures reading { ReadsBy (refused_by spec.letter (at_line last (spec.ending reader))) result }
    ensures kept { IfOk result (λ t. IsTraceKept t) }
{
    if !is_ended(&reader) {
        return Err(refusal(LineRefused {
            line: last,
            rule: TOO_SHORT,
        }));
    }
    let TraceReader {
        version,
        command,
        machine,
        found,
        drives,
        ..
    } = reader;
    // It has been whole since the first entry.
    let Ok(config) = machine.finish() else {
        return Err(TextFault::OutOfMemory);
    };
    Ok(Trace {
        version,
        command,
        config,
        found,
        drives,
    })
}

// Whether each drive has reported what it took.
fn is_ended(reader: &TraceReader) -> bool
    ensures { result ≡ spec.is_ended reader.now }
{
    is_stage(reader.stage, Stage::Drives) && reader.drives.len() == reader.machine.axes().len()
}
