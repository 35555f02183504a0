// Reading a trace segment.

ghost use Rattle.std.specs.Prelude.{◌≡◌, ◌+◌, ◌<◌, ◌≤◌, IfOk, IfSome, length};
ghost use Rattle.std.specs.List.{count_by, slice_split};
ghost use Rattle.std.specs.Option.{option_map};
ghost use Rattle.line_text.specs.Lines.{lines_of};
ghost use Rattle.line_text.specs.Reading.{Takes, TakesText};
ghost use Rattle.line_text.specs.Texts.{texts};
ghost use Rattle.segment_text.specs.reading.Lines as lines;
ghost use Rattle.segment_text.specs.reading.Reading as spec;
ghost use Rattle.segment_text.specs.reading.Reading.{ReadsBy, ReadsLines};

use crate::machine::MachineText;
use crate::reading::before::before_of;
use crate::reading::rule::{NO_BLANK_LINE, NO_TRACE_SEGMENT, TOO_SHORT};
use crate::trace_segment::TraceSegment;
use line_text::{LineFault, LineRefused, LinesFault, first_line};
use machine_words::refused_by;
use motion_history::{Config, TextFault};
use motion_kernel::Before;
use std::alloc::{AllocError, Global};
use trace_text::read_trace;

/// The most commas of a line that has fields.
const MOST_COMMAS: usize = 63;

// How many commas a line has.
fn commas_in(line: &[u8]) -> usize
    ensures { result ≡ count_by lines.is_comma line.now }
{
    line.iter().filter(|b| **b == b',').count()
}

// What stands between the commas of a line.
fn parts_of(alloc: Global, line: &[u8]) -> Result<Vec<&[u8]>, AllocError>
    ensures { IfOk result (λ v. texts v.items ≡ slice_split lines.is_comma line.now) }
{
    line.split(|b| *b == b',').collect(alloc)
}

// The fields of a line, which are collected only where they may be those of a record.
#[tactic(auto, unfolding(crate::specs::reading::Lines::fields_in))]
fn fields_in(alloc: Global, line: &[u8]) -> Result<Vec<&[u8]>, AllocError>
    ensures { IfOk result (λ v. texts v.items ≡ lines.fields_in line.now) }
{
    if commas_in(line) <= MOST_COMMAS {
        parts_of(alloc, line)
    } else {
        Ok(Vec::new(alloc))
    }
}

// Takes a line.
fn take_line(
    alloc: Global,
    config: &Config,
    line: &[u8],
    machine: &mut MachineText,
) -> Result<(), LineFault>
    ensures { Takes (lines.record_meaning config.now machine.old (lines.fields_in line.now))
        machine.new result }
{
    let Ok(fields) = fields_in(alloc, line) else {
        return Err(LineFault::OutOfMemory);
    };
    machine.read_record(config, fields.as_slice())
}

// Takes the lines after the first, and answers the number of the last.
fn take_lines(
    alloc: Global,
    config: &Config,
    text: &[u8],
    machine: &mut MachineText,
) -> Result<u64, LinesFault>
    ensures { TakesText (lines.lines_meaning config.now 1 machine.old (lines_of text.now))
        (length (lines_of text.now) + 1) machine.new result }
{
    let mut rest = text;
    let mut line = 1;
    while !rest.is_empty() {
        let (first, behind) = first_line(rest);
        line += 1;
        match take_line(alloc, config, first, machine) {
            Ok(()) => {}
            Err(LineFault::Rule(rule)) => {
                return Err(LinesFault::Refused(LineRefused { line, rule }));
            }
            Err(LineFault::OutOfMemory) => return Err(LinesFault::OutOfMemory),
        }
        rest = behind;
    }
    Ok(line)
}

// What was before a trace segment, by the first line of its header.
#[tactic(auto, unfolding(crate::specs::reading::Reading::before_meaning))]
fn read_before(alloc: Global, line: &[u8]) -> Result<Before, LinesFault>
    ensures { ReadsLines (spec.before_meaning line.now) result }
{
    let Ok(fields) = fields_in(alloc, line) else {
        return Err(LinesFault::OutOfMemory);
    };
    match before_of(fields.as_slice()) {
        Some(before) => Ok(before),
        None => Err(LinesFault::Refused(LineRefused {
            line: 1,
            rule: NO_TRACE_SEGMENT,
        })),
    }
}

// The machine that the lines after the first give.
#[tactic(auto, unfolding(crate::specs::reading::Reading::machine_meaning))]
fn read_machine(alloc: Global, config: &Config, text: &[u8]) -> Result<MachineText, LinesFault>
    ensures { ReadsLines (spec.machine_meaning config.now (lines_of text.now)) result }
{
    let Ok(mut machine) = MachineText::unread(alloc, config) else {
        return Err(LinesFault::OutOfMemory);
    };
    let line = match take_lines(alloc, config, text, &mut machine) {
        Ok(line) => line,
        Err(fault) => return Err(fault),
    };
    if machine.is_whole(config) {
        Ok(machine)
    } else {
        Err(LinesFault::Refused(LineRefused {
            line,
            rule: TOO_SHORT,
        }))
    }
}

// What the lines of a header give.
#[tactic(auto, unfolding(crate::specs::reading::Reading::segment_header_meaning))]
fn read_lines(
    alloc: Global,
    config: &Config,
    header: &[u8],
) -> Result<(Before, MachineText), LinesFault>
    ensures { ReadsLines (spec.segment_header_meaning config.now (lines_of header.now)) result }
{
    if header.is_empty() {
        return Err(LinesFault::Refused(LineRefused {
            line: 1,
            rule: NO_TRACE_SEGMENT,
        }));
    }
    let (first, behind) = first_line(header);
    let before = match read_before(alloc, first) {
        Ok(before) => before,
        Err(fault) => return Err(fault),
    };
    match read_machine(alloc, config, behind) {
        Ok(machine) => Ok((before, machine)),
        Err(fault) => Err(fault),
    }
}

// What the header of a trace segment says of the machine of a configuration.
#[tactic(auto, unfolding(crate::specs::reading::Reading::header_of))]
fn read_header(
    alloc: Global,
    config: &Config,
    header: &[u8],
) -> Result<(Before, MachineText), TextFault>
    ensures { ReadsBy (spec.header_of config.now header.now) result }
{
    match read_lines(alloc, config, header) {
        Ok(told) => Ok(told),
        Err(LinesFault::Refused(refused)) => Err(refused_by(b'G', refused)),
        Err(LinesFault::OutOfMemory) => Err(TextFault::OutOfMemory),
    }
}

// Where a blank line ends that ends the header: at an LF right after another.
fn blank_line_in(text: &[u8]) -> Option<usize>
    ensures place { result ≡ spec.blank_line_from 0 text.now }
    ensures within { IfSome result (λ end. end < length text.now) }
{
    let mut rest = text;
    let mut end = 0;
    while let [first, second, ..] = rest {
        end += 1;
        if *first == b'\n' && *second == b'\n' {
            return Some(end);
        }
        rest = &rest[1..];
    }
    None
}

// The header of a text, and what stands after the blank line that ends it.
#[tactic(auto, unfolding(crate::specs::reading::Reading::halves_of))]
fn halves_of(text: &[u8]) -> Option<(&[u8], &[u8])>
    ensures { option_map (λ h. (h.0.now, h.1.now)) result ≡ spec.halves_of text.now }
{
    let end = blank_line_in(text)?;
    Some((&text[..end], &text[end + 1..]))
}

/// The trace segment that a text is. A text that is none is refused: by G1 at place 0 where no
/// blank line ends its header, else by the rule that its trace breaks, else by the first line of
/// its header that breaks a rule, counted from 1, and the first rule that it breaks: G2 to G6.
#[tactic(auto, unfolding(crate::specs::reading::Reading::trace_segment_of, crate::specs::reading::Reading::parts_of))]
pub fn read_trace_segment(alloc: Global, text: &[u8]) -> Result<TraceSegment, TextFault>
    ensures { ReadsBy (spec.trace_segment_of text.now) result }
{
    let Some((header, behind)) = halves_of(text) else {
        return Err(refused_by(
            b'G',
            LineRefused {
                line: 0,
                rule: NO_BLANK_LINE,
            },
        ));
    };
    let trace = match read_trace(alloc, behind) {
        Ok(trace) => trace,
        Err(fault) => return Err(fault),
    };
    match read_header(alloc, trace.config(), header) {
        Ok((before, machine)) => Ok(TraceSegment {
            before,
            machine,
            trace,
        }),
        Err(fault) => Err(fault),
    }
}
