// A report is written.

ghost use Rattle.std.specs.Prelude.{◌≡◌, IfOk};
ghost use Rattle.scope_report.specs.Lines.{report_text};
ghost use Rattle.trace_text.specs.writing.Writes.{Writes};

use crate::lines::{axis_lines, block_lines};
use crate::report::Report;
use outside::{Sink, SinkFailed, write_all};
use std::alloc::{AllocError, Global};
use trace_text::{TraceFault, parts_are_beginnings};

/// Writes the lines of a report: one for each axis and then one for each block, in the order of the
/// trace. A fault of the output comes only where its count of faults rose; then the first bytes
/// are written. For out of memory nothing is written.
pub fn write_report<K: Sink>(alloc: Global, report: &Report, out: &mut K) -> Result<(), TraceFault>
    ensures { Writes (record { count = K.count out.old; told = K.told out.old })
        (record { count = K.count out.new; told = K.told out.new })
        (report_text report.now) result }
{
    // laws
    parts_are_beginnings();
    match text_of(alloc, report) {
        Ok(text) => match write_all(out, text.as_slice()) {
            Ok(()) => Ok(()),
            Err(SinkFailed) => Err(TraceFault::WriteFault),
        },
        Err(_) => Err(TraceFault::OutOfMemory),
    }
}

// The text of a report.
fn text_of(alloc: Global, report: &Report) -> Result<Vec<u8>, AllocError>
    ensures { IfOk result (λ text. text.items ≡ report_text report.now) }
{
    let mut text = axis_lines(alloc, report.axes())?;
    text.extend_from_slice(block_lines(alloc, report.blocks())?.as_slice())?;
    Ok(text)
}
