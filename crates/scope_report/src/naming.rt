// What is reported of a trace, with the names of its axes and blocks.

ghost use Rattle.std.specs.Prelude.{◌≡◌, IfOk, List, length};
ghost use Rattle.plc_types.specs.declared.outputs.Outputs.{Outputs};
ghost use Rattle.plc_types.specs.declared.axis.AxisRow.{AxisRow};
ghost use Rattle.motion_history.specs.Entries.{Entry};
ghost use Rattle.scope_report.specs.Counting.{counts_of};
ghost use Rattle.scope_report.specs.Merging.{part_of};
ghost use Rattle.scope_report.specs.Shares.{AreCounts, AreParts, IsShareOf};
ghost use Rattle.scope_report.specs.Reports as spec;
ghost use Rattle.trace_text.specs.TraceState.{entries_of};

use crate::counts::Counts;
use crate::part::Part;
use crate::report::{AxisReport, BlockReport, Report};
use crate::share::Share;
use motion_history::BlockDef;
use motion_numbers::OutOfMemory;
use plc_types::{AxisDef, Name};
use std::alloc::Global;
use trace_text::Trace;

/// The report of a trace, by what is reported of all its entries.
pub fn name_all(alloc: Global, trace: &Trace, whole: &Share) -> Result<Report, OutOfMemory>
    requires { IsShareOf trace.now.config (entries_of trace.now) whole.now }
    ensures { IfOk result (λ report. report ≡ spec.report_of trace.now) }
{
    let config = trace.config();
    Ok(Report {
        axes: name_axes(alloc, config.axes(), whole.parts())?,
        blocks: name_blocks(alloc, config.blocks(), whole.counts())?,
    })
}

// The reports of axes, by what is reported of each.
fn name_axes(
    alloc: Global,
    axes: &[AxisDef],
    parts: &[Part],
) -> Result<Vec<AxisReport>, OutOfMemory>
    requires { length parts.now ≡ length axes.now }
    ensures { (es : List Entry) → AreParts es parts.now →
        IfOk result (λ v. v.items ≡ spec.axis_reports_from 0 axes.now es) }
{
    let mut reports = Vec::new(alloc);
    for axis in 0..axes.len() {
        let Ok(()) = reports.push(name_axis(axes[axis].name, &parts[axis])) else {
            return Err(OutOfMemory);
        };
    }
    Ok(reports)
}

// The reports of blocks, by what is reported of each.
fn name_blocks(
    alloc: Global,
    blocks: &[BlockDef],
    counts: &[Counts],
) -> Result<Vec<BlockReport>, OutOfMemory>
    requires { length counts.now ≡ length blocks.now }
    ensures { (es : List Entry) → AreCounts es counts.now →
        IfOk result (λ v. v.items ≡ spec.block_reports_from 0 blocks.now es) }
{
    let mut reports = Vec::new(alloc);
    for block in 0..blocks.len() {
        let Ok(()) = reports.push(name_block(blocks[block].name, &counts[block])) else {
            return Err(OutOfMemory);
        };
    }
    Ok(reports)
}

// The report of an axis of this name.
fn name_axis(name: Name, part: &Part) -> AxisReport
    ensures { (rows : List AxisRow) → part.now ≡ part_of rows →
        result ≡ spec.axis_report_of name rows }
{
    AxisReport {
        name,
        driven: part.driven,
        least: part.least,
        greatest: part.greatest,
        still: part.still,
        travel: part.travel,
    }
}

// The report of a block of this name.
fn name_block(name: Name, counts: &Counts) -> BlockReport
    ensures { (replies : List Outputs) → counts.now ≡ counts_of replies →
        result ≡ spec.block_report_of name replies }
{
    BlockReport {
        name,
        calls: counts.calls,
        done: counts.done,
        errors: counts.errors,
    }
}
