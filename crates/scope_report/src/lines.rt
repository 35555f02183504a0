// The lines of a report.

ghost use Rattle.std.specs.Prelude.{◌≡◌, IfOk, OnOk, ◌++◌};
ghost use Rattle.std.specs.List.{flat_map};
ghost use Rattle.scope_report.specs.Lines as spec;

use crate::report::{AxisReport, BlockReport};
use itoa::Buffer;
use std::alloc::{AllocError, Global};

/// The lines of axes.
pub fn axis_lines(alloc: Global, axes: &[AxisReport]) -> Result<Vec<u8>, AllocError>
    ensures { IfOk result (λ text. text.items ≡ flat_map spec.axis_line axes.now) }
{
    let mut text = Vec::new(alloc);
    for axis in axes {
        text.extend_from_slice(axis_line(alloc, axis)?.as_slice())?;
    }
    Ok(text)
}

/// The lines of blocks.
pub fn block_lines(alloc: Global, blocks: &[BlockReport]) -> Result<Vec<u8>, AllocError>
    ensures { IfOk result (λ text. text.items ≡ flat_map spec.block_line blocks.now) }
{
    let mut text = Vec::new(alloc);
    for block in blocks {
        text.extend_from_slice(block_line(alloc, block)?.as_slice())?;
    }
    Ok(text)
}

// A number, or a dash where there is none.
fn shown(buffer: &mut Buffer, number: Option<i64>) -> &[u8]
    ensures { result.now ≡ spec.shown number }
{
    match number {
        Some(number) => buffer.format(number).as_bytes(),
        None => b"-",
    }
}

// The line of an axis.
#[tactic(auto, unfolding(crate::specs::Lines::axis_line))]
fn axis_line(alloc: Global, axis: &AxisReport) -> Result<Vec<u8>, AllocError>
    ensures { IfOk result (λ line. line.items ≡ spec.axis_line axis.now) }
{
    let mut driven = Buffer::new();
    let mut least = Buffer::new();
    let mut greatest = Buffer::new();
    let mut still = Buffer::new();
    let mut travel = Buffer::new();
    let shares: [&[u8]; 13] = [
        b"axis ",
        axis.name.bytes(),
        b" driven ",
        driven.format(axis.driven).as_bytes(),
        b" least ",
        shown(&mut least, axis.least),
        b" greatest ",
        shown(&mut greatest, axis.greatest),
        b" still ",
        still.format(axis.still).as_bytes(),
        b" travel ",
        travel.format(axis.travel).as_bytes(),
        b"\n",
    ];
    joined(alloc, &shares)
}

// The line of a block.
#[tactic(auto, unfolding(crate::specs::Lines::block_line))]
fn block_line(alloc: Global, block: &BlockReport) -> Result<Vec<u8>, AllocError>
    ensures { IfOk result (λ line. line.items ≡ spec.block_line block.now) }
{
    let mut calls = Buffer::new();
    let mut done = Buffer::new();
    let mut errors = Buffer::new();
    let shares: [&[u8]; 9] = [
        b"block ",
        block.name.bytes(),
        b" calls ",
        calls.format(block.calls).as_bytes(),
        b" done ",
        done.format(block.done).as_bytes(),
        b" errors ",
        errors.format(block.errors).as_bytes(),
        b"\n",
    ];
    joined(alloc, &shares)
}

// Texts after each other.
fn joined(alloc: Global, shares: &[&[u8]]) -> Result<Vec<u8>, AllocError>
    ensures { IfOk result (λ text. text.items ≡ flat_map (λ p. p.now) shares.now) }
{
    let mut text = Vec::new(alloc);
    for share in shares {
        text.extend_from_slice(share)?;
    }
    Ok(text)
}
