// The shares of a trace, made by joined work.

ghost use Rattle.std.specs.Prelude.{◌≡◌, ◌+◌, ◌<◌, ◌≤◌, ◌^◌, [], IfOk, length, vec_len};
ghost use Rattle.trace_text.specs.TraceState.{entries_of};
ghost use Rattle.scope_report.specs.Cuts.{cut_at};
ghost use Rattle.scope_report.specs.Shares.{AreShares, IsShareOf};
ghost use Rattle.scope_report.specs.Shares as spec;
ghost use Rattle.scope_report.specs.Reports.{report_of};

use crate::naming::name_all;
use crate::report::Report;
use crate::share::{Share, told_between};
use motion_numbers::OutOfMemory;
use std::alloc::{AllocError, Global};
use std::thread;
use std::thread::Threads;
use trace_text::Trace;

/// The scope report of a trace, made in this many shares, at least one, by joined work: where no
/// thread is had the shares are made one after another. The trace isn't checked.
pub fn scope<R: Threads + Sync>(
    rt: &R,
    alloc: Global,
    trace: &Trace,
    workers: u8,
) -> Result<Report, OutOfMemory>
    requires some { 1 ≤ workers }
    ensures { IfOk result (λ report. report ≡ report_of trace.now) }
{
    let shares = shares_of(rt, alloc, trace, workers)?;
    let whole = join_shares(alloc, trace, shares.as_slice(), workers)?;
    name_all(alloc, trace, &whole)
}

// Where a share of this many begins.
fn cut(count: u64, share: usize, shares: u8) -> u64
    requires some { 1 ≤ shares }
    requires share { share ≤ shares }
    ensures value { result ≡ cut_at count shares share }
    ensures within { result ≤ count }
{
    (count as u128 * share as u128 / shares as u128) as u64
}

// What is reported of nothing, for the axes and the blocks of a trace.
fn nothing_of(alloc: Global, trace: &Trace) -> Result<Share, OutOfMemory>
    ensures { IfOk result (IsShareOf trace.now.config []) }
{
    let config = trace.config();
    Share::new(alloc, config.axes().len(), config.blocks().len())
}

// What is reported of a share, by its number.
fn share_of(alloc: Global, trace: &Trace, number: usize, shares: u8) -> Result<Share, OutOfMemory>
    requires number { number < shares }
    ensures { IfOk result (IsShareOf trace.now.config (spec.share_of trace.now shares number)) }
{
    let count = trace.entries();
    let from = cut(count, number, shares);
    let to = cut(count, number + 1, shares);
    let so_far = nothing_of(alloc, trace)?;
    Ok(told_between(so_far, trace, from, to))
}

// What is reported of each share, by joined work.
fn shares_of<R: Threads + Sync>(
    rt: &R,
    alloc: Global,
    trace: &Trace,
    shares: u8,
) -> Result<Vec<Result<Share, OutOfMemory>>, AllocError>
    ensures len { IfOk result (λ v. vec_len v ≡ shares) }
    ensures each { IfOk result (λ v. AreShares trace.now shares v.items) }
{
    thread::map_indices(
        rt,
        alloc,
        shares as usize,
        &|i| share_of(alloc, trace, i, shares),
    )
}

// What is reported of a trace, by its shares.
fn join_shares(
    alloc: Global,
    trace: &Trace,
    shares: &[Result<Share, OutOfMemory>],
    count: u8,
) -> Result<Share, OutOfMemory>
    requires some { 1 ≤ count }
    requires len { length shares.now ≡ count }
    requires each { AreShares trace.now count shares.now }
    ensures { IfOk result (IsShareOf trace.now.config (entries_of trace.now)) }
{
    let so_far = nothing_of(alloc, trace)?;
    join_all(trace, so_far, shares, count)
}

// Each share is put after those before it.
fn join_all(
    trace: &Trace,
    mut so_far: Share,
    shares: &[Result<Share, OutOfMemory>],
    count: u8,
) -> Result<Share, OutOfMemory>
    requires some { 1 ≤ count }
    requires len { length shares.now ≡ count }
    requires each { AreShares trace.now count shares.now }
    requires nothing { IsShareOf trace.now.config [] so_far }
    ensures { IfOk result (IsShareOf trace.now.config (entries_of trace.now)) }
{
    let _few = trace.entries();
    for share in shares {
        match share {
            Ok(share) => so_far.join(share),
            Err(_) => return Err(OutOfMemory),
        }
    }
    Ok(so_far)
}
