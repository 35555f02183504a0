// A bench that is run.

ghost use Rattle.std.specs.Prelude.{◌≡◌, IfOk, OnOk};
ghost use Rattle.motion_kernel.specs.Histories.{IsLegal};
ghost use Rattle.motion_laws.specs.Headline.{KeepsHeadline};
ghost use Rattle.bench_run.specs.Going.{IsGoing, run_at};
ghost use Rattle.bench_run.specs.LegalRun.{IsLegalRun};
ghost use Rattle.bench_run.specs.Run as spec;

use crate::events::make_all;
use bench_text::Bench;
use drive_sim::Drive;
use hot_standby::PrimaryKernel;
use machine_drives::{drives_can_be_opened, open_drives};
use motion_history::OutOfMemory;
use motion_kernel::Kernel;
use motion_laws::histories_keep_the_headline;
use std::alloc::Global;

/// Why an event of a bench can't be made.
#[derive(Clone, Copy, Debug, PartialEq, Eq)]
pub enum RunFault {
    /// It is a cycle, and none is left.
    CyclesOver,
    /// The history has no room left.
    HistoryFull,
}

/// A bench that was run: its kernel, its drives, and whether all its events were made.
#[derive(Drop)]
pub struct Ran {
    pub kernel: Kernel,
    pub drives: Vec<Drive>,
    pub ending: Result<(), RunFault>,
}

/// The history of a kernel is legal, and its motion is as the headline says. Nothing runs.
pub fn histories_are_legal(kernel: &Kernel)
    ensures legal { IsLegal kernel.now.config kernel.now.history }
    ensures motion { KeepsHeadline kernel.now.config kernel.now.history }
{
    histories_keep_the_headline();
    let _ = kernel.history();
}

/// Runs a bench: its events one after another, until one can't be made. Where a number of events is
/// reported, a standby follows the kernel for this many, or for all of them, and then takes its
/// place: the run is the same.
#[tactic(auto, unfolding(crate::specs::Run::run_of))]
pub fn run(alloc: Global, bench: &Bench, cut: Option<u32>) -> Result<Ran, OutOfMemory>
    ensures made { IfOk result (λ r.
        run_at r.kernel r.drives.items r.ending ≡ spec.run_of bench.now) }
    ensures config { IfOk result (λ r. r.kernel.config ≡ bench.now.config) }
    ensures going { IfOk result (λ r. IsGoing r.kernel r.drives.items) }
    ensures legal { OnOk result (IsLegalRun bench.now) }
{
    // laws
    drives_can_be_opened();
    let config = bench.config();
    let mut drives = open_drives(alloc, config.axes(), bench.drives().as_slice())?;
    let mut primary = PrimaryKernel::open(alloc, config.copy(alloc)?, cut)?;
    let ending = make_all(&mut primary, drives.as_mut_slice(), bench.lines());
    let kernel = primary.finish();
    // laws
    histories_are_legal(&kernel);
    Ok(Ran {
        kernel,
        drives,
        ending,
    })
}
