// The version in which the trace of a machine is written.

ghost use Rattle.std.specs.Prelude.{◌≡◌};
ghost use Rattle.trace_text.specs.Trace.{BrakeAlike, CanHold};
ghost use Rattle.trace_text.specs.Trace as spec;

use motion_history::{BlockDef, Config, TraceVersion};
use plc_types::first_version;

// Whether a version has the kind of a block.
fn has_kind(version: TraceVersion, block: &BlockDef) -> bool
    ensures { result ≡ spec.has_kind version block.now }
{
    first_version(block.kind) <= version.number()
}

// Whether a version has the kind of each block.
#[tactic(auto, unfolding(crate::specs::Trace::has_kinds))]
fn has_kinds(version: TraceVersion, blocks: &[BlockDef]) -> bool
    ensures { result ≡ spec.has_kinds version blocks.now }
{
    blocks.iter().all(|block| has_kind(version, block))
}

/// The version in which the trace of a machine is written: this one, or version 3 where this one
/// hasn't the machine's kinds of block.
#[tactic(auto, unfolding(crate::specs::Trace::trace_version))]
pub fn trace_version(version: TraceVersion, config: &Config) -> TraceVersion
    ensures version { result ≡ spec.trace_version version config.now }
    ensures holds { (version ≡ TraceVersion.One → BrakeAlike config.now) →
        CanHold result config.now }
{
    if has_kinds(version, config.blocks()) {
        version
    } else {
        TraceVersion::Three
    }
}
