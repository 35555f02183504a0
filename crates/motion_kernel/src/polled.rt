// The instances that find something at a cycle's end.

ghost use Rattle.std.specs.Prelude.{◌≡◌, IfOk, OnOk};
ghost use Rattle.motion_history.specs.Setup.{IsSetup};
ghost use Rattle.motion_kernel.specs.cycles.Polled as spec;

use motion_history::Config;
use plc_types::BlockKind;
use std::alloc::{AllocError, Global};

// Whether an instance of a block of this kind finds something at a cycle's end.
fn finds(kind: BlockKind) -> bool
    ensures { result ≡ spec.finds kind }
{
    matches!(
        kind,
        BlockKind::Power | BlockKind::Stop | BlockKind::GroupStop
    )
}

// Adds an instance to some where it is one that does.
fn add_polled(polled: &mut Vec<u16>, instance: u16, kind: BlockKind) -> Result<(), AllocError>
    ensures { OnOk result (polled.new.items ≡ spec.with_polled_of kind instance
        polled.old.items) }
{
    if finds(kind) {
        polled.push(instance)?;
    }
    Ok(())
}

/// The instances that find something at a cycle's end.
pub fn polled_in(alloc: Global, config: &Config) -> Result<Vec<u16>, AllocError>
    requires { IsSetup config.now }
    ensures { IfOk result (λ v. v.items ≡ spec.polled_of config.now) }
{
    let mut polled = Vec::new(alloc);
    for (instance, block) in config.blocks().iter().enumerate() {
        add_polled(&mut polled, instance as u16, block.kind)?;
    }
    Ok(polled)
}
