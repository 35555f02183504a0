// What an instance shows in a call's reply: none, or one of its command's states and results.

ghost use Rattle.std.specs.Prelude.{◌≡◌};
ghost use Rattle.fb_outputs.specs.Steps as spec;
ghost use Rattle.fb_outputs.specs.Steps.{outputs_of};

use crate::instance::{Progress, is_power};
use command_pool::Finish;
use plc_types::{BlockKind, Outputs};

/// The outputs of an instance.
pub fn outputs_now(kind: BlockKind, execute: bool, reached: bool, progress: Progress) -> Outputs
    ensures { result ≡ outputs_of
        (record { kind = kind; execute = execute; reached = reached; progress = progress }) }
{
    if is_power(kind) {
        Outputs {
            busy: execute,
            reached: execute && reached,
            ..NOTHING
        }
    } else {
        outputs_by(is_stop(kind), execute, reached, progress)
    }
}

// The outputs of a block that is no Power.
fn outputs_by(stop: bool, execute: bool, reached: bool, progress: Progress) -> Outputs
    ensures { result ≡ spec.outputs_by stop execute reached progress }
{
    match progress {
        Progress::Idle => NOTHING,
        Progress::Waiting => Outputs {
            busy: true,
            ..NOTHING
        },
        Progress::Active => Outputs {
            busy: true,
            active: true,
            reached: !stop && reached,
            ..NOTHING
        },
        Progress::Ended { finish, .. } => result_of(stop && execute && reached, finish),
    }
}

// The outputs of a result.
fn result_of(holds: bool, finish: Finish) -> Outputs
    ensures { result ≡ spec.result_of holds finish }
{
    match finish {
        Finish::Done => Outputs {
            active: holds,
            done: true,
            ..NOTHING
        },
        Finish::Aborted => Outputs {
            aborted: true,
            ..NOTHING
        },
        Finish::Error(error_id) => Outputs {
            error: true,
            error_id,
            ..NOTHING
        },
    }
}

const NOTHING: Outputs = Outputs {
    busy: false,
    active: false,
    done: false,
    aborted: false,
    error: false,
    error_id: 0,
    reached: false,
};

// Whether the kind holds its axis or group while its Execute is true.
fn is_stop(kind: BlockKind) -> bool
    ensures { result ≡ spec.is_stop kind }
{
    matches!(kind, BlockKind::Stop | BlockKind::GroupStop)
}
