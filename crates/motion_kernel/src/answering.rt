// What an instance is notified of its own call.

ghost use Rattle.std.specs.Prelude.{◌≡◌, ◌<◌, if◌then◌else◌, IfSome, Some, length, map, slice_get};
ghost use Rattle.motion_kernel.specs.calls.Calls as spec;
ghost use Rattle.motion_kernel.specs.Seen.{machine_of};

use crate::asking::is_done_at_once;
use crate::parts::Parts;
use command_pool::{Finish, Refusal};
use fb_outputs::Instance;
use plc_types::BlockKind;

// What an instance is notified of its own call.
fn tell_answer(kind: BlockKind, answer: Result<bool, Refusal>, instance: &mut Instance)
    ensures { instance.new ≡ spec.answered_instance kind answer instance.old }
{
    match answer {
        Err(refusal) => instance.on_finish(Finish::Error(refusal.number)),
        Ok(true) => instance.on_start(true),
        Ok(false) => if is_done_at_once(kind) {
            instance.on_finish(Finish::Done)
        } else {
            instance.on_start(false)
        },
    }
}

/// The same of the instance of this number.
pub fn answer(instance: u16, kind: BlockKind, answer: Result<bool, Refusal>, parts: &mut Parts)
    requires { instance < length (machine_of parts.old).instances }
    ensures { machine_of parts.new ≡ spec.with_answer instance kind answer (machine_of parts.old) }
{
    tell_answer(kind, answer, &mut parts.instances[instance as usize]);
}
