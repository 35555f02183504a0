// Laws of refused calls: each is the contract of a function that does nothing.

ghost use Rattle.std.specs.Prelude.{◌≡◌, ◌<◌, ℕ, List, [], ◌∷◌, ◌++◌, length};
ghost use Rattle.plc_types.specs.declared.inputs.Inputs.{Inputs};
ghost use Rattle.plc_types.specs.declared.outputs.Outputs.{Outputs};
ghost use Rattle.motion_history.specs.Entries.{Entry, call};
ghost use Rattle.motion_history.specs.Setup.{Setup, IsSetup};
ghost use Rattle.motion_kernel.specs.calls.Calls.{after_call, reply_of};
ghost use Rattle.motion_kernel.specs.Histories.{IsPast, machine_after};
ghost use Rattle.motion_kernel.specs.Machine.{Machine};
ghost use Rattle.motion_kernel.specs.kept.Machine.{AreWhole};
ghost use Rattle.motion_laws.specs.entries.Refusals.{IsRefusalNumber, IsRefused, machine_refused};
ghost use Rattle.motion_laws.specs.error_ids.Calls.{RefusalsAreFirst};

use crate::result_laws::results_are_told;

/// A call that is refused, by an ErrorID from 1 to 19, changes nothing but its own instance: every
/// axis, every group and every command that waits stays as it is, except that the instance has its
/// earlier command no longer. So it is in every machine, and after every entry of a past.
pub fn refusals_change_nothing()
    ensures call { (s : Setup) (m : Machine) (k : ℕ) (i : Inputs) → k < length s.blocks →
        IsRefused m k i (reply_of s m k i) →
        after_call s m k i ≡ machine_refused k (reply_of s m k i).error_id m }
    ensures number { (s : Setup) (m : Machine) (k : ℕ) (i : Inputs) → k < length s.blocks →
        IsRefused m k i (reply_of s m k i) → IsRefusalNumber (reply_of s m k i).error_id }
    ensures entries { (s : Setup) (made more : List Entry) (k : ℕ) (i : Inputs)
        (reply : Outputs) → IsPast s (made ++ call k i reply ∷ more) →
        IsRefused (machine_after s made) k i reply →
        machine_after s (made ++ call k i reply ∷ [])
        ≡ machine_refused k reply.error_id (machine_after s made) }
    ensures numbers { (s : Setup) (made more : List Entry) (k : ℕ) (i : Inputs)
        (reply : Outputs) → IsPast s (made ++ call k i reply ∷ more) →
        IsRefused (machine_after s made) k i reply → IsRefusalNumber reply.error_id }
{}

/// A call that is refused is refused by the first ErrorID of its kind's table whose condition
/// holds, of what the call asks of its axis or its group, where the instance has its earlier
/// command no longer; and where a call that asks for a command is not refused, none of them
/// holds. So it is in every past.
pub fn refusals_are_the_first()
    ensures first { (s : Setup) (es : List Entry) → IsSetup s → AreWhole s → IsPast s es →
        RefusalsAreFirst s es }
{
    results_are_told();
}
