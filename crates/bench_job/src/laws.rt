// Laws of the job: each is the contract of a function that does nothing.

ghost use Rattle.std.specs.Prelude.{ℕ, List};
ghost use Rattle.bench_job.specs.Causes.{BenchCause, HasRoomFor};
ghost use Rattle.job_ends.specs.declared.status.Status.{Status};
ghost use Rattle.job_ends.specs.declared.status.Status.TheVariants as status;

use bench_run::room_is_enough;

/// A bench for whose events there are room and cycles enough is run to its end. Nothing runs.
pub fn room_leads_to_ok()
    ensures { (text : List ℕ) → HasRoomFor text → BenchCause text status.Ok }
{
    room_is_enough();
}
