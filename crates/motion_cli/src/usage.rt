// The words that the program takes.

ghost use Rattle.motion_cli.specs.Plans.{usage_plan};
ghost use Rattle.job_ends.specs.Ends.{EndsBy};

use job_ends::{Status, say_all};
use outside::Sink;

/// The line that says which words the program takes.
const USAGE: &[u8] =
    b"usage: motion bench FILE | run CONFIG PROGRAM | check TRACE | gen SEED | migrate TRACE \
    | st CONFIG FILE | switches TRACE FILE | standby FILE CUT | scope TRACE WORKERS\n";

/// Says which words the program takes.
pub fn say_usage<K: Sink>(out: &mut K) -> Status
    ensures { EndsBy (record { count = K.count out.old; told = K.told out.old })
        (record { count = K.count out.new; told = K.told out.new }) usage_plan result }
{
    say_all(USAGE, Status::Usage, out)
}
