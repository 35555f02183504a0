// Laws of legal traces: each is the contract of a function that does nothing.

ghost use Rattle.trace_check.specs.KeptHistories.{KeptHistoriesAreReadBack};
ghost use Rattle.trace_check.specs.Laws.{MigratedTracesAreLegal, TextsTellHistories, TracesTellHistories};

use motion_kernel::{machines_stay_kept, rows_are_counted};
use trace_text::traces_are_read_back;

/// A trace is that of at most one legal history, offsets too. So two legal histories of one
/// configuration that a version can hold have different texts of that version. Nothing runs.
pub fn traces_tell_their_history()
    ensures traces { TracesTellHistories }
    ensures texts { TextsTellHistories }
{
    traces_are_read_back();
}

/// The text of the history of a legal trace that was read, in version 2, or in version 3 where the
/// trace is of version 3 or the machine has a kind of block that only version 3 has, is read as a
/// legal trace: of the same machine, the same history and the same drives. Nothing runs.
pub fn migrated_traces_are_legal()
    ensures { MigratedTracesAreLegal }
{
    traces_are_read_back();
    rows_are_counted();
}

/// The trace of a history that a kernel keeps, and of what the drives took, is read as that of its
/// machine, this history and these drives, in each version that can hold the machine. Nothing runs.
pub fn kept_histories_are_read_back()
    ensures { KeptHistoriesAreReadBack }
{
    traces_are_read_back();
    rows_are_counted();
    machines_stay_kept();
}
