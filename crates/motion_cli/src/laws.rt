// Laws of the program: each is the contract of a function that does nothing.

ghost use Rattle.motion_cli.specs.Again.{BenchTracesAreLegal, RunTracesAreLegal, StTracesAreLegal};
ghost use Rattle.motion_cli.specs.Laws.{BenchTracesKeepLaws, LoadsKeepLaws, RunTracesKeepLaws, StTracesKeepLaws};

use bench_run::histories_keep_their_laws;

/// What is read of the trace that `motion bench` wrote is a legal trace; so `motion check` answers
/// Legal on it, if it has at most 256 MiB. Nothing runs.
pub fn bench_traces_are_legal()
    ensures { BenchTracesAreLegal }
{}

/// The same of the trace that `motion run` wrote. Nothing runs.
pub fn run_traces_are_legal()
    ensures { RunTracesAreLegal }
{}

/// The same of the trace that `motion st` wrote. Nothing runs.
pub fn st_traces_are_legal()
    ensures { StTracesAreLegal }
{}

/// The history of each trace that `bench`, `run` and `st` wrote, and of each line that `gen` wrote,
/// keeps all laws of the machine, and not only those that the headlines name. Nothing runs.
pub fn written_histories_keep_their_laws()
    ensures bench { BenchTracesKeepLaws }
    ensures run { RunTracesKeepLaws }
    ensures tasks { StTracesKeepLaws }
    ensures loads { LoadsKeepLaws }
{
    histories_keep_their_laws();
}
