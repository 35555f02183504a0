// The top call of the program.

ghost use Rattle.std.specs.Prelude.{◌≡◌, ◌≢◌, ◌⊎◌, ◌≤◌, ◌+◌, length, None, Ok, Err, IfErr, IfOk, OnErr};
ghost use Rattle.std.specs.IoError.{error_kind};
ghost use Rattle.command_words.specs.Args.{words_of};
ghost use Rattle.command_words.specs.Requests.{asked_of, run_of};
ghost use Rattle.job_ends.specs.Ends.{EndsBy, EndsEarly};
ghost use Rattle.motion_cli.specs.Ends.{EndsByWords};
ghost use Rattle.motion_cli.specs.Plans.{usage_plan};
ghost use Rattle.motion_cli.specs.Said.{IsSaid};
ghost use Rattle.outside.specs.Faults.{Rose};
ghost use Rattle.run_job.specs.Joined.{JoinsAll};

use crate::serve::serve;
use crate::usage::say_usage;
use bench_job::room_leads_to_ok;
use command_words::{Words, asked, words_from};
use job_ends::Status;
use outside::{Files, Gate, Host, MOST_JOBS, OutOfMemory, Sink, Spawner};
use run_job::PlantJob;
use std::alloc::Global;
use std::env::Args;
use std::io::{self, ErrorKind};
use std::sync::Wait;

/// Does what the arguments of the process ask for: `top` by their words. Arguments that are no
/// texts are a faulty command line.
pub fn top_of_args<F: Files, K: Sink, H: Host + Wait + Sync, G: Gate + Drop + Send + 'static>(
    rt: &H,
    alloc: Global,
    args: io::Result<Args>,
    files: &mut F,
    out: &mut K,
    spawner: &mut Spawner<H, PlantJob<G>>,
    gate: &G,
) -> Status
    requires few { length spawner.old.jobs + 24 ≤ MOST_JOBS }
    ensures words { IfOk args (λ all. EndsByWords (F.told files.old)
        (Rose (F.count files.old) (F.count files.new))
        (Rose spawner.old.faults spawner.new.faults)
        (λ n. length spawner.new.jobs ≡ length spawner.old.jobs + n) (words_of all)
        (record { count = K.count out.old; told = K.told out.old })
        (record { count = K.count out.new; told = K.told out.new }) result ⊎
        EndsEarly (record { count = K.count out.old; told = K.told out.old })
        (record { count = K.count out.new; told = K.told out.new }) result) }
    ensures said { IfOk args (λ all. IsSaid (F.told files.old)
        (Rose (F.count files.old) (F.count files.new))
        (Rose spawner.old.faults spawner.new.faults)
        (λ n. length spawner.new.jobs ≡ length spawner.old.jobs + n) (asked_of (words_of all))
        (record { count = K.count out.old; told = K.told out.old })
        (record { count = K.count out.new; told = K.told out.new }) result ⊎
        EndsEarly (record { count = K.count out.old; told = K.told out.old })
        (record { count = K.count out.new; told = K.told out.new }) result) }
    ensures faulty { IfErr args (λ error. error_kind error ≢ ErrorKind.OutOfMemory →
        EndsBy (record { count = K.count out.old; told = K.told out.old })
        (record { count = K.count out.new; told = K.told out.new }) usage_plan result) }
    ensures memory { IfErr args (λ error. error_kind error ≡ ErrorKind.OutOfMemory →
        EndsEarly (record { count = K.count out.old; told = K.told out.old })
        (record { count = K.count out.new; told = K.told out.new }) result) }
{
    match args {
        Ok(args) => {
            let words = words_from(alloc, args);
            top_of_words(rt, alloc, words, files, out, spawner, gate)
        }
        Err(error) if error.kind() == ErrorKind::OutOfMemory => Status::OutOfMemory,
        Err(_) => say_usage(out),
    }
}

// Does what the words ask for, if there was memory for them.
fn top_of_words<F: Files, K: Sink, H: Host + Wait + Sync, G: Gate + Drop + Send + 'static>(
    rt: &H,
    alloc: Global,
    words: Result<Words, OutOfMemory>,
    files: &mut F,
    out: &mut K,
    spawner: &mut Spawner<H, PlantJob<G>>,
    gate: &G,
) -> Status
    requires few { length spawner.old.jobs + 24 ≤ MOST_JOBS }
    ensures words { IfOk words (λ all. EndsByWords (F.told files.old)
        (Rose (F.count files.old) (F.count files.new))
        (Rose spawner.old.faults spawner.new.faults)
        (λ n. length spawner.new.jobs ≡ length spawner.old.jobs + n) all
        (record { count = K.count out.old; told = K.told out.old })
        (record { count = K.count out.new; told = K.told out.new }) result) }
    ensures said { IfOk words (λ all. IsSaid (F.told files.old)
        (Rose (F.count files.old) (F.count files.new))
        (Rose spawner.old.faults spawner.new.faults)
        (λ n. length spawner.new.jobs ≡ length spawner.old.jobs + n) (asked_of all)
        (record { count = K.count out.old; told = K.told out.old })
        (record { count = K.count out.new; told = K.told out.new }) result) }
    ensures memory { OnErr words (EndsEarly
        (record { count = K.count out.old; told = K.told out.old })
        (record { count = K.count out.new; told = K.told out.new }) result) }
{
    match words {
        Ok(words) => top(rt, alloc, &words, files, out, spawner, gate),
        Err(OutOfMemory) => Status::OutOfMemory,
    }
}

/// Does what the words ask for with the files, writes to the output, and answers how it ended. A
/// run starts its threads by the spawner, and each turn of a task passes a twin of the gate.
///
/// Where it answers Ok, CyclesOver or HistoryFull to `bench`, `run` or `st`, what was written is
/// the trace of a bench or of a run, as the headlines say, and `standby` is as `bench`; where it
/// answers Ok to `migrate`, the trace that was read, again; to `gen`, the line of the load
/// that the seed generates; to `switches`, the edges of the switches in a legal trace; to `scope`,
/// the report of the trace. Where it answers Legal to `check`, the text is a legal trace; or it
/// begins with `segment,` and is a trace segment of one, a machine may begin as its header
/// says, the trace after the header is legal from that machine on, and after the line stands the
/// header with which the next trace segment must begin. Each status comes of its cause; and where
/// the files are there and no count of faults rose, no fault comes but out of memory. A run waits
/// for its threads, so that it may never return.
pub fn top<F: Files, K: Sink, H: Host + Wait + Sync, G: Gate + Drop + Send + 'static>(
    rt: &H,
    alloc: Global,
    words: &Words,
    files: &mut F,
    out: &mut K,
    spawner: &mut Spawner<H, PlantJob<G>>,
    gate: &G,
) -> Status
    requires few { length spawner.old.jobs + 24 ≤ MOST_JOBS }
    ensures ends { EndsByWords (F.told files.old) (Rose (F.count files.old) (F.count files.new))
        (Rose spawner.old.faults spawner.new.faults)
        (λ n. length spawner.new.jobs ≡ length spawner.old.jobs + n)
        words.now (record { count = K.count out.old; told = K.told out.old })
        (record { count = K.count out.new; told = K.told out.new }) result }
    ensures said { IsSaid (F.told files.old) (Rose (F.count files.old) (F.count files.new))
        (Rose spawner.old.faults spawner.new.faults)
        (λ n. length spawner.new.jobs ≡ length spawner.old.jobs + n)
        (asked_of words.now) (record { count = K.count out.old; told = K.told out.old })
        (record { count = K.count out.new; told = K.told out.new }) result }
    ensures joined { JoinsAll spawner.old.jobs spawner.new.jobs }
    ensures alone { run_of words.now ≡ None → spawner.new ≡ spawner.old }
{
    // laws
    room_leads_to_ok();
    match asked(alloc, words) {
        Ok(asked) => serve(rt, alloc, asked, files, out, spawner, gate),
        Err(OutOfMemory) => Status::OutOfMemory,
    }
}
