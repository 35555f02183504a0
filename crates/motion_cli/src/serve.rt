// What is asked is done.

ghost use Rattle.std.specs.Prelude.{◌≡◌, ◌≤◌, ◌+◌, None, Some, length};
ghost use Rattle.std.specs.Option.{option_and_then, option_map};
ghost use Rattle.job_ends.specs.Files.{EndsByText};
ghost use Rattle.motion_cli.specs.Ends.{EndsByJob, EndsByRequest};
ghost use Rattle.motion_cli.specs.Plans as plans;
ghost use Rattle.command_words.specs.Requests.{files_of, request_told};
ghost use Rattle.outside.specs.Faults.{Rose};
ghost use Rattle.run_job.specs.Joined.{JoinsAll};

use crate::usage::say_usage;
use bench_job::run_text;
use command_words::{Job, Request};
use job_ends::{Status, read_text};
use load_job::run_load;
use outside::{Files, Gate, Host, MOST_JOBS, Sink, Spawner};
use run_job::{PlantJob, RunNames, run_files};
use scope_job::scope_file;
use segment_job::{check_trace_segment_text, is_trace_segment};
use st_job::st_files;
use std::alloc::Global;
use std::sync::Wait;
use switch_job::switch_files;
use trace_jobs::{check_text, migrate_text};

/// Does what is asked, or says what can be asked.
pub fn serve<F: Files, K: Sink, H: Host + Wait + Sync, G: Gate + Drop + Send + 'static>(
    rt: &H,
    alloc: Global,
    asked: Option<Request<'_>>,
    files: &mut F,
    out: &mut K,
    spawner: &mut Spawner<H, PlantJob<G>>,
    gate: &G,
) -> Status
    requires few { length spawner.old.jobs + 24 ≤ MOST_JOBS }
    ensures ends { EndsByRequest (F.told files.old) (Rose (F.count files.old) (F.count files.new))
        (Rose spawner.old.faults spawner.new.faults)
        (λ n. length spawner.new.jobs ≡ length spawner.old.jobs + n)
        (option_map request_told asked.entry) (record { count = K.count out.old; told = K.told out.old })
        (record { count = K.count out.new; told = K.told out.new }) result }
    ensures joined { JoinsAll spawner.old.jobs spawner.new.jobs }
    ensures alone { option_and_then files_of (option_map request_told asked.entry) ≡ None →
        spawner.new ≡ spawner.old }
{
    match asked {
        Some(request) => serve_request(rt, alloc, request, files, out, spawner, gate),
        None => say_usage(out),
    }
}

// Does what a request asks.
fn serve_request<F: Files, K: Sink, H: Host + Wait + Sync, G: Gate + Drop + Send + 'static>(
    rt: &H,
    alloc: Global,
    request: Request<'_>,
    files: &mut F,
    out: &mut K,
    spawner: &mut Spawner<H, PlantJob<G>>,
    gate: &G,
) -> Status
    requires few { length spawner.old.jobs + 24 ≤ MOST_JOBS }
    ensures ends { EndsByRequest (F.told files.old) (Rose (F.count files.old) (F.count files.new))
        (Rose spawner.old.faults spawner.new.faults)
        (λ n. length spawner.new.jobs ≡ length spawner.old.jobs + n)
        (Some (request_told request.entry)) (record { count = K.count out.old; told = K.told out.old })
        (record { count = K.count out.new; told = K.told out.new }) result }
    ensures joined { JoinsAll spawner.old.jobs spawner.new.jobs }
    ensures alone { files_of (request_told request.entry) ≡ None → spawner.new ≡ spawner.old }
{
    match request {
        Request::File { job, name } => serve_file(alloc, Work::of(job), name, files, out),
        Request::Run { config, program } => {
            let names = RunNames { config, program };
            run_files(rt, alloc, &names, files, out, spawner, gate)
        }
        Request::Load { seed } => run_load(alloc, seed, out),
        Request::Standby { name, cut } => serve_file(
            alloc,
            Work::handed_over(cut),
            name,
            files,
            out,
        ),
        Request::StructuredText { config, program } => {
            st_files(alloc, config, program, files, out)
        }
        Request::Switches { trace, switches } => switch_files(alloc, trace, switches, files, out),
        Request::Scope { trace, workers } => {
            scope_file(rt, alloc, trace, workers.get(), files, out)
        }
    }
}

// What is to be done with a file, and after how many events a bench is handed over to a standby.
#[derive(Clone, Copy)]
struct Work {
    job: Job,
    cut: Option<u32>,
}

impl Work {
    // A job that is done by one alone.
    fn of(job: Job) -> Work
        ensures job { result.job ≡ job }
        ensures cut { result.cut ≡ None }
    {
        Work { job, cut: None }
    }

    // A bench that is handed over.
    fn handed_over(cut: u32) -> Work
        ensures job { result.job ≡ Job.Bench }
        ensures cut { result.cut ≡ Some cut }
    {
        Work {
            job: Job::Bench,
            cut: Some(cut),
        }
    }
}

// The most bytes of a file: 16 MiB of a bench, 256 MiB of a trace.
fn most_bytes(job: Job) -> u64
    ensures { result ≡ plans.most_of job }
{
    match job {
        Job::Bench => 16_777_216,
        Job::Check | Job::Migrate => 268_435_456,
    }
}

// Reads a file, and does with it what is asked.
fn serve_file<F: Files, K: Sink>(
    alloc: Global,
    work: Work,
    name: &str,
    files: &mut F,
    out: &mut K,
) -> Status
    ensures { EndsByText (F.told files.old) (Rose (F.count files.old) (F.count files.new)) name.now
        (plans.most_of work.job) (λ text. EndsByJob work.job name.now text
        (record { count = K.count out.old; told = K.told out.old })
        (record { count = K.count out.new; told = K.told out.new }) result)
        (record { count = K.count out.old; told = K.told out.old })
        (record { count = K.count out.new; told = K.told out.new }) result }
{
    match read_text(alloc, 1, name, most_bytes(work.job), files, out) {
        Ok(text) => do_job(alloc, work, name, text, out),
        Err(status) => status,
    }
}

// Does what is asked with a text.
fn do_job<K: Sink>(alloc: Global, work: Work, name: &str, text: Vec<u8>, out: &mut K) -> Status
    ensures { EndsByJob work.job name.now text.items
        (record { count = K.count out.old; told = K.told out.old })
        (record { count = K.count out.new; told = K.told out.new }) result }
{
    match work.job {
        Job::Bench => run_text(alloc, name, text.as_slice(), work.cut, out),
        Job::Check => verify_text(alloc, name, text, out),
        Job::Migrate => migrate_text(alloc, name, text, out),
    }
}

// Verifies a text: as a trace segment where it begins as one, else as a trace.
fn verify_text<K: Sink>(alloc: Global, name: &str, text: Vec<u8>, out: &mut K) -> Status
    ensures { EndsByJob Job.Check name.now text.items
        (record { count = K.count out.old; told = K.told out.old })
        (record { count = K.count out.new; told = K.told out.new }) result }
{
    if is_trace_segment(text.as_slice()) {
        check_trace_segment_text(alloc, name, text, out)
    } else {
        check_text(alloc, name, text, out)
    }
}
