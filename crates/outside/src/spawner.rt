// Starting jobs in threads, and joining them.

ghost use Rattle.std.specs.Prelude.{◌≡◌, ◌≢◌, ℕ, ◌+◌, ◌-◌, ◌^◌, ◌<◌, ◌≤◌, ◌∷◌, ◌++◌, [], min, Some, None, Err, IfOk, IfSome, IsSome, IsTrue, ◌↔◌, OnErr, OnOk, Contains, length, slice_get, slice_set, vec_len, vec_capacity};
ghost use Rattle.outside.specs.Started.{Started, job_of};

use crate::OutOfMemory;
use crate::worker::{Due, Worker};
use std::alloc::{AllocError, Global};
use std::marker::{Model, PhantomData};
use std::snapshot::Snapshot;
use std::thread;
use std::thread::{PromisedHandle, Threads};

/// Why a job wasn't started. The job is then gone.
#[derive(Clone, Copy, Debug, PartialEq, Eq)]
pub enum StartFault {
    /// The thread was refused.
    Refused,
    /// No memory was left.
    OutOfMemory,
}

/// A handle of the host that starts threads, of which each thread has a copy.
pub trait Host: Threads + Copy + Drop + Send + 'static {}

impl<H: Threads + Copy + Drop + Send + 'static> Host for H {}

/// Starts jobs in threads of their own, but those whose start is listed as refused.
#[derive(Drop)]
pub struct Spawner<H: Host, J: Worker<H>> {
    rt: H,
    threads: Vec<Option<PromisedHandle<J::End, Due<H, J>>>>,
    refused: Vec<u32>,
    starts: u32,
    faults: u64,
}

impl<H: Host, J: Worker<H>> Model for Spawner<H, J> {
    ghost use Rattle.outside.specs.Started.{Started};

    ghost Value = { Started J };

    ghost use Rattle.outside.specs.Threads.{started_of, IsSpawner};

    ghost view = { started_of };

    ghost invariant = { IsSpawner };
}

impl<H: Host, J: Worker<H>> Spawner<H, J> {
    /// No job yet, and no start is refused but where the host gives no thread.
    pub fn new(rt: H, alloc: Global) -> Spawner<H, J>
        ensures { result ≡ record { jobs = []; refused = []; starts = 0; faults = 0 } }
    {
        Spawner {
            rt,
            threads: Vec::new(alloc),
            refused: Vec::new(alloc),
            starts: 0,
            faults: 0,
        }
    }

    /// No job yet. The starts of the listed numbers are refused, counted from 1.
    pub fn refusing(rt: H, alloc: Global, refused: &[u32]) -> Result<Spawner<H, J>, OutOfMemory>
        ensures { IfOk result (λ spawner. spawner ≡ record {
          jobs = [];
          refused = refused.now;
          starts = 0;
          faults = 0;
        }) }
    {
        Ok(Spawner {
            rt,
            threads: Vec::new(alloc),
            refused: Vec::from_slice(alloc, refused)?,
            starts: 0,
            faults: 0,
        })
    }

    /// How many jobs were started.
    pub fn started(&self) -> u32
        ensures { result ≡ length self.now.jobs }
    {
        self.threads.len() as u32
    }

    /// Starts a job in a thread of its own, and answers its number, counted from 0.
    pub fn start(&mut self, job: J) -> Result<u32, StartFault>
        requires ready { J.ready job }
        requires few { length self.old.jobs < 1000000000 }
        ensures number { IfOk result (λ number. number ≡ length self.old.jobs) }
        ensures started { OnOk result (self.new.jobs ≡ self.old.jobs ++ Some job ∷ []) }
        ensures job { IfOk result (λ number. job_of self.new number ≡ Some job) }
        ensures others { (n : ℕ) → n < length self.old.jobs →
            job_of self.new n ≡ job_of self.old n }
        ensures unchanged { OnErr result (self.new.jobs ≡ self.old.jobs) }
        ensures refused { result ≡ Err StartFault.Refused →
            self.new.faults ≡ min (self.old.faults + 1) (2 ^ 64 - 1) }
        ensures kept { result ≢ Err StartFault.Refused → self.new.faults ≡ self.old.faults }
        ensures listed { Contains self.old.refused self.new.starts →
            result ≡ Err StartFault.Refused }
        ensures counts { self.new.starts ≡ min (self.old.starts + 1) (2 ^ 32 - 1) }
        ensures list { self.new.refused ≡ self.old.refused }
    {
        self.starts = self.starts.saturating_add(1);
        if self.refused.contains(&self.starts) {
            return Err(self.refuse());
        }
        let number = self.threads.len() as u32;
        if self.threads.reserve(1).is_err() {
            return Err(StartFault::OutOfMemory);
        }
        let Ok(thread) = start_thread(self.rt, job) else {
            return Err(self.refuse());
        };
        push_within(&mut self.threads, Some(thread));
        Ok(number)
    }

    // Counts a thread that was refused.
    fn refuse(&mut self) -> StartFault
        ensures fault { result ≡ StartFault.Refused }
        ensures counted { self.new ≡ record self.old {
          faults = min (self.old.faults + 1) (2 ^ 64 - 1);
        } }
    {
        self.faults = self.faults.saturating_add(1);
        StartFault::Refused
    }

    /// Waits for the end of a started job that wasn't joined before.
    pub fn join(&mut self, number: u32) -> J::End
        requires started { IsSome (job_of self.old number) }
        ensures works { IfSome (job_of self.old number) (λ job. J.works job result) }
        ensures joined { self.new ≡ record self.old {
          jobs = slice_set self.old.jobs number None;
        } }
        ensures others { (n : ℕ) → n ≢ number → job_of self.new n ≡ job_of self.old n }
    {
        let rt = self.rt;
        take_at(&mut self.threads, number as usize).join(&rt)
    }
}

// A thread that does the job.
fn start_thread<H: Host, J: Worker<H>>(
    rt: H,
    job: J,
) -> Result<PromisedHandle<J::End, Due<H, J>>, AllocError>
    requires ready { J.ready job }
    ensures { IfOk result (λ thread. thread.promise.job.value ≡ job) }
{
    let due = Due {
        job: Snapshot::of(&job),
        host: PhantomData,
    };
    Ok(thread::spawn_with(&rt, due, move || job.work(&rt))?)
}

// Puts an item into room that is there.
fn push_within<T>(list: &mut Vec<T>, item: T)
    requires { vec_len list.old < vec_capacity list.old }
    ensures { list.new.items ≡ list.old.items ++ item ∷ [] }
{
    match list.push(item) {
        Ok(()) => {}
        Err(_) => unreachable!(),
    }
}

// Takes out what stands at a place.
fn take_at<T>(list: &mut Vec<Option<T>>, place: usize) -> T
    requires there { (item : T) × (slice_get list.old.items place ≡ Some (Some item)) }
    ensures was { slice_get list.old.items place ≡ Some (Some result) }
    ensures gone { list.new.items ≡ slice_set list.old.items place None }
{
    match list[place].take() {
        Some(item) => item,
        None => unreachable!(),
    }
}
