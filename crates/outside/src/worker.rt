// Jobs for threads of their own.

use std::marker::PhantomData;
use std::snapshot::Snapshot;
use std::thread::Promise;

/// A job that comes to an end, on hosts of the type `H`. What has to hold of it before, and what
/// holds of its end, is its own.
pub trait Worker<H>: Drop + Send + 'static {
    type End: Drop + Send + 'static;

    // What is to hold of a job that begins.
    ghost ready: { Self → Type 0 };

    // What holds of a job and its end.
    ghost works: { Self → Self.End → Type 0 };

    /// Does the job. On a host that can wait it may wait for other threads, and then nothing says
    /// that it ends.
    fn work(self, rt: &H) -> Self::End
        requires ready { ready self }
        ensures works { works self result };
}

// What a thread owes: an end that its job's `works` holds of.
#[derive(Drop)]
pub struct Due<H, J: Worker<H>> {
    pub(crate) job: Snapshot<J>,
    pub(crate) host: PhantomData<H>,
}

impl<H, J: Worker<H>> Promise<J::End> for Due<H, J> {
    ghost kept_by = { λ due end. J.works due.job.value end };
}
