// A generated load is run, and its line written.

ghost use Rattle.std.specs.Prelude.{◌≡◌, IfOk};
ghost use Rattle.load_job.specs.Ends.{EndsByLoad};
ghost use Rattle.load_job.specs.Lines as spec;

use crate::counts::{dones, last_sum, refusals};
use crate::generating::generate;
use crate::laws::loads_fill_their_room;
use bench_run::{room_is_enough, run, runs_are_in_step};
use itoa::Buffer;
use job_ends::{Status, joined, say};
use motion_history::History;
use outside::Sink;
use std::alloc::{AllocError, Global};

/// Runs the load that a seed generates, and writes its line.
pub fn run_load<K: Sink>(alloc: Global, seed: u32, out: &mut K) -> Status
    ensures { EndsByLoad seed (record { count = K.count out.old; told = K.told out.old })
        (record { count = K.count out.new; told = K.told out.new }) result }
{
    // laws
    loads_fill_their_room();
    room_is_enough();
    runs_are_in_step();
    let Ok(bench) = generate(alloc, seed) else {
        return Status::OutOfMemory;
    };
    let Ok(ran) = run(alloc, &bench, None) else {
        return Status::OutOfMemory;
    };
    let history = ran.kernel.history();
    say(load_line(alloc, seed, history), Status::Ok, out)
}

// The line of a load with this history.
#[tactic(auto, unfolding(crate::specs::Lines::load_line))]
fn load_line(alloc: Global, seed: u32, history: &History) -> Result<Vec<u8>, AllocError>
    ensures { IfOk result (λ line. line.items ≡ spec.load_line seed history.now.entries) }
{
    let mut number = Buffer::new();
    let mut entries = Buffer::new();
    let mut refused = Buffer::new();
    let mut done = Buffer::new();
    let mut sum = Buffer::new();
    let pieces: [&[u8]; 11] = [
        b"gen ",
        number.format(seed).as_bytes(),
        b" entries ",
        entries.format(history.entries()).as_bytes(),
        b" refused ",
        refused.format(refusals(history)).as_bytes(),
        b" done ",
        done.format(dones(history)).as_bytes(),
        b" sum ",
        sum.format(last_sum(history)).as_bytes(),
        b"\n",
    ];
    joined(alloc, &pieces)
}
