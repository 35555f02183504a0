// Whole runs of the program over files, an output and a spawner in memory: what fails, and how each
// run then ends. More runs are data in .ci.

mod damaged;
mod failing;
mod gates;

use job_ends::Status;
use motion_cli::{PlantJob, Words, top};
use outside::{Host, MemoryFiles, MemorySink, OpenGate, Spawner};
use std::alloc::Global;
use std::sync::Wait;
use std::test::Fail;

const ONE_MOVE: &[u8] = b"motion-bench 1
limit 20 40
axis X 0 50 10 4 1 0 ready
task main
block M main MoveAbsolute X
go
call M on pos=20 vel=6 acc=2 dec=2
cycle 7
call M on
end main
";

const ONE_MOVE_TRACE: &[u8] = b"kind,a,b,c,d,e,f,g,h,i,j,k
trace,1,bench,20,40,,,,,,,
axis,X,0,50,10,4,1,0,1,,,
task,main,,,,,,,,,,
block,M,main,MoveAbsolute,X,,,,,,,
call,M,1,20,6,2,2,0,aborting,,BA,0
cycle,1,,,,,,,,,,
row,X,0037,0,8,DiscreteMotion,0,1,2,000f,2,
cycle,2,,,,,,,,,,
row,X,0037,2,8,DiscreteMotion,0,1,6,000f,6,
cycle,3,,,,,,,,,,
row,X,0037,6,8,DiscreteMotion,0,1,12,000f,12,
cycle,4,,,,,,,,,,
row,X,0037,12,8,DiscreteMotion,0,1,16,000f,16,
cycle,5,,,,,,,,,,
row,X,0037,16,8,DiscreteMotion,0,1,19,000f,19,
cycle,6,,,,,,,,,,
row,X,0037,19,8,DiscreteMotion,0,1,20,000f,20,
cycle,7,,,,,,,,,,
row,X,0037,20,8,Standstill,0,1,20,000f,20,
call,M,1,0,0,0,0,0,aborting,,D,0
end,main,,,,,,,,,,
drive,X,7,OperationEnabled,20,,,,,,,
";

const MACHINE: &[u8] = b"cycle_us = 1000
cycles = 20000
entries = 200000
[[axis]]
name = \"X\"
lo = -10
hi = 400
vmax = 1000
amax = 5000
increment = \"0.001\"
start = 0
lag = 2
[[axis]]
name = \"Y\"
lo = -10
hi = 400
vmax = 1000
amax = 5000
increment = \"0.001\"
start = 0
";

const TWO_TASKS: &[u8] = b"motion-program 1
task one
block PX Power X
block MX MoveAbsolute X
call PX on
wait PX reached
call MX on pos=200 vel=500 acc=2000 dec=2000
wait MX done
call MX off
task two
block PY Power Y
block MY MoveAbsolute Y
call PY on
wait PY reached
call MY on pos=200 vel=500 acc=2000 dec=2000
wait MY done
call MY off
";

// The words of a call.
fn words_of(alloc: Global, words: &[&str]) -> Result<Words, Fail> {
    let mut list = Words::new(alloc);
    for word in words {
        list.push(word)?;
    }
    Ok(list)
}

// The files of the worked runs, of which the listed reads fail.
fn files_of(alloc: Global, fails: &[u32]) -> Result<MemoryFiles, Fail> {
    let mut files = MemoryFiles::new(alloc, fails)?;
    files.put("one_move", ONE_MOVE)?;
    files.put("one_move.trace", ONE_MOVE_TRACE)?;
    files.put("machine", MACHINE)?;
    files.put("program", TWO_TASKS)?;
    Ok(files)
}

// How a run ends where the listed starts of threads are refused.
fn ended<H: Host + Wait + Sync>(
    rt: &H,
    alloc: Global,
    words: &[&str],
    files: &mut MemoryFiles,
    out: &mut MemorySink,
    refused: &[u32],
) -> Result<Status, Fail> {
    let words = words_of(alloc, words)?;
    let mut spawner: Spawner<H, PlantJob<OpenGate>> = Spawner::refusing(*rt, alloc, refused)?;
    Ok(top(rt, alloc, &words, files, out, &mut spawner, &OpenGate))
}

// How a run ends that no start and no write fails, and what it writes.
fn outcome<H: Host + Wait + Sync>(
    rt: &H,
    alloc: Global,
    words: &[&str],
    files: &mut MemoryFiles,
) -> Result<(u8, Vec<u8>), Fail> {
    let mut out = MemorySink::new(alloc, &[], u32::MAX)?;
    let status = ended(rt, alloc, words, files, &mut out, &[])?;
    Ok((status.exit(), Vec::from_slice(alloc, out.bytes())?))
}
