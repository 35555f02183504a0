//! The program `motion`. It gives `top` the words, the files, the output and the threads of the
//! process, and ends with the status that `top` answers. It stands on `motion_cli` and `outside`;
//! begin at `main`.
#![tactic(auto)]

use motion_cli::{PlantJob, Spawner, top_of_args};
use outside::{HostFiles, OpenGate, StdSink};
use std::env;
use std::process::ExitCode;

fn main(rt: HostRuntime) -> ExitCode {
    let (alloc, args) = (rt.alloc(), env::args(&rt));
    let (files, out) = (&mut HostFiles::new(&rt), &mut StdSink::new(&rt));
    let spawner: &mut Spawner<HostRuntime, PlantJob<OpenGate>> = &mut Spawner::new(rt, alloc);
    let status = top_of_args(&rt, alloc, args, files, out, spawner, &OpenGate);
    ExitCode::from(status.exit())
}
