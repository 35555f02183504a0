// A task that runs by its code: scan after scan, it gives its calls and takes their replies.

ghost use Rattle.std.specs.Prelude.{◌≡◌, ◌<◌, ◌≤◌, ◌+◌, ◌^◌, [], IfOk, IsSome, None, Some, length, replicate, vec_len, vec_capacity};
ghost use Rattle.st_exec.specs.Compiled as spec;
ghost use Rattle.st_exec.specs.Compiled.{Compiled, program_at, program_of};
ghost use Rattle.st_exec.specs.Following.{Follows, HasReplied, IsAnswered, IsOpened, IsReset, Says, asked_by, end_of_scan};
ghost use Rattle.st_exec.specs.Scan.{scan_of};
ghost use Rattle.st_exec.specs.Values.{silent};
ghost use Rattle.st_tree.specs.declared.program.Task.{Task};

use crate::code::StCode;
use crate::listed::set_at;
use crate::machine::Machine;
use crate::values::{SILENT, is_true, value_at};
use crate::walk::walk;
use motion_numbers::OutOfMemory;
use plc_types::{INPUTS_OFF, Inputs, Outputs};
use std::alloc::Global;

/// The blocks of which a task keeps the last reply: all that a machine may have.
const BLOCKS: usize = 256;

/// What a task does next.
#[derive(Clone, Copy, Debug, PartialEq, Eq)]
pub enum StNext {
    /// It calls a block, by its number, and waits for the reply.
    Call { instance: u16, inputs: Inputs },
    /// Its scan is over; the next one begins with the next call of `next`.
    ScanDone,
    /// Its scan is over, and was its last: the variable `finished` is TRUE.
    End,
}

/// A task that runs by its code. It keeps the variables and the last replies of the start of the
/// scan that it is in, and the replies got in it.
#[derive(Drop)]
pub struct StTask {
    pub(crate) task: u8,
    pub(crate) machine: Machine,
    /// The number of the instruction that it stands at.
    pub(crate) place: usize,
    /// The block that it has called, and whose reply it waits for.
    pub(crate) asked: Option<u16>,
    pub(crate) vars: Vec<i32>,
    pub(crate) last: Vec<Outputs>,
    pub(crate) got: Vec<Outputs>,
}

impl StTask {
    /// A task of the code before its first scan. It takes all its memory here.
    pub fn open(alloc: Global, code: &StCode, task: u8) -> Result<StTask, OutOfMemory>
        requires { task < length code.now.tasks }
        ensures { IfOk result (IsOpened code.now task) }
    {
        let program = code.task(task);
        let room = program.instructions.len();
        let stack = reserved(alloc, room)?;
        let got = reserved(alloc, room)?;
        let vars = copied(alloc, program.start.as_slice())?;
        let last = silent(alloc)?;
        let machine = Machine {
            stack,
            inputs: INPUTS_OFF,
            vars: copied(alloc, vars.as_slice())?,
            last: copied(alloc, last.as_slice())?,
        };
        Ok(StTask {
            task,
            machine,
            place: 0,
            asked: None,
            vars,
            last,
            got,
        })
    }

    /// Runs to the next call of the scan, or to its end. The code is the one that the task was
    /// opened on, and each call that it gave before was answered. It takes no memory.
    pub fn next(&mut self, code: &StCode) -> StNext
        requires follows { Follows code.now self.old }
        requires answered { self.old.asked ≡ None }
        // What it gives is the next of the scan of the task's tree, for the replies got.
        ensures says { (t : Task) → program_at code.now self.old.task ≡ program_of t →
            Says (program_of t).finished
            (scan_of code.now.us t.body.items self.old.vars.items self.old.last.items self.old.got.items)
            self.old result self.new }
        ensures asked { self.new.asked ≡ asked_by result }
        ensures follows { Follows code.now self.new }
    {
        let program = code.task(self.task);
        let stop = walk(
            code.cycle_us(),
            program.instructions.as_slice(),
            &mut self.machine,
            self.place,
        );
        self.place = stop.place;
        match stop.asked {
            Some(instance) => self.call(instance),
            None => self.end_scan(program.finished),
        }
    }

    // Asks for the call of the instruction that it stands at.
    fn call(&mut self, instance: u16) -> StNext
        ensures task { self.new ≡ record self.old { asked = Some instance } }
        ensures call { result ≡ StNext.Call instance self.old.machine.inputs }
    {
        self.asked = Some(instance);
        StNext::Call {
            instance,
            inputs: self.machine.inputs,
        }
    }

    // Ends the scan: the next one starts from what it leaves.
    fn end_scan(&mut self, finished: Option<usize>) -> StNext
        requires vars { length self.old.machine.vars.items ≡ length self.old.vars.items }
        requires last { length self.old.machine.last.items ≡ length self.old.last.items }
        ensures reset { IsReset self.old self.new }
        ensures end { result ≡ end_of_scan (spec.is_ended finished self.old.machine.vars.items) }
    {
        self.vars.copy_from_slice(self.machine.vars.as_slice());
        self.last.copy_from_slice(self.machine.last.as_slice());
        self.got.clear();
        self.machine.stack.clear();
        self.machine.inputs = INPUTS_OFF;
        self.place = 0;
        end_of_scan(is_ended(finished, self.vars.as_slice()))
    }

    /// Takes the reply to the call that `next` gave. It takes no memory.
    pub fn answered(&mut self, outputs: &Outputs)
        requires follows { (c : Compiled) × Follows c self.old }
        requires asked { IsSome self.old.asked }
        ensures follows { (c : Compiled) → Follows c self.old → Follows c self.new }
        ensures answered { IsAnswered outputs.now self.old self.new }
    {
        if let Some(instance) = self.asked {
            self.take_reply(instance, outputs);
        }
    }

    // Takes the reply of a block, and goes after its call.
    fn take_reply(&mut self, instance: u16, outputs: &Outputs)
        requires room { vec_len self.old.got < vec_capacity self.old.got }
        requires place { self.old.place + 1 < 2 ^ 64 }
        ensures { HasReplied outputs.now instance self.old self.new }
    {
        set_at(
            self.machine.last.as_mut_slice(),
            instance as usize,
            *outputs,
        );
        self.machine.inputs = INPUTS_OFF;
        self.got.push_reserved(*outputs);
        self.place += 1;
        self.asked = None;
    }
}

// What is given at the end of a scan.
fn end_of_scan(ended: bool) -> StNext
    ensures { result ≡ end_of_scan ended }
{
    if ended { StNext::End } else { StNext::ScanDone }
}

// Whether variables end a task.
fn is_ended(finished: Option<usize>, vars: &[i32]) -> bool
    ensures { result ≡ spec.is_ended finished vars.now }
{
    match finished {
        Some(variable) => is_true(value_at(vars, variable)),
        None => false,
    }
}

// An empty list with room for this many.
fn reserved<T>(alloc: Global, room: usize) -> Result<Vec<T>, OutOfMemory>
    ensures items { IfOk result (λ v. v.items ≡ []) }
    ensures room { IfOk result (λ v. room ≤ vec_capacity v) }
{
    let Ok(list) = Vec::with_capacity(alloc, room) else {
        return Err(OutOfMemory);
    };
    Ok(list)
}

// A copy of a list.
fn copied<T: Copy>(alloc: Global, list: &[T]) -> Result<Vec<T>, OutOfMemory>
    ensures { IfOk result (λ v. v.items ≡ list.now) }
{
    let mut copy = Vec::new(alloc);
    let Ok(()) = copy.extend_from_slice(list) else {
        return Err(OutOfMemory);
    };
    Ok(copy)
}

// The last replies of blocks that have not replied yet.
fn silent(alloc: Global) -> Result<Vec<Outputs>, OutOfMemory>
    ensures { IfOk result (λ v. v.items ≡ replicate 256 silent) }
{
    copied(alloc, &[SILENT; BLOCKS])
}
