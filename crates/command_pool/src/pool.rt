// The commands that wait, in one array of records that is made at opening.

ghost use Rattle.std.specs.Prelude.{◌≡◌, ◌↔◌, ◌+◌, ◌*◌, ◌<◌, ◌≤◌, [], ◌∷◌, ◌++◌, drop, length, map, replicate, IfOk, IfErr, OnOk, OnErr, IsErr, slice_get, slice_set};
ghost use Rattle.std.specs.Option.{option_copied};
ghost use Rattle.command_pool.specs.Waiting.{queue_of, detached, last_of, waiting_in_all, notes_of};
ghost use Rattle.command_pool.specs.declared.ending.Finish.TheVariants as finish;

use crate::ending::Finish;
use crate::linking::{
    EMPTY, Queue, Record, append, command, detach_in, fill, free_records, link, next_of, record_at,
};
use crate::notes::Notes;
use crate::wanted::Wanted;
use motion_numbers::OutOfMemory;
use std::alloc::{AllocError, Global};
use std::marker::Model;

/// As many commands may wait in a list.
const MOST_WAITING: u8 = 8;

/// The commands that wait in lists of at most eight. Contracts see one list of commands per number.
#[derive(Drop)]
pub struct CommandPool {
    // Eight for each list.
    records: Vec<Record>,
    queues: Vec<Queue>,
    // The place of the first free record, which is linked to the others.
    free_first: u16,
    free_count: u16,
}

impl Model for CommandPool {
    ghost use Rattle.std.specs.Prelude.{List};
    ghost use Rattle.command_pool.specs.declared.wanted.Wanted.{Wanted};

    ghost Value = { List (List Wanted) };

    ghost use Rattle.command_pool.specs.Kept.{lists_in, IsKept};

    ghost view = { lists_in };

    ghost invariant = { IsKept };
}

impl CommandPool {
    /// A pool of this many empty lists.
    pub fn open(alloc: Global, lists: u8) -> Result<CommandPool, OutOfMemory>
        ensures { IfOk result (λ pool. pool ≡ replicate lists []) }
    {
        reserved(alloc, lists).map_err(|_| OutOfMemory)
    }

    /// Puts a command after the last of a list. Where eight wait it is given back.
    pub fn push_last(&mut self, list: u8, wanted: Wanted) -> Result<(), Wanted>
        requires { list < length self.old }
        ensures added { OnOk result (self.new ≡ slice_set self.old list (queue_of self.old list ++ wanted ∷ [])) }
        ensures full_exactly_at_eight { IsErr result ↔ (length (queue_of self.old list) ≡ 8) }
        ensures given_back { IfErr result (λ back. back ≡ wanted) }
        ensures unchanged { OnErr result (self.new ≡ self.old) }
    {
        if self.waiting(list) == MOST_WAITING {
            return Err(wanted);
        }
        self.add(list as usize, wanted);
        Ok(())
    }

    /// Takes the first command out of a list.
    pub fn pop_first(&mut self, list: u8) -> Option<Wanted>
        requires { list < length self.old }
        ensures first { result ≡ slice_get (queue_of self.old list) 0 }
        ensures rest { self.new ≡ slice_set self.old list (drop 1 (queue_of self.old list)) }
    {
        if self.waiting(list) == 0 {
            return None;
        }
        Some(self.take(list as usize))
    }

    /// The first command of a list.
    pub fn first(&self, list: u8) -> Option<&Wanted>
        requires { list < length self.now }
        ensures { option_copied result ≡ slice_get (queue_of self.now list) 0 }
    {
        let queue = self.queues[list as usize];
        if queue.count == 0 {
            return None;
        }
        Some(command(&self.records, queue.first))
    }

    /// The last command of a list.
    pub fn last(&self, list: u8) -> Option<&Wanted>
        requires { list < length self.now }
        ensures { option_copied result ≡ last_of (queue_of self.now list) }
    {
        let queue = self.queues[list as usize];
        if queue.count == 0 {
            return None;
        }
        Some(command(&self.records, queue.last))
    }

    /// The command at a place of a list, counted from 0.
    pub fn waiting_at(&self, list: u8, place: u8) -> Option<&Wanted>
        requires { list < length self.now }
        ensures { option_copied result ≡ slice_get (queue_of self.now list) place }
    {
        let queue = self.queues[list as usize];
        if place >= queue.count {
            return None;
        }
        Some(command(&self.records, record_at(&self.records, queue, place)))
    }

    /// Takes the commands of a pool of as many lists in the place of its own.
    pub fn copy_from(&mut self, other: &CommandPool)
        requires { length self.old ≡ length other.now }
        ensures { self.new ≡ other.now }
    {
        self.records.copy_from_slice(other.records.as_slice());
        self.queues.copy_from_slice(other.queues.as_slice());
        self.free_first = other.free_first;
        self.free_count = other.free_count;
    }

    /// Takes all commands out of a list, and notes of each that has an owner that it is aborted, in
    /// their order. At most four notes may be there.
    pub fn clear(&mut self, list: u8, notes: &mut Notes)
        requires there { list < length self.old }
        requires room { length notes.old ≤ 4 }
        ensures lists { self.new ≡ slice_set self.old list [] }
        ensures notes { notes.new ≡ notes.old ++ notes_of finish.Aborted (queue_of self.old list) }
    {
        for _taken in 0..self.waiting(list) {
            let wanted = self.take(list as usize);
            notes.add_end(&wanted, Finish::Aborted);
        }
    }

    /// Takes the owner away from each of its commands that wait in a list. They go on waiting in
    /// their order.
    pub fn detach(&mut self, list: u8, owner: u16)
        requires { list < length self.old }
        ensures { self.new ≡ slice_set self.old list (map (detached owner) (queue_of self.old list)) }
    {
        let queue = self.queues[list as usize];
        detach_in(&mut self.records, queue, owner);
    }

    /// How many lists it has.
    pub fn lists(&self) -> u8
        ensures { result ≡ length self.now }
    {
        self.queues.len() as u8
    }

    /// How many commands wait in a list.
    pub fn waiting(&self, list: u8) -> u8
        requires { list < length self.now }
        ensures count { result ≡ length (queue_of self.now list) }
        ensures few { result ≤ 8 }
    {
        self.queues[list as usize].count
    }

    /// How many records are free: with the commands that wait they are eight for each list.
    pub fn free(&self) -> u16
        ensures { result + waiting_in_all self.now ≡ 8 * length self.now }
    {
        self.free_count
    }

    // Puts a command after the last of a list, in the first free record.
    fn add(&mut self, list: usize, wanted: Wanted)
        requires there { list < length self.old }
        requires room { length (queue_of self.old list) < 8 }
        ensures { self.new ≡ slice_set self.old list (queue_of self.old list ++ wanted ∷ []) }
    {
        let queue = self.queues[list];
        let place = self.free_first;
        self.free_first = next_of(&self.records, place);
        self.free_count -= 1;
        fill(&mut self.records, place, wanted);
        self.queues[list] = append(&mut self.records, queue, place);
    }

    // Takes the first command out of a list, and gives its record back.
    fn take(&mut self, list: usize) -> Wanted
        requires there { list < length self.old }
        requires some { 0 < length (queue_of self.old list) }
        ensures first { slice_get (queue_of self.old list) 0 ≡ Some result }
        ensures rest { self.new ≡ slice_set self.old list (drop 1 (queue_of self.old list)) }
    {
        let queue = self.queues[list];
        let place = queue.first;
        let wanted = *command(&self.records, place);
        self.queues[list] = Queue {
            first: next_of(&self.records, place),
            last: queue.last,
            count: queue.count - 1,
        };
        link(&mut self.records, place, self.free_first);
        self.free_first = place;
        self.free_count += 1;
        wanted
    }
}

// A pool of this many empty lists, with its whole room.
fn reserved(alloc: Global, lists: u8) -> Result<CommandPool, AllocError>
    ensures { IfOk result (λ pool. pool ≡ replicate lists []) }
{
    let room = lists as u16 * MOST_WAITING as u16;
    Ok(CommandPool {
        records: free_records(alloc, room)?,
        queues: vec![in alloc; EMPTY; lists as usize]?,
        free_first: 0,
        free_count: room,
    })
}
