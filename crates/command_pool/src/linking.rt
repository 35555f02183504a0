// Records in an array, linked by index.

ghost use Rattle.std.specs.Prelude.{◌≡◌, ℕ, ◌<◌, ◌+◌, ◌-◌, ◌^◌, Some, length, slice_get, slice_set, slice_index, IfOk, vec_len};
ghost use Rattle.command_pool.specs.Layout as spec;
ghost use Rattle.command_pool.specs.Layout.{chain, links_of, commands_of, command_at, detached_in, rising, times};

use crate::wanted::{UNUSED, Wanted, detach_from};
use std::alloc::{AllocError, Global};

/// A command, and the place of the record after it.
#[derive(Clone, Copy)]
pub(crate) struct Record {
    pub(crate) wanted: Wanted,
    pub(crate) next: u16,
}

/// The places of a list's first and last record, and how many there are.
#[derive(Clone, Copy)]
pub(crate) struct Queue {
    pub(crate) first: u16,
    pub(crate) last: u16,
    pub(crate) count: u8,
}

/// A list with no record.
pub(crate) const EMPTY: Queue = Queue {
    first: 0,
    last: 0,
    count: 0,
};

/// The place after a record.
pub(crate) fn next_of(records: &Vec<Record>, place: u16) -> u16
    requires { place < vec_len records.now }
    ensures { result ≡ slice_index (links_of records.now.items) place }
{
    records[place as usize].next
}

/// The command in a record.
pub(crate) fn command(records: &Vec<Record>, place: u16) -> &Wanted
    requires { place < vec_len records.now }
    ensures { result.now ≡ command_at (commands_of records.now.items) place }
{
    &records[place as usize].wanted
}

/// The record of the command at a place of a list, counted from 0.
pub(crate) fn record_at(records: &Vec<Record>, queue: Queue, place: u8) -> u16
    requires there { place < queue.count }
    requires places { (k : ℕ) → 0 < times k (chain (links_of records.now.items) queue) → k < vec_len records.now }
    ensures at { slice_get (chain (links_of records.now.items) queue) place ≡ Some result }
    ensures below { result < vec_len records.now }
{
    let mut at = queue.first;
    for _passed in 0..place {
        at = next_of(records, at);
    }
    at
}

/// Puts a command into a record.
pub(crate) fn fill(records: &mut Vec<Record>, place: u16, wanted: Wanted)
    requires { place < vec_len records.old }
    ensures links { links_of records.new.items ≡ links_of records.old.items }
    ensures commands { commands_of records.new.items ≡ slice_set (commands_of records.old.items) place wanted }
    ensures len { vec_len records.new ≡ vec_len records.old }
{
    let next = records[place as usize].next;
    records[place as usize] = Record { wanted, next };
}

/// Links a record to the one at a place.
pub(crate) fn link(records: &mut Vec<Record>, place: u16, next: u16)
    requires { place < vec_len records.old }
    ensures links { links_of records.new.items ≡ slice_set (links_of records.old.items) place next }
    ensures commands { commands_of records.new.items ≡ commands_of records.old.items }
    ensures len { vec_len records.new ≡ vec_len records.old }
{
    let wanted = records[place as usize].wanted;
    records[place as usize] = Record { wanted, next };
}

/// Puts a record after the last of a list, and answers the longer list.
pub(crate) fn append(records: &mut Vec<Record>, queue: Queue, place: u16) -> Queue
    requires last { 0 < queue.count → queue.last < vec_len records.old }
    requires few { queue.count < 8 }
    ensures links { links_of records.new.items ≡ spec.links_with (links_of records.old.items) queue place }
    ensures commands { commands_of records.new.items ≡ commands_of records.old.items }
    ensures len { vec_len records.new ≡ vec_len records.old }
    ensures queue { result ≡ spec.longer queue place }
{
    if queue.count == 0 {
        return Queue {
            first: place,
            last: place,
            count: 1,
        };
    }
    link(records, queue.last, place);
    Queue {
        first: queue.first,
        last: place,
        count: queue.count + 1,
    }
}

/// Takes the owner away from the commands in the records of a list.
pub(crate) fn detach_in(records: &mut Vec<Record>, queue: Queue, owner: u16)
    requires places { (place : ℕ) → 0 < times place (chain (links_of records.old.items) queue) → place < vec_len records.old }
    ensures links { links_of records.new.items ≡ links_of records.old.items }
    ensures commands { commands_of records.new.items
        ≡ detached_in owner (chain (links_of records.old.items) queue) (commands_of records.old.items) }
    ensures len { vec_len records.new ≡ vec_len records.old }
{
    let mut place = queue.first;
    for _passed in 0..queue.count {
        detach_from(&mut records[place as usize].wanted, owner);
        place = next_of(records, place);
    }
}

/// This many records, each linked to the one after it.
pub(crate) fn free_records(alloc: Global, room: u16) -> Result<Vec<Record>, AllocError>
    requires { room < 2 ^ 16 - 1 }
    ensures { IfOk result (λ records. links_of records.items ≡ rising 1 room) }
{
    let mut records = Vec::with_capacity(alloc, room as usize)?;
    for place in 0..room {
        records.push_reserved(Record {
            wanted: UNUSED,
            next: place + 1,
        });
    }
    Ok(records)
}
