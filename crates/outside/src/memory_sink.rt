// An output in memory, which stands in for that of a host.
ghost use Rattle.std.specs.Prelude.{◌≡◌, ◌≢◌, ◌+◌, ◌-◌, ◌^◌, ◌<◌, ◌≤◌, [], ◌++◌, min, Ok, Err, IfOk, OnOk, OnErr, IsErr, IsTrue, ◌↔◌, Contains, length, take};

use crate::{OutOfMemory, Sink, SinkFailed};
use std::alloc::Global;

/// An output in memory, of which the listed writes fail.
#[derive(Drop)]
pub struct MemorySink {
    bytes: Vec<u8>,
    fails: Vec<u64>,
    most: u32,
    writes: u64,
    faults: u64,
    ghost takes_some: { 1 ≤ most },
}

impl MemorySink {
    ghost use Rattle.outside.specs.MemorySink.{IsNew, KeepsCounts, CountsWrite, bytes_of, fails_of, writes_of, faults_of, room_of};

    /// Nothing was written yet. A write takes at most `most` bytes, and the writes of the listed
    /// numbers fail; they are counted from 1, without those of an empty piece.
    pub fn new(alloc: Global, fails: &[u64], most: u32) -> Result<MemorySink, OutOfMemory>
        requires { 1 ≤ most }
        ensures { IfOk result (λ sink. IsNew sink fails.now most) }
    {
        Ok(MemorySink {
            bytes: Vec::new(alloc),
            fails: Vec::from_slice(alloc, fails)?,
            most,
            writes: 0,
            faults: 0,
        })
    }

    /// Makes room for this many bytes more.
    pub fn reserve(&mut self, bytes: usize) -> Result<(), OutOfMemory>
        ensures room { OnOk result (length (bytes_of self.new) + bytes ≤ room_of self.new) }
        ensures bytes { bytes_of self.new ≡ bytes_of self.old }
        ensures kept { KeepsCounts self.old self.new }
    {
        self.bytes.reserve(bytes)?;
        Ok(())
    }

    /// The bytes so far.
    pub fn bytes(&self) -> &[u8]
        ensures { result.now ≡ bytes_of self.now }
    {
        self.bytes.as_slice()
    }

    // Counts a write, and says whether it is one of the listed.
    fn is_next_listed(&mut self) -> bool
        ensures counts { CountsWrite self.old self.new }
        ensures bytes { bytes_of self.new ≡ bytes_of self.old }
        ensures kept { faults_of self.new ≡ faults_of self.old }
        ensures room { room_of self.new ≡ room_of self.old }
        ensures listed { IsTrue result ↔ Contains (fails_of self.old) (writes_of self.new) }
    {
        self.writes = self.writes.saturating_add(1);
        is_listed(self.fails.as_slice(), self.writes)
    }
}

impl Sink for MemorySink {
    ghost use Rattle.std.specs.Prelude.{Some};
    ghost use Rattle.outside.specs.MemorySink.{CountsWrite, bytes_of, fails_of, most_of, writes_of, faults_of, room_of};

    ghost count = { faults_of };

    ghost told = { λ sink. Some (bytes_of sink) };

    // Where no memory is left for more room, the write fails as a listed one does.
    fn write(&mut self, bytes: &[u8]) -> Result<usize, SinkFailed>
        ensures empty { bytes.now ≡ [] → (result ≡ Ok 0) × (self.new ≡ self.old) }
        ensures taken { IfOk result (λ taken. taken ≡ min (length bytes.now) (most_of self.old)) }
        ensures appended { IfOk result (λ taken.
            bytes_of self.new ≡ bytes_of self.old ++ take taken bytes.now) }
        ensures kept { OnOk result (faults_of self.new ≡ faults_of self.old) }
        ensures listed { bytes.now ≢ [] → Contains (fails_of self.old) (writes_of self.new) →
            IsErr result }
        ensures counts { bytes.now ≢ [] → CountsWrite self.old self.new }

        // A write that fails is one of the listed, or there was no room for what it takes.
        ensures full { bytes.now ≢ [] → ¬ Contains (fails_of self.old) (writes_of self.new) →
            OnErr result (room_of self.old <
            length (bytes_of self.old) + min (length bytes.now) (most_of self.old)) }
        ensures failed { OnErr result (
            faults_of self.new ≡ min (faults_of self.old + 1) (2 ^ 64 - 1)) }
        ensures unchanged { OnErr result (bytes_of self.new ≡ bytes_of self.old) }
    {
        if bytes.is_empty() {
            return Ok(0);
        }
        let listed = self.is_next_listed();
        let taken = bytes.len().min(self.most as usize);
        if listed || self.bytes.extend_from_slice(&bytes[..taken]).is_err() {
            self.faults = self.faults.saturating_add(1);
            return Err(SinkFailed);
        }
        Ok(taken)
    }
}

// Whether the number is among the listed.
fn is_listed(numbers: &[u64], number: u64) -> bool
    ensures { IsTrue result ↔ Contains numbers.now number }
{
    numbers.contains(&number)
}
