// Files in memory, which stand in for those of a host.
ghost use Rattle.std.specs.Prelude.{◌≡◌, ◌≢◌, ◌+◌, ◌-◌, ◌^◌, ◌<◌, ◌≤◌, ◌↔◌, ◌⊎◌, [], min, Some, None, Err, IfOk, OnOk, OnErr, IsTrue, Contains, length, take, vec_len};
ghost use Rattle.outside.specs.Told.{BeginsFile, IsLonger};

use crate::files::take_within;
use crate::{Files, FilesFault, OutOfMemory};
use std::alloc::Global;
use std::collections::BTreeMap;

/// Files in memory by their names, of which the listed reads fail.
#[derive(Drop)]
pub struct MemoryFiles {
    alloc: Global,
    files: BTreeMap<String, Vec<u8>>,
    fails: Vec<u32>,
    reads: u32,
    faults: u64,
}

impl MemoryFiles {
    ghost use Rattle.outside.specs.MemoryFiles.{IsNew, PutsFile, IsUnchanged, CountsRead, reads_of, fails_of, faults_of};

    /// No file yet. The reads of the listed numbers fail, counted from 1.
    pub fn new(alloc: Global, fails: &[u32]) -> Result<MemoryFiles, OutOfMemory>
        ensures { IfOk result (λ files. IsNew files fails.now) }
    {
        Ok(MemoryFiles {
            alloc,
            files: BTreeMap::new(alloc),
            fails: Vec::from_slice(alloc, fails)?,
            reads: 0,
            faults: 0,
        })
    }

    /// Adds a file, or replaces the one of that name.
    pub fn put(&mut self, name: &str, bytes: &[u8]) -> Result<(), OutOfMemory>
        ensures ok { OnOk result (PutsFile self.old self.new name.now bytes.now) }
        ensures err { OnErr result (IsUnchanged self.old self.new) }
    {
        let key = String::from_str(self.alloc, name)?;
        let file = Vec::from_slice(self.alloc, bytes)?;
        let Ok(_) = self.files.insert(key, file) else {
            return Err(OutOfMemory);
        };
        Ok(())
    }

    // Counts a read, and says whether it is one of the listed.
    fn is_next_listed(&mut self) -> bool
        ensures counts { CountsRead self.old self.new }
        ensures kept { faults_of self.new ≡ faults_of self.old }
        ensures listed { IsTrue result ↔ Contains (fails_of self.old) (reads_of self.new) }
    {
        self.reads = self.reads.saturating_add(1);
        self.fails.contains(&self.reads)
    }
}

impl Files for MemoryFiles {
    ghost use Rattle.outside.specs.MemoryFiles.{file_of, reads_of, fails_of, faults_of, CountsRead};

    ghost count = { faults_of };

    ghost told = { λ m. Some (file_of m) };

    fn read_all(&mut self, name: &str, into: &mut Vec<u8>, budget: u64) -> Result<(), FilesFault>
        ensures whole { OnOk result (file_of self.old name.now ≡ Some into.new.items) }
        ensures within { OnOk result (vec_len into.new ≤ budget) }
        ensures too_long { (result ≡ Err FilesFault.TooLong) ↔ (vec_len into.new ≡ budget + 1) }
        ensures beginning { result ≡ Err FilesFault.TooLong →
            BeginsFile (Some (file_of self.old)) name.now into.new.items }
        ensures longer { result ≡ Err FilesFault.TooLong →
            IsLonger (Some (file_of self.old)) name.now budget }

        // A read fails exactly where the file isn't there or the read is one of the listed.
        ensures failed { (result ≡ Err FilesFault.Failed) ↔
            ((file_of self.old name.now ≡ None) ⊎
            Contains (fails_of self.old) (reads_of self.new)) }
        ensures risen { result ≡ Err FilesFault.Failed → file_of self.old name.now ≢ None →
            faults_of self.new ≡ min (faults_of self.old + 1) (2 ^ 64 - 1) }
        ensures uncounted { file_of self.old name.now ≡ None →
            faults_of self.new ≡ faults_of self.old }
        ensures kept { result ≢ Err FilesFault.Failed → faults_of self.new ≡ faults_of self.old }
        ensures counts { CountsRead self.old self.new }
    {
        into.clear();
        let listed = self.is_next_listed();
        let Some(file) = self.files.get(name) else {
            return Err(FilesFault::Failed);
        };
        if listed {
            self.faults = self.faults.saturating_add(1);
            return Err(FilesFault::Failed);
        }
        copy_within(file.as_slice(), into, budget)
    }
}

// Copies the file, and of one that is too long the budget and one byte more.
fn copy_within(file: &[u8], into: &mut Vec<u8>, budget: u64) -> Result<(), FilesFault>
    requires { into.old.items ≡ [] }
    ensures whole { OnOk result (into.new.items ≡ file.now) }
    ensures within { OnOk result (length file.now ≤ budget) }
    ensures beginning { result ≡ Err FilesFault.TooLong →
        into.new.items ≡ take (budget + 1) file.now }
    ensures longer { result ≡ Err FilesFault.TooLong → budget < length file.now }
    ensures memory { result ≡ Err FilesFault.OutOfMemory → into.new.items ≡ [] }
    ensures read { result ≢ Err FilesFault.Failed }
{
    if take_within(into, file, budget)? {
        return Ok(());
    }
    Err(FilesFault::TooLong)
}
