// The files of the host.
ghost use Rattle.std.specs.Prelude.{◌≡◌, ◌≢◌, ◌+◌, ◌-◌, ◌^◌, ◌≤◌, ◌↔◌, [], true, false, min, Ok, Err, IfOk, IfSome, IsErrAnd, IsOkAnd, OnOk, vec_len};
ghost use Rattle.std.specs.Io.{StartsWith};
ghost use Rattle.std.specs.IoError.{error_kind};

use crate::files::take_within;
use crate::{Files, FilesFault};
use std::io::{self, ErrorKind, Read};
use std::{fs, rt};

/// How many bytes a read takes at most.
const PIECE: usize = 8192;

/// The files of the host by their paths. They give nothing of their content.
#[derive(Drop)]
pub struct HostFiles<'a, R: rt::Files> {
    rt: &'a R,
    faults: u64,
}

impl<'a, R: rt::Files> HostFiles<'a, R> {
    /// No fault yet.
    pub fn new(rt: &'a R) -> HostFiles<'a, R>
        ensures { ⟦<HostFiles<'a, R> as Files>⟧.count result ≡ 0 }
    {
        HostFiles { rt, faults: 0 }
    }

    /// Reads what was opened, whole or up to the budget and one byte more.
    pub fn read_opened<F: Read + Drop>(
        &mut self,
        opened: io::Result<F>,
        into: &mut Vec<u8>,
        budget: u64,
    ) -> Result<(), FilesFault>
        ensures whole { OnOk result (IsOkAnd opened (λ file.
            IfSome (F.remaining file) (λ bytes. into.new.items ≡ bytes))) }
        ensures within { OnOk result (vec_len into.new ≤ budget) }
        ensures too_long { (result ≡ Err FilesFault.TooLong) ↔ (vec_len into.new ≡ budget + 1) }
        ensures beginning { result ≡ Err FilesFault.TooLong → IsOkAnd opened (λ file.
            IfSome (F.remaining file) (λ bytes. StartsWith bytes into.new.items)) }
        ensures failed { result ≡ Err FilesFault.Failed →
            self.new.faults ≡ min (self.old.faults + 1) (2 ^ 64 - 1) }
        ensures kept { result ≢ Err FilesFault.Failed → self.new.faults ≡ self.old.faults }
    {
        into.clear();
        match opened {
            Ok(mut file) => self.answer(read_within(&mut file, into, budget)),
            Err(error) => self.answer(Err(error)),
        }
    }

    // The answer by how a reading ended: within the budget, past it, or by an error.
    fn answer(&mut self, read: io::Result<bool>) -> Result<(), FilesFault>
        ensures whole { OnOk result (read ≡ Ok true) }
        ensures too_long { (result ≡ Err FilesFault.TooLong) ↔ (read ≡ Ok false) }
        ensures memory { (result ≡ Err FilesFault.OutOfMemory) ↔
            IsErrAnd read (λ error. error_kind error ≡ ErrorKind.OutOfMemory) }
        ensures failed { result ≡ Err FilesFault.Failed →
            self.new.faults ≡ min (self.old.faults + 1) (2 ^ 64 - 1) }
        ensures kept { result ≢ Err FilesFault.Failed → self.new.faults ≡ self.old.faults }
    {
        match read {
            Ok(true) => Ok(()),
            Ok(false) => Err(FilesFault::TooLong),
            Err(error) => Err(self.fault_of(error)),
        }
    }

    // Want of memory is no fault of the host.
    fn fault_of(&mut self, error: io::Error) -> FilesFault
        ensures memory { (result ≡ FilesFault.OutOfMemory) ↔
            (error_kind error ≡ ErrorKind.OutOfMemory) }
        ensures read { result ≢ FilesFault.TooLong }
        ensures counted { result ≡ FilesFault.Failed →
            self.new.faults ≡ min (self.old.faults + 1) (2 ^ 64 - 1) }
        ensures kept { result ≢ FilesFault.Failed → self.new.faults ≡ self.old.faults }
    {
        if error.kind() == ErrorKind::OutOfMemory {
            return FilesFault::OutOfMemory;
        }
        self.faults = self.faults.saturating_add(1);
        FilesFault::Failed
    }
}

impl<'a, R: rt::Files> Files for HostFiles<'a, R> {
    ghost use Rattle.std.specs.Prelude.{None};

    ghost count = { λ files. files.faults };

    ghost told = { λ _. None };

    fn read_all(&mut self, name: &str, into: &mut Vec<u8>, budget: u64) -> Result<(), FilesFault> {
        self.read_opened(fs::open(self.rt, name), into, budget)
    }
}

// Reads to the end, or up to the budget and one byte more, and says whether it came to the end. A
// read that a signal interrupts is made again.
fn read_within<F: Read>(file: &mut F, into: &mut Vec<u8>, budget: u64) -> io::Result<bool>
    requires { into.old.items ≡ [] }
    ensures whole { result ≡ Ok true →
        IfSome (F.remaining file.old) (λ bytes. into.new.items ≡ bytes) }
    ensures within { result ≡ Ok true → vec_len into.new ≤ budget }
    ensures over { (result ≡ Ok false) ↔ (vec_len into.new ≡ budget + 1) }
    ensures beginning { result ≡ Ok false →
        IfSome (F.remaining file.old) (λ bytes. StartsWith bytes into.new.items) }
{
    let mut piece = [0; PIECE];
    for _ in 0..u64::MAX {
        match file.read(&mut piece) {
            Ok(0) => return Ok(true),
            Ok(count) => {
                if !take_within(into, &piece[..count], budget)? {
                    return Ok(false);
                }
            }
            Err(error) if error.kind() == ErrorKind::Interrupted => {}
            Err(error) => return Err(error),
        }
    }
    Err(io::Error::from(ErrorKind::TimedOut))
}
