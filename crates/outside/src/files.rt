// Files that are read whole by their names.
ghost use Rattle.std.specs.Prelude.{◌≡◌, ◌≢◌, ℕ, ◌+◌, ◌-◌, ◌<◌, ◌≤◌, ◌↔◌, ◌⊎◌, true, false, List, ◌++◌, length, take, Option, Ok, Err, OnOk, OnErr, vec_len};
ghost use Rattle.outside.specs.Faults.{Rose};
ghost use Rattle.outside.specs.Told.{HasFile, LacksFile, BeginsFile, IsLonger};

use std::alloc::AllocError;

/// Why a file wasn't read whole.
#[derive(Clone, Copy, Debug, PartialEq, Eq)]
pub enum FilesFault {
    /// The file isn't there, or reading it failed.
    Failed,
    /// The file has more bytes than the budget allows.
    TooLong,
    /// No memory was left.
    OutOfMemory,
}

impl From<AllocError> for FilesFault {
    ghost use Rattle.outside.specs.declared.files.FilesFault.{FilesFault};

    ghost from_gives = { λ _ fault. fault ≡ FilesFault.OutOfMemory };

    fn from(_error: AllocError) -> FilesFault {
        FilesFault::OutOfMemory
    }
}

/// Files by their names. What is reported of their content is a map from names to bytes, or
/// nothing.
pub trait Files {
    // How many faults there were, up to the end of 64 bits.
    ghost count: { Self → ℕ };

    // What is reported: the bytes of each name that has a file.
    ghost told: { Self → Option (List ℕ → Option (List ℕ)) };

    /// Reads the whole file into `into`, which is emptied first, and takes at most `budget` bytes
    /// and one more. After `Failed` and `OutOfMemory` the bytes in `into` are left open.
    fn read_all(&mut self, name: &str, into: &mut Vec<u8>, budget: u64) -> Result<(), FilesFault>
        ensures whole { OnOk result (HasFile (told self.old) name.now into.new.items) }
        ensures within { OnOk result (vec_len into.new ≤ budget) }

        // `into` has one byte more than the budget exactly where the file is too long.
        ensures too_long { (result ≡ Err FilesFault.TooLong) ↔ (vec_len into.new ≡ budget + 1) }
        ensures beginning { result ≡ Err FilesFault.TooLong →
            BeginsFile (told self.old) name.now into.new.items }
        ensures longer { result ≡ Err FilesFault.TooLong →
            IsLonger (told self.old) name.now budget }

        // A failure raises the count of faults, except that of a name the known map hasn't.
        ensures failed { result ≡ Err FilesFault.Failed →
            Rose (count self.old) (count self.new) ⊎ LacksFile (told self.old) name.now }
        ensures missing { LacksFile (told self.old) name.now → result ≡ Err FilesFault.Failed }
        ensures uncounted { LacksFile (told self.old) name.now → count self.new ≡ count self.old }
        ensures kept { result ≢ Err FilesFault.Failed → count self.new ≡ count self.old }

        ensures map_stays { told self.new ≡ told self.old };
}

// Appends a piece as far as the budget allows and one byte more, and says whether all of it fits.
pub(crate) fn take_within(into: &mut Vec<u8>, piece: &[u8], budget: u64) -> Result<bool, AllocError>
    requires { vec_len into.old ≤ budget }
    ensures whole { result ≡ Ok true → into.new.items ≡ into.old.items ++ piece.now }
    ensures within { result ≡ Ok true → vec_len into.new ≤ budget }
    ensures cut { result ≡ Ok false →
        into.new.items ≡ into.old.items ++ take (budget + 1 - vec_len into.old) piece.now }
    ensures over { result ≡ Ok false → vec_len into.new ≡ budget + 1 }
    ensures longer { result ≡ Ok false → budget < vec_len into.old + length piece.now }
    ensures err { OnErr result (into.new.items ≡ into.old.items) }
{
    let left = budget - into.len() as u64;
    if piece.len() as u64 <= left {
        into.extend_from_slice(piece)?;
        return Ok(true);
    }
    into.extend_from_slice(&piece[..left as usize + 1])?;
    Ok(false)
}
