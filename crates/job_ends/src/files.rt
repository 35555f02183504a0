// Reading a file for a job.

ghost use Rattle.std.specs.Prelude.{◌≡◌, IfErr, IfOk, OnOk};
ghost use Rattle.job_ends.specs.Files.{IsText, NoText};
ghost use Rattle.outside.specs.Faults.{Rose};

use crate::saying::say_unread;
use crate::status::Status;
use outside::{Files, Sink};
use std::alloc::Global;

/// The text of a file of at most this many bytes; else says why there is none, and answers how the
/// job ends. The file is that of this word.
pub fn read_text<F: Files, K: Sink>(
    alloc: Global,
    word: u8,
    name: &str,
    most: u64,
    files: &mut F,
    out: &mut K,
) -> Result<Vec<u8>, Status>
    ensures text { IfOk result (λ text. IsText (F.told files.old) name.now most text.items) }
    ensures none { IfErr result (λ s. NoText (F.told files.old)
        (Rose (F.count files.old) (F.count files.new)) word name.now most
        (record { count = K.count out.old; told = K.told out.old })
        (record { count = K.count out.new; told = K.told out.new }) s) }
    ensures silent { OnOk result (out.new ≡ out.old) }
    ensures told { F.told files.new ≡ F.told files.old }
    ensures kept { OnOk result (F.count files.new ≡ F.count files.old) }
{
    let mut text = Vec::new(alloc);
    match files.read_all(name, &mut text, most) {
        Ok(()) => Ok(text),
        Err(fault) => Err(say_unread(alloc, word, name, fault, out)),
    }
}
