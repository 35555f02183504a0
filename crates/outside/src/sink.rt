// An output that takes bytes, and writing all of a piece to it.
ghost use Rattle.std.specs.Prelude.{◌≡◌, ℕ, ◌<◌, ◌≤◌, List, [], Option, Ok, length, take, OnOk, OnErr, IfOk};
ghost use Rattle.std.specs.Io.KnownBytes.{Appends, Keeps};
ghost use Rattle.outside.specs.Faults.{Rose};
ghost use Rattle.outside.specs.Told.{AppendsPart};

/// The output took nothing.
#[derive(Clone, Copy, Debug, PartialEq, Eq)]
pub struct SinkFailed;

/// An output that takes bytes. What is reported of it is the bytes so far, or nothing.
pub trait Sink {
    // How many faults there were, up to the end of 64 bits.
    ghost count: { Self → ℕ };

    // What is reported: the bytes so far.
    ghost told: { Self → Option (List ℕ) };

    /// Takes the first bytes of the piece and answers how many.
    fn write(&mut self, bytes: &[u8]) -> Result<usize, SinkFailed>
        ensures within { IfOk result (λ taken. taken ≤ length bytes.now) }
        ensures some { 0 < length bytes.now → IfOk result (λ taken. 0 < taken) }
        ensures empty { bytes.now ≡ [] → result ≡ Ok 0 }
        ensures appended { IfOk result (λ taken.
            Appends (told self.old) (told self.new) (take taken bytes.now)) }
        ensures kept { OnOk result (count self.new ≡ count self.old) }

        // A failure raises the count of faults, and nothing was taken.
        ensures failed { OnErr result (Rose (count self.old) (count self.new)) }
        ensures unchanged { OnErr result (Keeps (told self.old) (told self.new)) };
}

/// Writes all the bytes, in as many pieces as the sink wants.
pub fn write_all<K: Sink>(sink: &mut K, bytes: &[u8]) -> Result<(), SinkFailed>
    ensures appended { OnOk result (Appends (K.told sink.old) (K.told sink.new) bytes.now) }
    ensures kept { OnOk result (K.count sink.new ≡ K.count sink.old) }
    ensures failed { OnErr result (Rose (K.count sink.old) (K.count sink.new)) }
    ensures part { OnErr result (AppendsPart (K.told sink.old) (K.told sink.new) bytes.now) }
{
    let mut done = 0;
    while done < bytes.len() {
        done += sink.write(&bytes[done..])?;
    }
    Ok(())
}
