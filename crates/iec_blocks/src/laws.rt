// Laws of the standard function blocks: each is the contract of a function that does nothing.

ghost use Rattle.std.specs.Prelude.{◌≡◌, ◌≤ℤ◌, pos, List, ◌∷◌};
ghost use Rattle.iec_tree.specs.declared.standard.Standard.{Standard};
ghost use Rattle.iec_blocks.specs.Blocks.{reply_of};
ghost use Rattle.iec_blocks.specs.Laws.{AreReadBack, most_value};
ghost use Rattle.iec_blocks.specs.declared.call.Call.{Call};

/// Each name of an input or output of a block is read as that one.
pub fn names_are_read_back()
    ensures { (standard : Standard) → AreReadBack standard }
{}

/// `ET` is at least 0 and at most `PT`, a negative `PT` being 0; `CV` is 0 to 32767.
pub fn replies_hold_their_types()
    ensures least { (standard : Standard) (call : Call) (earlier : List Call) →
        pos 0 ≤ℤ (reply_of standard (call ∷ earlier)).value }
    ensures most { (standard : Standard) (call : Call) (earlier : List Call) →
        (reply_of standard (call ∷ earlier)).value ≤ℤ pos (most_value standard call) }
{}
