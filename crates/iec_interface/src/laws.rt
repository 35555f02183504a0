// Laws of inputs and outputs: each is the contract of a function that does nothing.

ghost use Rattle.iec_interface.specs.ReadBack.{AreReadBack};

/// Each input and output of a block is read as the one that it is written as, in each block that
/// has it, so that no block has two of one name; and each word for a direction or a buffer mode,
/// with `mc` in front or without it, as what it is for.
pub fn interfaces_are_read_back()
    ensures { AreReadBack }
{}
