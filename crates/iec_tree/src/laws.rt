// Laws of names: each is the contract of a function that does nothing.

ghost use Rattle.iec_tree.specs.ReadBack.{AreReadBack};

/// Each type, block and function is read as the one that it is written as.
pub fn names_are_read_back()
    ensures { AreReadBack }
{}
