// Laws of columns: each is the contract of a function that does nothing.

ghost use Rattle.trace_columns.specs.ReadBack.{AreReadBack};

/// Each value is read back from what is written of it, for each column.
pub fn columns_are_read_back()
    ensures { AreReadBack }
{}
