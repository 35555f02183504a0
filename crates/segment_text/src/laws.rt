// Laws of trace segments: each is the contract of a function that does nothing.

ghost use Rattle.segment_text.specs.ReadBack.{AreRecordsReadBack, AreRecordsSpelled, HeadersAreReadBack, HeadersTellMachines, TextsAreSpelled};

/// The fields of a header's records are read as what was written, for each axis, group, instance
/// and command whose numbers have the bits of their types; and fields that are read as a value
/// spell it in the one way. So two that have the same fields are the same. Nothing runs.
pub fn records_are_read_back()
    ensures read { AreRecordsReadBack }
    ensures spelled { AreRecordsSpelled }
{}

/// The header of a trace segment is read as what was written of it: for every machine of a
/// configuration whose numbers have the bits of their types. So machines with the same header are
/// the same. And a text that is read as a trace segment spells it in the one way: it is the header
/// of what was read, a blank line, and the text of the trace. Nothing runs.
pub fn headers_are_read_back()
    ensures read { HeadersAreReadBack }
    ensures told { HeadersTellMachines }
    ensures spelled { TextsAreSpelled }
{}
