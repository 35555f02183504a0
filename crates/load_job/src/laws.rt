// What holds of each generated load.

ghost use Rattle.load_job.specs.Counts.{LoadsFill};

/// Each generated bench makes 14,001 entries, of which 10,000 are cycles: all that its machine has
/// room for.
pub fn loads_fill_their_room()
    ensures { LoadsFill }
{}
