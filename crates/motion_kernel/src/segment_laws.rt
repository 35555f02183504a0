// How segments follow each other: a law, which is the contract of a function that does nothing.

ghost use Rattle.std.specs.Prelude.{◌≡◌, ◌++◌, List};
ghost use Rattle.motion_history.specs.Entries.{Entry, cycles_of};
ghost use Rattle.motion_history.specs.Setup.{Setup};
ghost use Rattle.motion_kernel.specs.Segments.{counted_on};
ghost use Rattle.motion_kernel.specs.Histories.{Follows, IsLegalFrom, machine_from};
ghost use Rattle.motion_kernel.specs.Machine.{Machine};

/// Segments that follow each other are one history: where a segment is legal from the machine to
/// which the entries before it lead, these entries and the segment's after them, its cycles counted
/// on, are the machine's from where the first of them began, and lead to the machine to which the
/// segment does.
pub fn segments_join()
    ensures follows { (s : Setup) (m : Machine) (before segment : List Entry) →
        Follows s 0 m before → IsLegalFrom s (machine_from s m before) segment →
        Follows s 0 m (before ++ counted_on (cycles_of before) segment) }
    ensures machine { (s : Setup) (m : Machine) (before segment : List Entry) →
        machine_from s m (before ++ counted_on (cycles_of before) segment)
        ≡ machine_from s (machine_from s m before) segment }
{}
