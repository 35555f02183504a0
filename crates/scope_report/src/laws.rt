// What reports say, as a law: the contract of a function that does nothing.

ghost use Rattle.trace_text.specs.TraceState.{TraceState};
ghost use Rattle.scope_report.specs.Laws.{SaysOfEach};

/// The report of a trace is on each axis and of each block of the trace, at its place and by its
/// name. The least and the greatest setpoint are those of a driven row, and none of a driven row is
/// below or above; of each two rows of an axis after each other it counts those with equal
/// setpoints, and adds the distances of their setpoints. Nothing runs.
pub fn reports_say_what_is_asked()
    ensures { (t : TraceState) → SaysOfEach t }
{}
