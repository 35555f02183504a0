// How trace segments and traces begin, as a law: the contract of a function that does nothing.

ghost use Rattle.segment_job.specs.Apart.{TraceSegmentsBeginSo, TracesBeginOtherwise};

/// Every trace segment begins as trace segments do, and no trace does: so each text that is one of
/// the two is verified as what it is. Nothing runs.
pub fn trace_segments_and_traces_begin_apart()
    ensures trace_segments { TraceSegmentsBeginSo }
    ensures traces { TracesBeginOtherwise }
{}
