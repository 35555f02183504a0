// Laws of trace segments that follow each other: each is the contract of a function that does
// nothing.

ghost use Rattle.segment_check.specs.Headers.{TextsTellPasts};
ghost use Rattle.segment_check.specs.Own.{FirstMayBegin, NextMayBegin};
ghost use Rattle.segment_check.specs.Rows.{RowsTellPasts};

use axis_core::axes_keep_their_definitions;
use motion_kernel::machines_stay_kept;
use motion_laws::{
    machines_can_stand, pasts_keep_their_laws, replies_tell_one_result, segments_keep_their_laws,
};
use segment_text::headers_are_read_back;

/// Trace segments of which the first begins at opening, and each later one with the machine to
/// which those before it lead, give one history of the machine together, and all laws hold of it.
/// Nothing runs.
pub fn rows_of_trace_segments_tell_pasts()
    ensures { RowsTellPasts }
{
    segments_keep_their_laws();
    pasts_keep_their_laws();
}

/// No segment of a kernel is rejected for its header: one that begins at opening may begin so, and
/// where one may begin, so may the next, which begins where a legal history from there leads.
/// Nothing runs.
pub fn segments_of_kernels_may_begin()
    ensures first { FirstMayBegin }
    ensures next { NextMayBegin }
{
    machines_can_stand();
}

/// Texts that were found to be legal trace segments of one configuration, one by one, of which the
/// first has no segment before it, and each later one begins with the header that was reported for
/// the one before, say one past of the machine together, from opening on, and all laws hold of it.
/// Nothing runs.
pub fn texts_by_headers_tell_pasts()
    ensures { TextsTellPasts }
{
    headers_are_read_back();
    machines_can_stand();
    segments_keep_their_laws();
    pasts_keep_their_laws();
    machines_stay_kept();
    axes_keep_their_definitions();
    replies_tell_one_result();
}
