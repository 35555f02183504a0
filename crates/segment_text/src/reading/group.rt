// Groups, read from the fields of a header's records.

ghost use Rattle.std.specs.Prelude.{◌≡◌};
ghost use Rattle.std.specs.Option.{option_map};
ghost use Rattle.line_text.specs.Texts.{texts};
ghost use Rattle.motion_kernel.specs.Seen.{placed};
ghost use Rattle.segment_text.specs.reading.Groups as spec;

use crate::reading::column::{owner_of, reset_of};
use crate::reading::command::active_of;
use crate::reading::path::path_of;
use group_core::{Group, GroupOnPath, LinePath};
use motion_history::GroupDef;
use trace_columns::{group_state_of, word_of};

/// The group of this definition that fields are.
#[tactic(auto, unfolding(crate::specs::reading::Groups::group_of))]
pub fn group_of(def: &GroupDef, fields: &[&[u8]]) -> Option<GroupOnPath<LinePath>>
    ensures { option_map placed result ≡ spec.group_of def.now (texts fields.now) }
{
    let [state, error, reset, hold, behind @ ..] = fields else {
        return None;
    };
    let state = group_state_of(state)?;
    let error = word_of(error)?;
    let reset = reset_of(reset)?;
    let hold = owner_of(hold)?;
    let (track, behind) = path_of(behind)?;
    let active = active_of(behind)?;
    let group = Group {
        axes: def.count,
        state,
        error,
        active,
        reset,
        hold,
    };
    Some(GroupOnPath { group, track })
}
