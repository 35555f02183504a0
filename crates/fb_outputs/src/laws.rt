// A law of the replies of instances: the contract of a function that does nothing.

ghost use Rattle.std.specs.Prelude.{◌≡◌, true, List};
ghost use Rattle.std.specs.List.{AllByRecursion};
ghost use Rattle.plc_types.specs.declared.kind.BlockKind.{BlockKind};
ghost use Rattle.fb_outputs.specs.Steps.{opened, outputs_of};
ghost use Rattle.fb_outputs.specs.Replies.{Happening, IsNumbered, IsReply, after_all, is_error_number, may_hold};

/// Whatever happens to an instance, its reply reports one result and one state. Where each error
/// that comes has a number from 1 to 19 or from 101 to 106, a reply with an error has such a
/// number.
pub fn replies_tell_one_result()
    ensures single { (kind : BlockKind) (happenings : List Happening) →
        IsReply (may_hold (after_all (opened kind) happenings))
        (outputs_of (after_all (opened kind) happenings)) }
    ensures numbered { (kind : BlockKind) (happenings : List Happening) →
        AllByRecursion IsNumbered happenings →
        (outputs_of (after_all (opened kind) happenings)).error ≡ true →
        is_error_number (outputs_of (after_all (opened kind) happenings)).error_id ≡ true }
{}
