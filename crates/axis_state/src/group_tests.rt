// One case for each row of the group state diagram.

use crate::{GroupEvent, group_next};
use plc_types::GroupState;

#[test]
fn each_row_leads_to_its_state(rt: HostRuntime) {
    use GroupEvent::*;
    use GroupState::*;
    assert_eq!(rt; group_next(GroupDisabled, Enable), GroupStandby);
    assert_eq!(rt; group_next(GroupErrorStop, Disable), GroupDisabled);
    assert_eq!(rt; group_next(GroupMoving, MoveAdmitted), GroupMoving);
    assert_eq!(rt; group_next(GroupMoving, LastDone), GroupStandby);
    assert_eq!(rt; group_next(GroupStandby, StopAdmitted), GroupStopping);
    assert_eq!(rt; group_next(GroupStopping, StopReleased), GroupStandby);
    assert_eq!(rt; group_next(GroupMoving, MemberError), GroupErrorStop);
    assert_eq!(rt;
        group_next(GroupErrorStop, ResetAllStandstill),
        GroupStandby
    );
    assert_eq!(rt; group_next(GroupErrorStop, ResetElse), GroupDisabled);
}
