// One case for each row of the axis state diagram.

use crate::{AxisEvent, axis_next};
use plc_types::AxisState;

#[test]
fn each_row_leads_to_its_state(rt: HostRuntime) {
    use AxisEvent::*;
    use AxisState::*;
    assert_eq!(rt; axis_next(Homing, Error), ErrorStop);
    assert_eq!(rt; axis_next(Stopping, PowerOff), Disabled);
    assert_eq!(rt; axis_next(Disabled, DrivenFirst), Standstill);
    assert_eq!(rt; axis_next(ErrorStop, ResetDriven), Standstill);
    assert_eq!(rt; axis_next(ErrorStop, ResetNotDriven), Disabled);
    assert_eq!(rt; axis_next(Standstill, HomeAdmitted), Homing);
    assert_eq!(rt; axis_next(Homing, HomeDone), Standstill);
    assert_eq!(rt; axis_next(ContinuousMotion, DiscreteActive), DiscreteMotion);
}

#[test]
fn the_other_rows_lead_to_theirs(rt: HostRuntime) {
    use AxisEvent::*;
    use AxisState::*;
    assert_eq!(rt; axis_next(Standstill, VelocityActive), ContinuousMotion);
    assert_eq!(rt; axis_next(SynchronizedMotion, FollowOut), ContinuousMotion);
    assert_eq!(rt; axis_next(DiscreteMotion, FollowActive), SynchronizedMotion);
    assert_eq!(rt; axis_next(Homing, StopAdmitted), Stopping);
    assert_eq!(rt; axis_next(Stopping, StopReleased), Standstill);
    assert_eq!(rt; axis_next(DiscreteMotion, LastDone), Standstill);
    assert_eq!(rt; axis_next(Standstill, GroupActive), SynchronizedMotion);
    assert_eq!(rt; axis_next(SynchronizedMotion, PathRest), Standstill);
}
