// The axis state diagram: what changes the state of an axis, and to which state.

ghost use Rattle.std.specs.Prelude.{◌≡◌};
ghost use Rattle.axis_state.specs.Diagram.{AxisTransition, IsFrom, next_of};
ghost use Rattle.plc_types.specs.declared.axis_state.AxisState.{AxisState};

use plc_types::AxisState;

/// What changes the state of an axis (PLCopen Motion Control Part 1, the state diagram).
#[derive(Clone, Copy, Debug, PartialEq, Eq)]
pub enum AxisEvent {
    /// The axis has an error, 101 to 106.
    Error,
    /// MC_Power is called with Enable false.
    PowerOff,
    /// The first cycle of a driven spell.
    DrivenFirst,
    /// MC_Reset is done and the axis is driven.
    ResetDriven,
    /// MC_Reset is done and the axis is not driven.
    ResetNotDriven,
    /// MC_Home is admitted.
    HomeAdmitted,
    /// MC_Home is done.
    HomeDone,
    /// MC_MoveAbsolute, MC_MoveRelative, MC_MoveAdditive or MC_Halt becomes active.
    DiscreteActive,
    /// MC_MoveVelocity becomes active.
    VelocityActive,
    /// MC_GearOut or MC_CamOut is done.
    FollowOut,
    /// MC_GearIn or MC_CamIn becomes active.
    FollowActive,
    /// MC_Stop is admitted.
    StopAdmitted,
    /// The axis is at rest, and the MC_Stop's Execute is false or it has no owner.
    StopReleased,
    /// The last command is done and none waits.
    LastDone,
    /// A command of the group of the axis becomes active.
    GroupActive,
    /// The path of the group of the axis is at rest, and the group releases its axes.
    PathRest,
}

/// The state of an axis after an event that may come in its state.
pub fn axis_next(state: AxisState, event: AxisEvent) -> AxisState
    requires { IsFrom state event }
    ensures value { result ≡ next_of event }
    ensures transition { AxisTransition state event result }
    ensures only { (next : AxisState) → AxisTransition state event next → next ≡ result }
{
    match event {
        AxisEvent::Error => AxisState::ErrorStop,
        AxisEvent::PowerOff => AxisState::Disabled,
        AxisEvent::DrivenFirst => AxisState::Standstill,
        AxisEvent::ResetDriven => AxisState::Standstill,
        AxisEvent::ResetNotDriven => AxisState::Disabled,
        AxisEvent::HomeAdmitted => AxisState::Homing,
        AxisEvent::HomeDone => AxisState::Standstill,
        AxisEvent::DiscreteActive => AxisState::DiscreteMotion,
        AxisEvent::VelocityActive => AxisState::ContinuousMotion,
        AxisEvent::FollowOut => AxisState::ContinuousMotion,
        AxisEvent::FollowActive => AxisState::SynchronizedMotion,
        AxisEvent::StopAdmitted => AxisState::Stopping,
        AxisEvent::StopReleased => AxisState::Standstill,
        AxisEvent::LastDone => AxisState::Standstill,
        AxisEvent::GroupActive => AxisState::SynchronizedMotion,
        AxisEvent::PathRest => AxisState::Standstill,
    }
}
