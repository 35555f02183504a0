// An axis at opening.

ghost use Rattle.std.specs.Prelude.{◌≡◌};
ghost use Rattle.axis_core.specs.Cycles as spec;

use crate::axis::Axis;
use cia402_machine::{DISABLE_VOLTAGE, ENABLE_OPERATION};
use plc_types::{AxisDef, AxisState};

/// An axis at opening: a ready one is driven, in Standstill, with power on; another is Disabled.
#[tactic(auto, unfolding(crate::specs::Cycles::axis_at_opening))]
pub fn opened(def: &AxisDef) -> Axis
    ensures { result ≡ spec.axis_at_opening def.now }
{
    Axis {
        limits: def.limits,
        inc: def.inc,
        state: if def.ready {
            AxisState::Standstill
        } else {
            AxisState::Disabled
        },
        error: 0,
        power: def.ready,
        was_off: false,
        driven: def.ready,
        previous: def.start,
        setpoint: def.start,
        offset: 0,
        active: None,
        reached: false,
        reset: None,
        hold: None,
        controlword: if def.ready {
            ENABLE_OPERATION
        } else {
            DISABLE_VOLTAGE
        },
    }
}
