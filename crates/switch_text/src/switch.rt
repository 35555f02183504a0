// A digital cam switch, and where a setpoint lies in it.

ghost use Rattle.std.specs.Prelude.{◌≡◌, ◌&&◌, ◌+ℤ◌, ◌-ℤ◌, int_le, ℤ};
ghost use Rattle.switch_text.specs.Switches as spec;

use plc_types::Name;

/// The most switches of a switch file.
pub const MOST_SWITCHES: usize = 64;

/// The greatest size of a switch's first and last position, in internal units.
pub const MOST_PLACE: u64 = 1_000_000_000_000_000;

/// A switch on an axis: on between two positions, with a hysteresis, all in internal units.
#[derive(Clone, Copy)]
pub struct Switch {
    pub name: Name,
    /// The number of its axis.
    pub axis: u8,
    /// The first position where it may be on, at most 10^15 in size.
    pub on: i64,
    /// The last one, at most 10^15 in size.
    pub off: i64,
    /// How far inside of both it goes on, 0 to half of their distance.
    pub hyst: i64,
}

// The sum of two positions.
fn sum(a: i64, b: i64) -> i128
    ensures { result ≡ a +ℤ b }
{
    i128::from(a) + i128::from(b)
}

// The difference of two positions.
fn difference(a: i64, b: i64) -> i128
    ensures { result ≡ a -ℤ b }
{
    i128::from(a) - i128::from(b)
}

// Whether a setpoint lies between two positions, both included.
fn is_between(first: i128, last: i128, setpoint: i64) -> bool
    ensures { result ≡ int_le first setpoint && int_le setpoint last }
{
    first <= i128::from(setpoint) && i128::from(setpoint) <= last
}

/// Whether a setpoint lies within the switch.
#[tactic(auto, unfolding(crate::specs::Switches::is_within))]
pub fn is_within(switch: &Switch, setpoint: i64) -> bool
    ensures { result ≡ spec.is_within switch.now setpoint }
{
    switch.on <= setpoint && setpoint <= switch.off
}

/// Whether a setpoint lies inside of the switch by its hysteresis.
#[tactic(auto, unfolding(crate::specs::Switches::is_inside))]
pub fn is_inside(switch: &Switch, setpoint: i64) -> bool
    ensures { result ≡ spec.is_inside switch.now setpoint }
{
    is_between(
        sum(switch.on, switch.hyst),
        difference(switch.off, switch.hyst),
        setpoint,
    )
}

/// Whether a switch is on at a setpoint, by whether it was on at the one before.
pub fn is_on_after(switch: &Switch, on: bool, setpoint: i64) -> bool
    ensures { result ≡ spec.is_on_after switch.now on setpoint }
{
    is_within(switch, setpoint) && (on || is_inside(switch, setpoint))
}

// Whether a position is at most 10^15 in size.
#[tactic(auto, unfolding(crate::specs::Switches::is_place))]
fn is_place(place: i64) -> bool
    ensures { result ≡ spec.is_place place }
{
    place.unsigned_abs() <= MOST_PLACE
}

// Whether the hysteresis is none below 0, and leaves a position inside.
#[tactic(auto, unfolding(crate::specs::Switches::is_hysteresis))]
fn is_hysteresis(switch: &Switch) -> bool
    ensures { result ≡ spec.is_hysteresis switch.now }
{
    0 <= switch.hyst && sum(switch.hyst, switch.hyst) <= difference(switch.off, switch.on)
}

/// Whether the positions and the hysteresis of a switch are in their ranges.
#[tactic(auto, unfolding(crate::specs::Switches::is_switch))]
pub fn is_switch(switch: &Switch) -> bool
    ensures { result ≡ spec.is_switch switch.now }
{
    is_place(switch.on) && is_place(switch.off) && switch.on <= switch.off && is_hysteresis(switch)
}
