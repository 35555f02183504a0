// What a motion block acts on.

ghost use Rattle.std.specs.Prelude.{◌≡◌};
ghost use Rattle.iec_interface.specs.Objects as spec;

use iec_tree::Motion;

/// What a block acts on.
#[derive(Clone, Copy, Debug, PartialEq, Eq)]
pub enum Object {
    Axis,
    Group,
}

/// What a block acts on.
#[tactic(auto, unfolding(crate::specs::Objects::object_of))]
pub fn object_of(block: Motion) -> Object
    ensures { result ≡ spec.object_of block }
{
    match block {
        Motion::GroupEnable
        | Motion::GroupDisable
        | Motion::GroupReset
        | Motion::GroupStop
        | Motion::GroupHalt
        | Motion::MoveLinearAbsolute
        | Motion::MoveCircularAbsolute
        | Motion::GroupSetOverride => Object::Group,
        _ => Object::Axis,
    }
}

// Whether a block follows a master, so that its axis may be given as `Slave`.
fn follows(block: Motion) -> bool
    ensures { result ≡ spec.follows block }
{
    matches!(
        block,
        Motion::GearIn | Motion::GearInPos | Motion::GearOut | Motion::CamIn | Motion::CamOut
    )
}

/// Whether a call of a block gives its axis or group by this name, in any case of letters.
#[tactic(auto, unfolding(crate::specs::Objects::names_object))]
pub fn names_object(block: Motion, name: &[u8]) -> bool
    ensures { result ≡ spec.names_object block name.now }
{
    match object_of(block) {
        Object::Group => name.eq_ignore_ascii_case(b"AxesGroup"),
        Object::Axis => {
            name.eq_ignore_ascii_case(b"Axis")
                || follows(block) && name.eq_ignore_ascii_case(b"Slave")
        }
    }
}
