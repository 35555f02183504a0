// What is read of the inputs, outputs and words of motion blocks.

use iec_interface::{
    Direction, Input, Output, Taken, direction_named, input_of, mode_named, names_object,
    output_of, taken_by,
};
use iec_tree::{Elementary, Motion};
use plc_types::BufferMode;

#[test]
fn inputs_and_outputs_are_those_of_their_block(rt: HostRuntime) {
    assert_eq!(rt;
        input_of(Motion::MoveAbsolute, b"VELOCITY"),
        Some(Input::Velocity)
    );
    assert_eq!(rt; input_of(Motion::MoveAbsolute, b"Distance"), None);
    assert_eq!(rt;
        input_of(Motion::CamIn, b"CamTableId"),
        Some(Input::CamTableId)
    );
    assert_eq!(rt; output_of(Motion::MoveVelocity, b"Done"), None);
    assert_eq!(rt;
        output_of(Motion::GearInPos, b"inSync"),
        Some(Output::InSync)
    );
}

#[test]
fn a_position_of_a_path_has_a_value_for_each_axis(rt: HostRuntime) {
    assert_eq!(rt;
        taken_by(Motion::MoveLinearAbsolute, Input::Position),
        Taken::Positions
    );
    assert_eq!(rt;
        taken_by(Motion::Home, Input::Position),
        Taken::Value(Elementary::Lreal)
    );
    assert_eq!(rt;
        taken_by(Motion::MoveLinearAbsolute, Input::Position6),
        Taken::Value(Elementary::Lreal)
    );
}

#[test]
fn an_axis_may_be_a_slave_and_a_group_is_given_by_its_name(rt: HostRuntime) {
    assert!(rt; names_object(Motion::GearOut, b"slave"));
    assert!(rt; names_object(Motion::GearOut, b"Axis"));
    assert!(rt; !names_object(Motion::Halt, b"Slave"));
    assert!(rt; names_object(Motion::GroupHalt, b"axesgroup"));
    assert!(rt; !names_object(Motion::GroupHalt, b"Axis"));
}

#[test]
fn words_are_read_with_and_without_mc(rt: HostRuntime) {
    assert_eq!(rt; mode_named(b"mcBlendingLow"), Some(BufferMode::BlendingLow));
    assert_eq!(rt; mode_named(b"BUFFERED"), Some(BufferMode::Buffered));
    assert_eq!(rt; mode_named(b"mc"), None);
    assert_eq!(rt;
        direction_named(b"MCNEGATIVEDIRECTION"),
        Some(Direction::Negative)
    );
    assert_eq!(rt;
        direction_named(b"PositiveDirection"),
        Some(Direction::Positive)
    );
    assert_eq!(rt;
        direction_named(b"mcShortestWay"),
        Some(Direction::Shortest)
    );
    assert_eq!(rt; direction_named(b"Shortest"), None);
}
