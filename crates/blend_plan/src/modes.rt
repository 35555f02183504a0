// The blending modes.
ghost use Rattle.std.specs.Prelude.{◌≡◌};
ghost use Rattle.blend_plan.specs.Blends.{blend_velocity_of};

/// At which velocity the target of the first of two moves is passed: the buffer modes BlendingLow,
/// BlendingPrevious, BlendingNext and BlendingHigh of PLCopen Motion Control Part 1.
#[derive(Clone, Copy, Debug, PartialEq, Eq)]
pub enum Blend {
    /// At the lesser velocity of the two moves.
    Low,
    /// At the velocity of the first move.
    Previous,
    /// At the velocity of the second move.
    Next,
    /// At the greater velocity of the two moves.
    High,
}

/// The blend velocity of a mode, from the velocities of the first and the second move, in internal
/// units per cycle.
pub fn blend_velocity(mode: Blend, first: i64, second: i64) -> i64
    ensures { result ≡ blend_velocity_of mode first second }
{
    match mode {
        Blend::Low => first.min(second),
        Blend::Previous => first,
        Blend::Next => second,
        Blend::High => first.max(second),
    }
}
