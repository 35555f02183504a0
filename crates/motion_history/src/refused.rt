// How a text is refused, and in which version one is written.

ghost use Rattle.std.specs.Prelude.{◌≡◌};
ghost use Rattle.motion_history.specs.Versions as spec;

/// A rule of a text's format: its letter and its number, as in `B8`.
#[derive(Clone, Copy, Debug, PartialEq, Eq)]
pub struct Rule {
    /// In ASCII.
    pub letter: u8,
    pub number: u8,
}

/// The first place of a text that breaks a rule, and the first rule that it breaks.
#[derive(Clone, Copy, Debug, PartialEq, Eq)]
pub struct TextRefused {
    pub place: u64,
    pub rule: Rule,
}

/// Why a text is not read.
#[derive(Clone, Copy, Debug, PartialEq, Eq)]
pub enum TextFault {
    Refused(TextRefused),
    OutOfMemory,
}

/// The versions of a bench and of a trace.
#[derive(Clone, Copy, Debug, PartialEq, Eq)]
pub enum TraceVersion {
    /// Without the braking limit, which is then the axis's `amax`.
    One,
    /// With the braking limit of each axis.
    Two,
    /// With all kinds of block, and with fields for an axis's jerk limit, for whether it is modulo,
    /// and for the direction of an absolute move.
    Three,
}

impl TraceVersion {
    /// Its number, as texts have it.
    pub fn number(self) -> u8
        ensures { result ≡ spec.number_of self }
    {
        match self {
            TraceVersion::One => 1,
            TraceVersion::Two => 2,
            TraceVersion::Three => 3,
        }
    }
}
