// Standard function blocks.

ghost use Rattle.std.specs.Prelude.{◌≡◌};
ghost use Rattle.iec_tree.specs.Standard as spec;

/// The standard function blocks.
#[derive(Clone, Copy, Debug, PartialEq, Eq)]
pub enum Standard {
    Ton,
    Tof,
    Tp,
    RTrig,
    FTrig,
    Ctu,
    Sr,
    Rs,
}

/// The standard function blocks.
pub const STANDARD: [Standard; 8] = [
    Standard::Ton,
    Standard::Tof,
    Standard::Tp,
    Standard::RTrig,
    Standard::FTrig,
    Standard::Ctu,
    Standard::Sr,
    Standard::Rs,
];

// How a block is written in capitals.
#[tactic(auto, unfolding(crate::specs::Standard::standard_text))]
fn standard_text(standard: Standard) -> &'static str
    ensures { result.now ≡ spec.standard_text standard }
{
    match standard {
        Standard::Ton => "TON",
        Standard::Tof => "TOF",
        Standard::Tp => "TP",
        Standard::RTrig => "R_TRIG",
        Standard::FTrig => "F_TRIG",
        Standard::Ctu => "CTU",
        Standard::Sr => "SR",
        Standard::Rs => "RS",
    }
}

/// The standard function block of this name, in any case of letters.
#[tactic(auto, unfolding(crate::specs::Standard::standard_named))]
pub fn standard_named(name: &[u8]) -> Option<Standard>
    ensures { result ≡ spec.standard_named name.now }
{
    STANDARD
        .iter()
        .find(|s| standard_text(**s).as_bytes().eq_ignore_ascii_case(name))
        .copied()
}
