// Numbers.

ghost use Rattle.std.specs.Prelude.{◌≡◌};
ghost use Rattle.st_tokens.specs.Numbers as spec;

/// What stands for a number that is too great.
const TOO_GREAT: u64 = 2147483648;

// The number that digits write, or what stands for one that is too great.
#[tactic(auto, using(crate::proofs::Numbers::capped_once), unfolding(crate::specs::Numbers::number_of))]
pub fn number_of(digits: &[u8]) -> u32
    ensures { result ≡ spec.number_of digits.now }
{
    let mut number = 0u64;
    for digit in digits {
        number = (number * 10 + digit.saturating_sub(b'0') as u64).min(TOO_GREAT);
    }
    number as u32
}
