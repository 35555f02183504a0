// Reading decimal numbers.
ghost use Rattle.std.specs.Prelude.{◌≡◌, ◌+◌, ◌-◌, ◌*◌, ◌^◌, ◌<◌, ◌≤◌, IsTrue, IfOk, length, unsigned_abs};
ghost use Rattle.std.specs.Char.{is_ascii_digit};
ghost use Rattle.std.specs.List.{list_all};
ghost use Rattle.std.specs.Str.Parse.{digits_value};
ghost use Rattle.fixed_units.specs.Numbers.{is_digits, digits_reading, size_reading, reading_of};

/// Why a text isn't read as a number of internal units.
#[derive(Clone, Copy, Debug, PartialEq, Eq)]
pub enum UnitFault {
    /// The text isn't a decimal number.
    NotNumber,
    /// There are more than nine digits after the point.
    TooFine,
    /// The number is above 10^9 user units in size.
    TooLarge,
}

// How many places a number has after its point at most.
pub(crate) const PLACES: usize = 9;

// The internal units of a user unit.
pub(crate) const UNIT: u64 = 1_000_000_000;

// The greatest size of a number in internal units.
const LIMIT: u128 = 1_000_000_000_000_000_000;

/// Reads a decimal number of user units: an optional `-`, one or more digits, and optionally a
/// point with one or more digits after it. The answer is in internal units, each a billionth.
pub fn read_units(text: &str) -> Result<i64, UnitFault>
    ensures reading { result ≡ reading_of text.now }
    ensures bound { IfOk result (λ units. unsigned_abs units ≤ 10 ^ 18) }
{
    match text.strip_prefix('-') {
        Some(number) => Ok(-(read_size(number)? as i64)),
        None => Ok(read_size(text)? as i64),
    }
}

// Reads a number without a sign.
fn read_size(number: &str) -> Result<u64, UnitFault>
    ensures reading { result ≡ size_reading number.now }
    ensures bound { IfOk result (λ size. size ≤ 10 ^ 18) }
{
    let Some((whole, fraction)) = number.split_once('.') else {
        return read_digits(number, "");
    };
    if !is_digits(fraction) {
        return Err(UnitFault::NotNumber);
    }
    read_digits(whole, fraction)
}

// Reads the digits before the point and those after it.
fn read_digits(whole: &str, fraction: &str) -> Result<u64, UnitFault>
    requires { IsTrue (list_all is_ascii_digit fraction.now) }
    ensures reading { result ≡ digits_reading whole.now fraction.now }
    ensures bound { IfOk result (λ size. size ≤ 10 ^ 18) }
{
    if !is_digits(whole) {
        return Err(UnitFault::NotNumber);
    }
    if fraction.len() > PLACES {
        return Err(UnitFault::TooFine);
    }
    let Ok(units) = whole.parse::<u64>() else {
        return Err(UnitFault::TooLarge);
    };
    let size = u128::from(units) * UNIT as u128 + u128::from(billionths(fraction));
    if size > LIMIT {
        return Err(UnitFault::TooLarge);
    }
    Ok(size as u64)
}

// The digits after the point as billionths.
fn billionths(fraction: &str) -> u64
    requires digits { IsTrue (list_all is_ascii_digit fraction.now) }
    requires places { length fraction.now ≤ 9 }
    ensures value { result ≡ digits_value 10 fraction.now * 10 ^ (9 - length fraction.now) }
    ensures bound { result < 10 ^ 9 }
{
    let mut digits = 0u64;
    for digit in fraction.as_bytes() {
        digits = digits * 10 + u64::from(*digit - b'0');
    }
    digits * 10u64.pow((PLACES - fraction.len()) as u32)
}

// Whether the text is one digit or more.
fn is_digits(text: &str) -> bool
    ensures { result ≡ is_digits text.now }
{
    !text.is_empty() && has_digits_alone(text)
}

// Whether each character of the text is a digit.
fn has_digits_alone(text: &str) -> bool
    ensures { result ≡ list_all is_ascii_digit text.now }
{
    text.bytes().all(|byte| byte.is_ascii_digit())
}
