// The part of an axis's way at a place of the path.

ghost use Rattle.std.specs.Prelude.{◌≡◌, ◌*◌, ◌/◌, ◌<◌, ◌≤◌, ◌-ℤ◌, unsigned_abs};
ghost use Rattle.linear_path.specs.Line.{part_of, place_between};
ghost use Rattle.motion_numbers.specs.Ranges.{IsPlace};

// The part of a way that an axis has gone at place `s` of a path, rounded down.
#[tactic(auto, unfolding(crate::specs::Line::part_of))]
fn part(way: u64, length: u64, s: u64) -> u64
    requires way { way ≤ length }
    requires place { s ≤ length }
    ensures value { result ≡ part_of way length s }
    ensures within { result ≤ way }
{
    if length == 0 {
        return 0;
    }
    if way == length {
        return s;
    }
    scaled(way, s, length)
}

// The product of `a` and `b` divided by `d` and rounded down.
fn scaled(a: u64, b: u64, d: u64) -> u64
    requires divisor { 0 < d }
    requires part { b ≤ d }
    ensures value { result ≡ a * b / d }
    ensures within { result ≤ a }
{
    let product = a as u128 * b as u128;
    if product <= u64::MAX as u128 {
        product as u64 / d
    } else {
        (product / d as u128) as u64
    }
}

// The place of an axis that goes from a start to a target, at place `s` of a path.
pub fn place_at(start: i64, target: i64, length: u64, s: u64) -> i64
    requires start_in_range { IsPlace start }
    requires target_in_range { IsPlace target }
    requires longest { unsigned_abs (target -ℤ start) ≤ length }
    requires place { s ≤ length }
    ensures value { result ≡ place_between start target length s }
    ensures small { IsPlace result }
{
    let gone = part(target.abs_diff(start), length, s) as i64;
    if target < start {
        start - gone
    } else {
        start + gone
    }
}
