// The limits of a path along a straight line.

ghost use Rattle.std.specs.Prelude.{◌≡◌, ℕ, ◌*◌, ◌/◌, ◌≤◌, ◌<◌, min, unsigned_abs};
ghost use Rattle.plc_types.specs.Limits.{AreLimits};
ghost use Rattle.linear_path.specs.Line.{way_of, longest_way_of, keeps_velocity, keeps_change, path_limits_of};
ghost use Rattle.linear_path.specs.Path.{AreAxisLimits, AreAxesLimits};
ghost use Rattle.linear_path.specs.Rates.{IsRateOf, AreGreatestRates};

use crate::line::LinePath;
use motion_numbers::{MOST_STEP, MOST_WAY};
use plc_types::Limits;

#[derive(Clone, Copy)]
struct PathRates {
    velocity: u64,
    acceleration: u64,
    deceleration: u64,
}

/// The limits of the path along a line, from the limits of its axes, one for each: the greatest
/// velocity, acceleration and deceleration of the path with which each axis, given one unit more
/// for the rounding of its places where it neither rests nor has the longest way, keeps its own. A
/// line of length 0 has 1 for each. In internal units per cycle.
pub fn path_limits(line: &LinePath, limits: &[Limits]) -> Limits
    requires { AreAxesLimits line.now.count limits.now }
    ensures value { result ≡
        path_limits_of line.now.count line.now.starts line.now.targets limits.now }
    ensures in_range { AreLimits result }
{
    let length = line.longest_way();
    if length == 0 {
        return Limits {
            lo: 0,
            hi: 0,
            vmax: 1,
            amax: 1,
            dmax: 1,
        };
    }
    let rates = path_rates(line, length, limits);
    Limits {
        lo: 0,
        hi: length as i64,
        vmax: rates.velocity as i64,
        amax: rates.acceleration as i64,
        dmax: rates.deceleration as i64,
    }
}

// The greatest rates of a path of this length with which every axis, rounding included, keeps its
// limits.
fn path_rates(line: &LinePath, length: u64, limits: &[Limits]) -> PathRates
    requires axes { AreAxesLimits line.now.count limits.now }
    requires some { 0 < length }
    requires longest { length ≡ longest_way_of line.now.count line.now.starts line.now.targets }
    requires in_range { length ≤ MOST_WAY }
    ensures { AreGreatestRates line.now.starts line.now.targets length limits.now
        line.now.count result.velocity result.acceleration result.deceleration }
{
    let mut velocity = MOST_STEP;
    let mut acceleration = MOST_STEP;
    let mut deceleration = MOST_STEP;
    for axis in 0..line.count {
        let own = axis_rates(line.way(axis), length, &limits[axis as usize]);
        velocity = own.velocity.min(velocity);
        acceleration = own.acceleration.min(acceleration);
        deceleration = own.deceleration.min(deceleration);
    }
    PathRates {
        velocity,
        acceleration,
        deceleration,
    }
}

// The greatest rates of the path with which an axis of this way, rounding included, keeps its
// limits.
fn axis_rates(way: u64, length: u64, limits: &Limits) -> PathRates
    requires axis { AreAxisLimits limits.now }
    requires longest { way ≤ length }
    requires some { 0 < length }
    requires in_range { length ≤ MOST_WAY }
    ensures velocity { IsRateOf result.velocity
        (keeps_velocity way length (unsigned_abs limits.now.vmax)) }
    ensures acceleration { IsRateOf result.acceleration
        (keeps_change way length (unsigned_abs limits.now.amax)) }
    ensures deceleration { IsRateOf result.deceleration
        (keeps_change way length (unsigned_abs limits.now.dmax)) }
{
    PathRates {
        velocity: greatest_velocity(way, length, limits.vmax as u64),
        acceleration: greatest_change(way, length, limits.amax as u64),
        deceleration: greatest_change(way, length, limits.dmax as u64),
    }
}

// The greatest velocity of the path at which an axis of this way goes no faster than `vmax`.
fn greatest_velocity(way: u64, length: u64, vmax: u64) -> u64
    requires some { 0 < length }
    requires in_range { length ≤ MOST_WAY }
    requires rate { vmax ≤ MOST_STEP }
    ensures { IsRateOf result (keeps_velocity way length vmax) }
{
    if way == 0 {
        return MOST_STEP;
    }
    greatest_rate(vmax, length, way)
}

// The greatest change of the path's step that changes the step of an axis of this way by at most
// `most`.
fn greatest_change(way: u64, length: u64, most: u64) -> u64
    requires longest { way ≤ length }
    requires some { 0 < length }
    requires in_range { length ≤ MOST_WAY }
    requires room { 1 ≤ most }
    requires rate { most ≤ MOST_STEP }
    ensures { IsRateOf result (keeps_change way length most) }
{
    if way == 0 {
        return MOST_STEP;
    }
    if way == length {
        return most;
    }
    greatest_rate(most - 1, length, way)
}

// The rate of an axis times the length of the path over its way, up to the greatest rate.
fn greatest_rate(rate: u64, length: u64, way: u64) -> u64
    requires way { 0 < way }
    requires length { length ≤ MOST_WAY }
    requires rate { rate ≤ MOST_STEP }
    ensures value { result ≡ min MOST_STEP (rate * length / way) }
    ensures most { result ≤ MOST_STEP }
{
    (rate as u128 * length as u128 / way as u128).min(MOST_STEP as u128) as u64
}
