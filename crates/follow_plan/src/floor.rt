// Products divided and rounded down.

ghost use Rattle.std.specs.Prelude.{◌≡◌, ◌≤◌, pos, ◌*ℤ◌, ◌≤ℤ◌, unsigned_abs};
ghost use Rattle.follow_plan.specs.Floor.{floor_of};

// The product of `a` and `b` divided by `d` and rounded down.
pub fn floor_of_product(a: i64, b: i64, d: i64) -> i128
    requires { pos 1 ≤ℤ d }
    ensures value { result ≡ floor_of (a *ℤ b) d }
    ensures small { unsigned_abs result ≤ unsigned_abs (a *ℤ b) }
{
    match a.checked_mul(b) {
        Some(product) => product.div_euclid(d) as i128,
        None => (a as i128 * b as i128).div_euclid(d as i128),
    }
}
