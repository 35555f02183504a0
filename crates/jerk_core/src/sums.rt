// Sums of whole numbers, in closed form.

ghost use Rattle.std.specs.Prelude.{◌≡◌, ◌*◌, ◌≤◌};
ghost use Rattle.jerk_core.specs.Sums.{triangle_of, tetrahedron_of};

/// More falls by j than any speed has.
pub(crate) const MOST_FALLS: u64 = 150_000;

/// More cycles than any ramp has.
pub(crate) const MOST_CYCLES: u64 = 500_000;

// The numbers from 1 to n, added up.
pub(crate) fn triangle(n: u64) -> u64
    requires { n ≤ 1000000000 }
    ensures { result ≡ triangle_of n }
{
    n * (n + 1) / 2
}

// The triangles below the n-th, added up.
pub(crate) fn tetrahedron(n: u64) -> u64
    requires { n ≤ MOST_CYCLES }
    ensures value { result ≡ tetrahedron_of n }
    ensures small { result ≤ 100000000000000000 }
{
    triangle(n) * n.saturating_sub(1) / 3
}
