// The integer root.
ghost use Rattle.std.specs.Prelude.{◌≡◌, ℕ, ◌+◌, ◌*◌, ◌/◌, ◌^◌, ◌<◌, ◌≤◌};

/// The greatest `k` with `k * k <= n`, by Newton's steps from above. Its steps aren't counted.
pub fn root(n: u128) -> u64
    requires { n < 2 ^ 120 }
    ensures square { result * result ≤ n }
    ensures greatest { (k : ℕ) → k * k ≤ n → k ≤ result }
    ensures small { result < 2 ^ 60 }
{
    if n == 0 {
        return 0;
    }
    let mut root: u64 = 1 << (n.ilog2() / 2 + 1);
    let mut next = nearer(n, root);
    while next < root {
        root = next;
        next = nearer(n, root);
    }
    root
}

// The mean of a number that isn't below the root and of `n` divided by it: never below the root.
fn nearer(n: u128, above: u64) -> u64
    requires some { 0 < above }
    requires size { above ≤ 2 ^ 60 }
    requires not_below { n < (above + 1) * (above + 1) }
    ensures value { result ≡ (above + n / above) / 2 }
    ensures not_below { n < (result + 1) * (result + 1) }
{
    (above + (n / above as u128) as u64) / 2
}
