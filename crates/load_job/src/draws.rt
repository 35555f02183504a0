// The drawn numbers.

ghost use Rattle.std.specs.Prelude.{◌≡◌, ◌<◌};
ghost use Rattle.load_job.specs.Draws as spec;

/// What a state is multiplied by.
const MULTIPLIER: u64 = 6_364_136_223_846_793_005;

/// What is then added to it.
const INCREMENT: u64 = 1_442_695_040_888_963_407;

/// A linear congruential generator modulo 2^64.
#[derive(Clone, Copy)]
pub struct Draws {
    pub state: u64,
}

impl Draws {
    /// The draws from a seed on.
    pub fn from_seed(seed: u32) -> Draws
        ensures { result.state ≡ seed }
    {
        Draws {
            state: u64::from(seed),
        }
    }

    /// The next number, below k.
    pub fn draw(&mut self, k: u64) -> u64
        requires { 0 < k }
        ensures value { result ≡ spec.below k (spec.next_state self.old.state) }
        ensures state { self.new.state ≡ spec.next_state self.old.state }
        ensures range { result < k }
    {
        self.state = self.state.wrapping_mul(MULTIPLIER).wrapping_add(INCREMENT);
        (self.state >> 33) % k
    }
}
