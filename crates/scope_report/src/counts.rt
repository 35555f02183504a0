// How often a block was called, and what it replied.

ghost use Rattle.std.specs.Prelude.{◌≡◌, [], ◌∷◌};
ghost use Rattle.scope_report.specs.Counting as spec;

use plc_types::Outputs;

/// How often a block was called, and how many of the replies show Done and Error.
#[derive(Clone, Copy)]
pub struct Counts {
    pub calls: u64,
    pub done: u64,
    pub errors: u64,
}

/// The counts of no call.
pub fn no_calls() -> Counts
    ensures { result ≡ spec.counts_of [] }
{
    Counts {
        calls: 0,
        done: 0,
        errors: 0,
    }
}

/// The counts with those of one reply more.
pub fn counted(counts: Counts, reply: &Outputs) -> Counts
    requires { spec.HasOneMore counts }
    ensures { result ≡ spec.added counts (spec.counts_of (reply.now ∷ [])) }
{
    Counts {
        calls: counts.calls + 1,
        done: counts.done + u64::from(reply.done),
        errors: counts.errors + u64::from(reply.error),
    }
}

/// The sums of counts.
pub fn sum(a: Counts, b: Counts) -> Counts
    requires { spec.CanAdd a b }
    ensures { result ≡ spec.added a b }
{
    Counts {
        calls: a.calls + b.calls,
        done: a.done + b.done,
        errors: a.errors + b.errors,
    }
}
