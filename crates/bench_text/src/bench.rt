// A bench: a machine, and the events that it goes through.

ghost use Rattle.std.specs.Prelude.{◌≡◌};
ghost use Rattle.bench_text.specs.BenchState.{IsBench};

use motion_history::{Config, DriveDefs, TraceVersion};
use plc_types::Inputs;
use std::marker::Model;

/// A line of events.
#[derive(Clone, Copy, Debug, PartialEq, Eq)]
pub enum BenchLine {
    /// A call of a block, by its number.
    Call { instance: u16, inputs: Inputs },
    /// This many cycles, 1 to 200,000.
    Cycles { count: u32 },
    /// The end of a task, by its number.
    End { task: u8 },
}

/// A bench that was read. Contracts see it as a `BenchState`.
#[derive(Drop)]
pub struct Bench {
    pub(crate) version: TraceVersion,
    pub(crate) config: Config,
    pub(crate) drives: DriveDefs,
    pub(crate) lines: Vec<BenchLine>,
}

impl Model for Bench {
    ghost use Rattle.bench_text.specs.BenchState.{BenchState, IsBench};

    ghost Value = { BenchState };

    ghost view = { λ b. record {
      version = b.version;
      config = b.config;
      drives = b.drives;
      lines = b.lines.items;
    } };

    ghost invariant = { λ b. IsBench (record {
      version = b.version;
      config = b.config;
      drives = b.drives;
      lines = b.lines.items;
    }) };
}

impl Bench {
    /// The bench of these parts, which are whole.
    pub fn new(
        version: TraceVersion,
        config: Config,
        drives: DriveDefs,
        lines: Vec<BenchLine>,
    ) -> Bench
        requires { IsBench (record {
          version = version;
          config = config;
          drives = drives;
          lines = lines.items;
        }) }
        ensures { result ≡ record {
          version = version;
          config = config;
          drives = drives;
          lines = lines.items;
        } }
    {
        Bench {
            version,
            config,
            drives,
            lines,
        }
    }

    /// Its version, 1 to 3.
    pub fn version(&self) -> TraceVersion
        ensures { result ≡ self.now.version }
    {
        self.version
    }

    /// The configuration of its machine.
    pub fn config(&self) -> &Config
        ensures value { result.now ≡ self.now.config }
        ensures bench { IsBench self.now }
    {
        &self.config
    }

    /// The drive of each axis. One that no line states has no lag and no faults.
    pub fn drives(&self) -> &DriveDefs
        ensures { result.now ≡ self.now.drives }
    {
        &self.drives
    }

    /// Its lines of events, in their order.
    pub fn lines(&self) -> &[BenchLine]
        ensures { result.now ≡ self.now.lines }
    {
        self.lines.as_slice()
    }
}
