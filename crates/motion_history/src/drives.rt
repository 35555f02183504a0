// The drives of a machine, as a text defines them.

ghost use Rattle.std.specs.Prelude.{◌≡◌, ◌<◌, ◌+◌, ◌^◌, ◌++◌, ◌∷◌, [], OnErr, OnOk, length, slice_get, vec_len};
ghost use Rattle.std.specs.Option.{option_copied};

use motion_numbers::OutOfMemory;
use std::alloc::Global;
use std::marker::Model;

/// The steps in which a drive has a fault. Contracts see it as the list of their numbers.
#[derive(Drop)]
pub struct FaultList {
    steps: Vec<u32>,
}

impl Model for FaultList {
    ghost use Rattle.std.specs.Prelude.{ℕ, List, length, ◌<◌, ◌^◌};

    ghost Value = { List ℕ };

    ghost view = { λ f. f.steps.items };

    ghost invariant = { λ f. length f.steps.items < 2 ^ 32 };
}

impl FaultList {
    /// A list without a step.
    pub fn new(alloc: Global) -> FaultList
        ensures { result ≡ [] }
    {
        FaultList {
            steps: Vec::new(alloc),
        }
    }

    /// Adds a step after the others.
    pub fn push(&mut self, step: u32) -> Result<(), OutOfMemory>
        requires { length self.old + 1 < 2 ^ 32 }
        ensures ok { OnOk result (self.new ≡ self.old ++ step ∷ []) }
        ensures unchanged { OnErr result (self.new ≡ self.old) }
    {
        match self.steps.push(step) {
            Ok(()) => Ok(()),
            Err(_) => Err(OutOfMemory),
        }
    }

    /// The steps, in their order.
    pub fn as_slice(&self) -> &[u32]
        ensures { result.now ≡ self.now }
    {
        self.steps.as_slice()
    }

    /// How many steps there are.
    pub fn len(&self) -> u32
        ensures { result ≡ length self.now }
    {
        self.steps.len() as u32
    }

    /// The step at a place counted from 0.
    pub fn get(&self, place: u32) -> Option<&u32>
        ensures { option_copied result ≡ slice_get self.now place }
    {
        self.steps.get(place as usize)
    }
}

/// A drive: its lag in steps, up to 64, and the steps in which it has a fault, at most 1,000.
#[derive(Drop)]
pub struct DriveDef {
    pub lag: u8,
    pub faults: FaultList,
}

/// The drives of a machine, one per axis. Contracts see it as their list.
#[derive(Drop)]
pub struct DriveDefs {
    defs: Vec<DriveDef>,
}

impl Model for DriveDefs {
    ghost use Rattle.std.specs.Prelude.{List, length, ◌<◌, ◌^◌};
    ghost use Rattle.motion_history.specs.declared.drives.DriveDef.{DriveDef};

    ghost Value = { List DriveDef };

    ghost view = { λ d. d.defs.items };

    ghost invariant = { λ d. length d.defs.items < 2 ^ 32 };
}

impl DriveDefs {
    /// A list without a drive.
    pub fn new(alloc: Global) -> DriveDefs
        ensures { result ≡ [] }
    {
        DriveDefs {
            defs: Vec::new(alloc),
        }
    }

    /// The list of these drives.
    pub fn of(defs: Vec<DriveDef>) -> DriveDefs
        requires { vec_len defs < 2 ^ 32 }
        ensures { result ≡ defs.items }
    {
        DriveDefs { defs }
    }

    /// Adds a drive after the others.
    pub fn push(&mut self, def: DriveDef) -> Result<(), OutOfMemory>
        requires { length self.old + 1 < 2 ^ 32 }
        ensures ok { OnOk result (self.new ≡ self.old ++ def ∷ []) }
        ensures unchanged { OnErr result (self.new ≡ self.old) }
    {
        match self.defs.push(def) {
            Ok(()) => Ok(()),
            Err(_) => Err(OutOfMemory),
        }
    }

    /// The drives, in the order of their axes.
    pub fn as_slice(&self) -> &[DriveDef]
        ensures { result.now ≡ self.now }
    {
        self.defs.as_slice()
    }

    /// How many drives there are.
    pub fn len(&self) -> u32
        ensures { result ≡ length self.now }
    {
        self.defs.len() as u32
    }

    /// The drive at a place counted from 0.
    pub fn get(&self, place: u32) -> Option<&DriveDef>
        ensures { option_copied result ≡ slice_get self.now place }
    {
        self.defs.get(place as usize)
    }
}
