// The names of a text, each found again in a few steps.

ghost use Rattle.std.specs.Prelude.{◌≡◌, ◌++◌, ◌∷◌, [], ℕ, List, OnErr, OnOk, Some, if◌then◌else◌};
ghost use Rattle.std.specs.List.{list_any};
ghost use Rattle.std.specs.Str.{bytes_eq};
ghost use Rattle.st_check.specs.Indexes.{value_at};
ghost use Rattle.st_check.specs.Names as spec;

use crate::known::{Known, Sort};
use motion_numbers::OutOfMemory;
use plc_types::Name;
use std::alloc::Global;
use std::collections::BTreeMap;
use std::marker::Model;

/// The names of tasks and blocks. Contracts see them as a list.
#[derive(Drop)]
pub struct UsedNames {
    alloc: Global,
    names: Vec<Name>,
    index: BTreeMap<Vec<u8>, ()>,
}

impl Model for UsedNames {
    ghost use Rattle.std.specs.Prelude.{ℕ, List};

    ghost Value = { List (List ℕ) };

    ghost use Rattle.st_check.specs.Indexes.{HasNames};

    ghost view = { λ n. n.names.items };

    ghost invariant = { λ n. HasNames n.names.items n.index };
}

/// The names of a task, and what they name. Contracts see them as a list.
#[derive(Drop)]
pub struct KnownNames {
    alloc: Global,
    names: Vec<Known>,
    index: BTreeMap<Vec<u8>, Sort>,
}

impl Model for KnownNames {
    ghost use Rattle.std.specs.Prelude.{List};
    ghost use Rattle.st_check.specs.declared.known.Known.{Known};

    ghost Value = { List Known };

    ghost use Rattle.st_check.specs.Indexes.{HasSorts};

    ghost view = { λ n. n.names.items };

    ghost invariant = { λ n. HasSorts n.names.items n.index };
}

// Gives a name a value, in place of one that it has.
fn insert<X: Drop>(
    alloc: Global,
    index: &mut BTreeMap<Vec<u8>, X>,
    name: &[u8],
    value: X,
) -> Result<(), OutOfMemory>
    ensures inserted { OnOk result ((q : List ℕ) → value_at q index.new ≡
        (if bytes_eq q name.now then Some value else value_at q index.old)) }
    ensures left { OnErr result ((q : List ℕ) → value_at q index.new ≡ value_at q index.old) }
{
    let mut key = Vec::new(alloc);
    let Ok(()) = key.extend_from_slice(name) else {
        return Err(OutOfMemory);
    };
    match index.insert(key, value) {
        Ok(_) => Ok(()),
        Err(_) => Err(OutOfMemory),
    }
}

impl UsedNames {
    /// No names.
    pub fn new(alloc: Global) -> UsedNames
        ensures { result ≡ [] }
    {
        UsedNames {
            alloc,
            names: Vec::new(alloc),
            index: BTreeMap::new(alloc),
        }
    }

    /// Whether this is one of them.
    pub fn has(&self, name: &[u8]) -> bool
        ensures { result ≡ list_any (λ n. bytes_eq n name.now) self.now }
    {
        self.index.contains_key(name)
    }

    /// Adds a name.
    pub fn push(&mut self, name: Name) -> Result<(), OutOfMemory>
        ensures { OnOk result (self.new ≡ self.old ++ name ∷ []) }
    {
        let Ok(()) = self.names.reserve(1) else {
            return Err(OutOfMemory);
        };
        insert(self.alloc, &mut self.index, name.bytes(), ())?;
        let _ = self.names.push(name);
        Ok(())
    }
}

impl KnownNames {
    /// No names.
    pub fn new(alloc: Global) -> KnownNames
        ensures { result ≡ [] }
    {
        KnownNames {
            alloc,
            names: Vec::new(alloc),
            index: BTreeMap::new(alloc),
        }
    }

    /// What a name names.
    pub fn sort_of(&self, name: &[u8]) -> Option<Sort>
        ensures { result ≡ spec.sort_among self.now name.now }
    {
        self.index.get(name).copied()
    }

    /// Whether this is one of them.
    pub fn has(&self, name: &[u8]) -> bool
        ensures { result ≡ list_any (λ k. bytes_eq k.name name.now) self.now }
    {
        self.index.contains_key(name)
    }

    /// Adds a name.
    pub fn push(&mut self, known: Known) -> Result<(), OutOfMemory>
        ensures { OnOk result (self.new ≡ self.old ++ known ∷ []) }
    {
        let Ok(()) = self.names.reserve(1) else {
            return Err(OutOfMemory);
        };
        if self.sort_of(known.name.bytes()).is_none() {
            insert(self.alloc, &mut self.index, known.name.bytes(), known.sort)?;
        }
        let _ = self.names.push(known);
        Ok(())
    }

    /// Forgets all names.
    pub fn clear(&mut self)
        ensures { self.new ≡ [] }
    {
        self.names.clear();
        self.index.clear();
    }
}
