// Names and what they name, each found again in a few steps.

ghost use Rattle.std.specs.Prelude.{◌≡◌, ◌≤◌, ◌∷◌, [], ℕ, List, OnErr, OnOk, Some, if◌then◌else◌, take};
ghost use Rattle.std.specs.Str.{bytes_eq, str_to_ascii_lowercase};
ghost use Rattle.iec_names.specs.Indexes.{value_at};
ghost use Rattle.iec_names.specs.Tables as spec;

use crate::sort::{Known, Sort};
use iec_tree::Name;
use motion_numbers::OutOfMemory;
use std::alloc::Global;
use std::collections::BTreeMap;
use std::marker::Model;

/// Names, and what they name. Contracts see them as a list, the latest first.
#[derive(Drop)]
pub struct Table {
    alloc: Global,
    names: Vec<Known>,
    index: BTreeMap<Vec<u8>, Sort>,
}

impl Model for Table {
    ghost use Rattle.std.specs.Prelude.{List, reverse};
    ghost use Rattle.iec_names.specs.declared.sort.Known.{Known};

    ghost Value = { List Known };

    ghost use Rattle.iec_names.specs.Indexes.{HasSorts};

    ghost view = { λ t. reverse t.names.items };

    ghost invariant = { λ t. HasSorts t.names.items t.index };
}

/// A name in small letters.
#[derive(Clone, Copy)]
struct Key {
    bytes: [u8; 32],
    len: usize,
}

// A name in small letters.
fn key_of(name: &Name) -> Key
    ensures bytes { take result.len result.bytes ≡ str_to_ascii_lowercase name.now }
    ensures few { result.len ≤ 32 }
{
    let mut bytes = [0u8; 32];
    let len = name.bytes().len();
    bytes[..len].copy_from_slice(name.bytes());
    bytes[..len].make_ascii_lowercase();
    Key { bytes, len }
}

// Gives a key a value, in place of one that it has.
fn insert<X: Drop>(
    alloc: Global,
    index: &mut BTreeMap<Vec<u8>, X>,
    bytes: &[u8],
    value: X,
) -> Result<(), OutOfMemory>
    ensures inserted { OnOk result ((q : List ℕ) → value_at q index.new ≡
        (if bytes_eq q bytes.now then Some value else value_at q index.old)) }
    ensures left { OnErr result ((q : List ℕ) → value_at q index.new ≡ value_at q index.old) }
{
    let mut key = Vec::new(alloc);
    let Ok(()) = key.extend_from_slice(bytes) else {
        return Err(OutOfMemory);
    };
    match index.insert(key, value) {
        Ok(_) => Ok(()),
        Err(_) => Err(OutOfMemory),
    }
}

impl Table {
    /// No names.
    pub fn new(alloc: Global) -> Table
        ensures { result ≡ [] }
    {
        Table {
            alloc,
            names: Vec::new(alloc),
            index: BTreeMap::new(alloc),
        }
    }

    /// What a name names, in any case of letters: what it named last.
    pub fn sort_of(&self, name: &Name) -> Option<Sort>
        ensures { result ≡ spec.sort_among self.now name.now }
    {
        let key = key_of(name);
        self.index.get(&key.bytes[..key.len]).copied()
    }

    /// A name names something from now on.
    pub fn define(&mut self, known: Known) -> Result<(), OutOfMemory>
        ensures { OnOk result (self.new ≡ known ∷ self.old) }
    {
        let Ok(()) = self.names.reserve(1) else {
            return Err(OutOfMemory);
        };
        let key = key_of(&known.name);
        insert(
            self.alloc,
            &mut self.index,
            &key.bytes[..key.len],
            known.sort,
        )?;
        let _ = self.names.push(known);
        Ok(())
    }

    /// Forgets all names.
    pub fn clear(&mut self)
        ensures { self.new ≡ [] }
    {
        self.names.clear();
        self.index.clear();
    }
}
