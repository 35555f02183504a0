// The blocks that a text has named, so that each is found again in a few steps.

ghost use Rattle.std.specs.Prelude.{◌≡◌, ◌≤◌, ◌<◌, IfSome, Some, length, vec_len};
ghost use Rattle.machine_words.specs.Names as spec;

use crate::name::{block_at, is_same_name};
use motion_history::Builder;
use std::alloc::Global;

/// A block that was named: its name as a number, and the block's own number.
#[derive(Clone, Copy)]
struct KnownBlock {
    key: u128,
    number: u16,
}

/// The blocks that were named, in the order of their names as numbers. What stands here decides how
/// soon a block is found, and never which.
#[derive(Drop)]
pub struct KnownBlocks {
    blocks: Vec<KnownBlock>,
}

impl KnownBlocks {
    /// No block was named yet.
    pub fn new(alloc: Global) -> KnownBlocks {
        KnownBlocks {
            blocks: Vec::new(alloc),
        }
    }

    /// The number of the block of this name: in a few steps where it was named before, else after a
    /// look at each block.
    pub fn block_at(&mut self, machine: &Builder, name: &[u8]) -> Option<u16>
        ensures value { result ≡ spec.block_at machine.now name.now }
        ensures within { IfSome result (λ n. n < length machine.now.blocks) }
    {
        let key = key_of(name);
        let place = self.place_of(key);
        let known = self.known_at(place, key);
        let Some(number) = named_by(machine, known, name) else {
            return self.learn(machine, name, place, key);
        };
        Some(number)
    }

    // Where a block of this name stands, or would.
    fn place_of(&self, key: u128) -> usize
        ensures { result ≤ vec_len self.now.blocks }
    {
        self.blocks.partition_point(|known| known.key < key)
    }

    // The number of the block at a place, if it has this name.
    fn known_at(&self, place: usize, key: u128) -> Option<u16> {
        let known = self.blocks.get(place)?;
        if known.key == key {
            Some(known.number)
        } else {
            None
        }
    }

    // The number of the block of this name, which is known from now on.
    fn learn(&mut self, machine: &Builder, name: &[u8], place: usize, key: u128) -> Option<u16>
        requires { place ≤ vec_len self.old.blocks }
        ensures value { result ≡ spec.block_at machine.now name.now }
        ensures within { IfSome result (λ n. n < length machine.now.blocks) }
    {
        let number = block_at(machine, name)?;
        // Without memory it is looked for again.
        let _ = self.blocks.insert(place, KnownBlock { key, number });
        Some(number)
    }
}

// The number that the bytes of a name make.
fn key_of(name: &[u8]) -> u128 {
    let mut key = 0u128;
    for byte in name {
        key = key.wrapping_mul(256).wrapping_add(u128::from(*byte));
    }
    key
}

// The number of a block, if there is one and it has this name.
fn named_by(machine: &Builder, number: Option<u16>, name: &[u8]) -> Option<u16>
    ensures value { IfSome result (λ n. spec.block_at machine.now name.now ≡ Some n) }
    ensures within { IfSome result (λ n. n < length machine.now.blocks) }
{
    let number = number?;
    let block = machine.blocks().get(number as usize)?;
    if is_same_name(&block.name, name) {
        Some(number)
    } else {
        None
    }
}
