// Piles: what was put on last is taken off first.

ghost use Rattle.std.specs.Prelude.{◌≡◌, ◌∷◌, ◌++◌, [], OnOk};
ghost use Rattle.iec_grammar.specs.Piles.{Pops, is_nothing};

use motion_numbers::OutOfMemory;
use std::alloc::Global;
use std::marker::Model;

/// A pile. Contracts see it as a list from its top.
#[derive(Drop)]
pub struct Pile<T: Drop> {
    items: Vec<T>,
}

impl<T: Drop> Model for Pile<T> {
    ghost use Rattle.std.specs.Prelude.{List, reverse};

    ghost Value = { List T };

    ghost view = { λ p. reverse p.items.items };
}

impl<T: Drop> Pile<T> {
    /// An empty pile.
    pub fn new(alloc: Global) -> Pile<T>
        ensures { result ≡ [] }
    {
        Pile {
            items: Vec::new(alloc),
        }
    }

    /// Puts an item on the pile.
    pub fn push(&mut self, item: T) -> Result<(), OutOfMemory>
        ensures { OnOk result (self.new ≡ item ∷ self.old) }
    {
        push(&mut self.items, item)
    }

    /// Whether nothing is on the pile.
    pub fn is_empty(&self) -> bool
        ensures { result ≡ is_nothing self.now }
    {
        self.items.is_empty()
    }

    /// Takes the item off that was put on last.
    pub fn pop(&mut self) -> Option<T>
        ensures { Pops self.old result self.new }
    {
        self.items.pop()
    }
}

/// Adds an item to a list.
pub fn push<T: Drop>(list: &mut Vec<T>, item: T) -> Result<(), OutOfMemory>
    ensures { OnOk result (list.new.items ≡ list.old.items ++ item ∷ []) }
{
    match list.push(item) {
        Ok(()) => Ok(()),
        Err(_) => Err(OutOfMemory),
    }
}
