// Whose commands finished in a call or a cycle, and how.

ghost use Rattle.std.specs.Prelude.{◌≡◌, ◌+◌, ◌<◌, ◌≤◌, List, [], ◌∷◌, ◌++◌, length};
ghost use Rattle.command_pool.specs.Waiting as spec;

use crate::ending::Finish;
use crate::wanted::Wanted;
use std::marker::Model;

/// An instance's command ended so.
#[derive(Clone, Copy, Debug, PartialEq, Eq)]
pub struct Note {
    /// The number of the instance.
    pub owner: u16,
    pub finish: Finish,
}

/// Up to twelve notes in their order. Contracts see them as a list.
#[derive(Drop)]
pub struct Notes {
    count: u8,
    items: [Note; 12],
}

impl Model for Notes {
    ghost use Rattle.std.specs.Prelude.{◌≤◌, List, take};
    ghost use Rattle.command_pool.specs.declared.notes.Note.{Note};

    ghost Value = { List Note };

    ghost view = { λ n. take n.count n.items };

    ghost invariant = { λ n. n.count ≤ 12 };
}

const BLANK: Note = Note {
    owner: 0,
    finish: Finish::Done,
};

impl Notes {
    /// No notes.
    pub fn new() -> Notes
        ensures { result ≡ [] }
    {
        Notes {
            count: 0,
            items: [BLANK; 12],
        }
    }

    /// Adds a note after those that are there, at most eleven.
    pub fn add(&mut self, note: Note)
        requires { length self.old < 12 }
        ensures { self.new ≡ self.old ++ note ∷ [] }
    {
        self.items[self.count as usize] = note;
        self.count += 1;
    }

    /// Adds how a command ended, where it has an owner to whom that is reported.
    pub fn add_end(&mut self, wanted: &Wanted, finish: Finish)
        requires { length self.old < 12 }
        ensures { self.new ≡ self.old ++ spec.note_of finish wanted.now }
    {
        if let Some(owner) = wanted.owner {
            self.add(Note { owner, finish });
        }
    }

    /// The notes in their order.
    pub fn as_slice(&self) -> &[Note]
        ensures notes { result.now ≡ self.now }
        ensures few { length self.now ≤ 12 }
    {
        &self.items[..self.count as usize]
    }
}
