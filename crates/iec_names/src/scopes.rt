// The names of a text where a program is read.

ghost use Rattle.std.specs.Prelude.{◌≡◌, OnOk};
ghost use Rattle.iec_names.specs.Scopes as spec;

use crate::sort::{Known, Sort};
use crate::table::Table;
use iec_tree::Name;
use motion_numbers::OutOfMemory;
use std::alloc::Global;
use std::marker::Model;

/// The names of the machine and of the whole text, and those of the program that is read.
/// Contracts see them as a `Names`.
#[derive(Drop)]
pub struct Scopes {
    globals: Table,
    locals: Table,
}

impl Model for Scopes {
    ghost use Rattle.iec_names.specs.Scopes.{Names};

    ghost Value = { Names };

    ghost view = { λ s. record { globals = s.globals; locals = s.locals } };
}

// Whether a program's name may be called as what is this.
fn may_be_shared(sort: Option<Sort>) -> bool
    ensures { result ≡ spec.may_be_shared sort }
{
    match sort {
        None => true,
        Some(sort) => matches!(
            sort,
            Sort::Axis(_) | Sort::Group(_) | Sort::MachineInput(_) | Sort::Program(_)
        ),
    }
}

impl Scopes {
    /// No names.
    pub fn new(alloc: Global) -> Scopes
        ensures { result ≡ spec.no_names }
    {
        Scopes {
            globals: Table::new(alloc),
            locals: Table::new(alloc),
        }
    }

    /// What a name names in the program, in any case of letters.
    #[tactic(auto, unfolding(crate::specs::Scopes::found))]
    pub fn find(&self, name: &Name) -> Option<Sort>
        ensures { result ≡ spec.found self.now name.now }
    {
        match self.locals.sort_of(name) {
            Some(sort) => Some(sort),
            None => self.globals.sort_of(name),
        }
    }

    /// What a name names in the machine or the whole text, whatever it names in the program.
    #[tactic(auto, unfolding(crate::specs::Scopes::found_globally))]
    pub fn find_globally(&self, name: &Name) -> Option<Sort>
        ensures { result ≡ spec.found_globally self.now name.now }
    {
        self.globals.sort_of(name)
    }

    /// Whether a name may be declared for the whole text.
    #[tactic(auto, unfolding(crate::specs::Scopes::is_free_globally))]
    pub fn is_free_globally(&self, name: &Name) -> bool
        ensures { result ≡ spec.is_free_globally self.now name.now }
    {
        self.globals.sort_of(name).is_none()
    }

    /// Whether a name may be declared in the program.
    #[tactic(auto, unfolding(crate::specs::Scopes::is_free_locally))]
    pub fn is_free_locally(&self, name: &Name) -> bool
        ensures { result ≡ spec.is_free_locally self.now name.now }
    {
        self.locals.sort_of(name).is_none() && may_be_shared(self.globals.sort_of(name))
    }

    /// A name of the whole text names this from now on.
    pub fn define_globally(&mut self, name: &Name, sort: Sort) -> Result<(), OutOfMemory>
        ensures { OnOk result (self.new ≡ spec.with_global name.now sort self.old) }
    {
        self.globals.define(Known { name: *name, sort })
    }

    /// A name of the program names this from now on.
    pub fn define_locally(&mut self, name: &Name, sort: Sort) -> Result<(), OutOfMemory>
        ensures { OnOk result (self.new ≡ spec.with_local name.now sort self.old) }
    {
        self.locals.define(Known { name: *name, sort })
    }

    /// Another program is read: the names of the last one are forgotten.
    pub fn leave_program(&mut self)
        ensures { self.new ≡ spec.without_locals self.old }
    {
        self.locals.clear();
    }
}
