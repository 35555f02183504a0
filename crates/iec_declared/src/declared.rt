// What is known of a text as far as its declarations were read, and the first rule that they broke.

ghost use Rattle.std.specs.Prelude.{◌≡◌, OnOk};
ghost use Rattle.iec_declared.specs.Stand as spec;
ghost use Rattle.iec_operands.specs.Expressions as operands;

use crate::known::{Clause, Counts, Declaration, Enumeration, Expected, MotionBlock, Shape, Used};
use iec_names::Scopes;
use iec_operands::{Operand, Operands};
use iec_tree::{Elementary, Section};
use line_text::LineRefused;
use motion_numbers::OutOfMemory;
use std::alloc::Global;
use std::marker::Model;

/// What is known of a text as far as its declarations were read. Contracts see it as `Declared`.
#[derive(Drop)]
pub struct Declarations {
    pub(crate) alloc: Global,
    pub(crate) names: Scopes,
    pub(crate) operands: Operands,
    pub(crate) clause: Clause,
    pub(crate) declaration: Declaration,
    pub(crate) enumeration: Enumeration,
    pub(crate) name: Option<Used>,
    pub(crate) word: Option<Used>,
    pub(crate) constant_line: u64,
    pub(crate) expected: Expected,
    pub(crate) in_program: bool,
    pub(crate) together: Vec<Used>,
    pub(crate) counts: Counts,
    pub(crate) blocks: Vec<MotionBlock>,
    pub(crate) fault: Option<LineRefused>,
    pub(crate) stopped: bool,
}

impl Model for Declarations {
    ghost use Rattle.iec_declared.specs.Stand.{Declared};

    ghost Value = { Declared };

    ghost view = { λ d. record {
      names = d.names;
      operands = d.operands;
      clause = d.clause;
      declaration = d.declaration;
      enumeration = d.enumeration;
      name = d.name;
      word = d.word;
      constant_line = d.constant_line;
      expected = d.expected;
      in_program = d.in_program;
      together = d.together.items;
      counts = d.counts;
      blocks = d.blocks.items;
      fault = d.fault;
      stopped = d.stopped;
    } };
}

// The first of a fault that was found and one at this place.
#[tactic(auto, unfolding(crate::specs::Stand::least))]
fn least(fault: Option<LineRefused>, line: u64, rule: u8) -> LineRefused
    ensures { result ≡ spec.least fault line rule }
{
    match fault {
        None => LineRefused { line, rule },
        Some(found) => {
            if line < found.line || (line == found.line && rule < found.rule) {
                LineRefused { line, rule }
            } else {
                found
            }
        }
    }
}

// A declaration that hasn't begun, in a section.
fn no_declaration(section: Section) -> Declaration
    ensures { result ≡ spec.no_declaration section }
{
    Declaration {
        section,
        shape: Shape::Variable(Elementary::Dint),
        array: None,
        has_object: false,
        object: None,
        has_initial: false,
        has_list: false,
        values: 0,
    }
}

impl Declarations {
    /// Nothing is declared yet but these names, of the machine.
    #[tactic(auto, unfolding(crate::specs::Stand::opening))]
    pub fn open(alloc: Global, names: Scopes) -> Declarations
        ensures { result ≡ spec.opening names }
    {
        Declarations {
            alloc,
            names,
            operands: Operands::new(alloc),
            clause: Clause {
                line: 0,
                begun: false,
                lost: false,
            },
            declaration: no_declaration(Section::Globals),
            enumeration: Enumeration {
                word: None,
                number: None,
                next: 0,
            },
            name: None,
            word: None,
            constant_line: 0,
            expected: Expected::Known,
            in_program: false,
            together: Vec::new(alloc),
            counts: Counts {
                enumerations: 0,
                programs: 0,
                cells: 0,
            },
            blocks: Vec::new(alloc),
            fault: None,
            stopped: false,
        }
    }

    /// The first line that breaks a rule, and the rule.
    pub fn fault(&self) -> Option<LineRefused>
        ensures { result ≡ self.now.fault }
    {
        self.fault
    }

    /// Whether reading has stopped.
    pub fn is_stopped(&self) -> bool
        ensures { result ≡ self.now.stopped }
    {
        self.stopped
    }

    /// The rule is broken in this line, unless this holds.
    #[tactic(auto, unfolding(crate::specs::Stand::broken_unless))]
    pub fn need(&mut self, holds: bool, line: u64, rule: u8)
        ensures { self.new ≡ spec.broken_unless holds line rule self.old }
    {
        if !holds {
            self.fault = Some(least(self.fault, line, rule));
        }
    }

    /// Reading stops by a rule that is broken in this line, unless this holds.
    #[tactic(auto, unfolding(crate::specs::Stand::stopped_unless))]
    pub fn need_to_go_on(&mut self, holds: bool, line: u64, rule: u8)
        ensures { self.new ≡ spec.stopped_unless holds line rule self.old }
    {
        if !holds {
            self.fault = Some(least(self.fault, line, rule));
            self.stopped = true;
        }
    }

    /// A name is wrong in this line, unless this holds.
    #[tactic(auto, unfolding(crate::specs::Stand::lost_unless))]
    pub fn need_name(&mut self, holds: bool, line: u64)
        ensures { self.new ≡ spec.lost_unless holds line self.old }
    {
        if !holds {
            self.fault = Some(least(self.fault, line, 3));
            self.clause.lost = true;
        }
    }

    /// A declaration or a statement begins.
    #[tactic(auto, unfolding(crate::specs::Stand::begun))]
    pub fn begin(&mut self, line: u64)
        ensures { self.new ≡ spec.begun line self.old }
    {
        self.clause = Clause {
            line,
            begun: true,
            lost: false,
        };
        self.operands.begin();
    }

    /// It ends: a wrong type is reported, unless a name was wrong.
    #[tactic(auto, unfolding(crate::specs::Stand::ended))]
    pub fn end(&mut self)
        ensures { self.new ≡ spec.ended self.old }
    {
        let holds = !self.operands.is_mistyped() || self.clause.lost;
        let line = self.clause.line;
        self.clause.begun = false;
        self.need(holds, line, 4);
    }

    // A declaration begins.
    pub(crate) fn begin_declaration(&mut self, line: u64)
        ensures { self.new ≡ spec.opened line self.old }
    {
        self.clause = Clause {
            line,
            begun: true,
            lost: false,
        };
        self.operands.begin();
        self.together.clear();
        self.declaration = no_declaration(self.declaration.section);
    }
}
