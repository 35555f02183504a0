// The operands that wait.

ghost use Rattle.std.specs.Prelude.{◌≡◌, OnOk};
ghost use Rattle.iec_operands.specs.Expressions as spec;
ghost use Rattle.iec_operands.specs.Operands as waiting;

use crate::function::arguments_in;
use crate::operand::{Operand, type_of, value_of};
use iec_grammar::Pile;
use iec_tree::{Elementary, Function, Operator};
use iec_values::{
    Call, Change, Join, all_widen, call_of, changed, contrary_of, join_of, negative_of, widens,
};
use motion_numbers::OutOfMemory;
use std::alloc::Global;
use std::marker::Model;

/// The operands that wait, and whether a type was wrong. Contracts see them as `Waiting`.
#[derive(Drop)]
pub struct Operands {
    held: Pile<Operand>,
    mistyped: bool,
}

impl Model for Operands {
    ghost use Rattle.iec_operands.specs.Operands.{Waiting};

    ghost Value = { Waiting };

    ghost view = { λ o. record { held = o.held; mistyped = o.mistyped } };
}

impl Operands {
    /// No operand.
    pub fn new(alloc: Global) -> Operands
        ensures { result ≡ waiting.nothing }
    {
        Operands {
            held: Pile::new(alloc),
            mistyped: false,
        }
    }

    /// Whether a type was wrong.
    pub fn is_mistyped(&self) -> bool
        ensures { result ≡ self.now.mistyped }
    {
        self.mistyped
    }

    /// A type is wrong, unless this holds.
    #[tactic(auto, unfolding(crate::specs::Expressions::mistyped_unless))]
    pub fn need(&mut self, holds: bool)
        ensures { self.new ≡ spec.mistyped_unless holds self.old }
    {
        if !holds {
            self.mistyped = true;
        }
    }

    /// Adds an operand.
    pub fn push(&mut self, operand: Operand) -> Result<(), OutOfMemory>
        ensures { OnOk result (self.new ≡ spec.with_operand operand self.old) }
    {
        self.held.push(operand)
    }

    /// Takes the last operand off.
    #[tactic(auto, unfolding(crate::specs::Operands::last_of, crate::specs::Operands::rest_of))]
    pub fn pop(&mut self) -> Operand
        ensures value { result ≡ waiting.last_of self.old.held }
        ensures rest { self.new ≡ spec.taken self.old }
    {
        let Some(operand) = self.held.pop() else {
            return Operand::Value {
                of: Elementary::Dint,
                value: 0,
            };
        };
        operand
    }

    // Adds what a change makes of an operand, if there is the change.
    fn push_changed(&mut self, change: Option<Change>, operand: Operand) -> Result<(), OutOfMemory>
        ensures { OnOk result (self.new ≡ spec.changed_by change operand self.old) }
    {
        match change {
            Some(change) => self.push(Operand::Value {
                of: type_of(operand),
                value: changed(change, value_of(operand)),
            }),
            None => {
                self.need(false);
                self.push(operand)
            }
        }
    }

    /// The minus of the last operand.
    #[tactic(auto, unfolding(crate::specs::Expressions::negated))]
    pub fn negate(&mut self) -> Result<(), OutOfMemory>
        ensures { OnOk result (self.new ≡ spec.negated self.old) }
    {
        let operand = self.pop();
        self.push_changed(negative_of(type_of(operand)), operand)
    }

    /// The NOT of the last operand.
    #[tactic(auto, unfolding(crate::specs::Expressions::inverted))]
    pub fn invert(&mut self) -> Result<(), OutOfMemory>
        ensures { OnOk result (self.new ≡ spec.inverted self.old) }
    {
        let operand = self.pop();
        self.push_changed(contrary_of(type_of(operand)), operand)
    }

    // Adds a value of this type, that is no constant.
    fn push_typed(&mut self, of: Elementary) -> Result<(), OutOfMemory>
        ensures { OnOk result (self.new ≡ spec.with_typed of self.old) }
    {
        self.push(Operand::Value { of, value: 0 })
    }

    // Adds what an operator gives, if it is for its operands.
    fn push_joined(&mut self, join: Option<Join>) -> Result<(), OutOfMemory>
        ensures { OnOk result (self.new ≡ spec.joined_by join self.old) }
    {
        match join {
            Some(join) => self.push_typed(join.result),
            None => {
                self.need(false);
                self.push_typed(Elementary::Dint)
            }
        }
    }

    /// An operator joins the last two operands.
    #[tactic(auto, unfolding(crate::specs::Expressions::joined))]
    pub fn join(&mut self, operator: Operator) -> Result<(), OutOfMemory>
        ensures { OnOk result (self.new ≡ spec.joined operator self.old) }
    {
        let right = type_of(self.pop());
        let left = type_of(self.pop());
        self.push_joined(join_of(operator, left, right))
    }

    // Adds what a function gives, if it is for its arguments.
    fn push_called(&mut self, call: Option<Call>) -> Result<(), OutOfMemory>
        ensures { OnOk result (self.new ≡ spec.called_by call self.old) }
    {
        match call {
            Some(call) => self.push_typed(call.result),
            None => {
                self.need(false);
                self.push_typed(Elementary::Dint)
            }
        }
    }

    /// A function takes the operands behind the last mark.
    #[tactic(auto, unfolding(crate::specs::Expressions::called))]
    pub fn call(&mut self, alloc: Global, function: Function) -> Result<(), OutOfMemory>
        ensures { OnOk result (self.new ≡ spec.called function self.old) }
    {
        let types = arguments_in(alloc, &mut self.held)?;
        self.push_called(call_of(function, &types))
    }

    /// The last operand is given to what is of this type, and taken off.
    #[tactic(auto, unfolding(crate::specs::Expressions::given))]
    pub fn give(&mut self, to: Elementary) -> Operand
        ensures value { result ≡ waiting.last_of self.old.held }
        ensures given { self.new ≡ spec.given to self.old }
    {
        let operand = self.pop();
        self.need(widens(type_of(operand), to));
        operand
    }

    /// All operands behind the last mark are given to what is of this type.
    #[tactic(auto, unfolding(crate::specs::Expressions::all_given))]
    pub fn give_all(&mut self, alloc: Global, to: Elementary) -> Result<(), OutOfMemory>
        ensures { OnOk result (self.new ≡ spec.all_given to self.old) }
    {
        let types = arguments_in(alloc, &mut self.held)?;
        self.need(all_widen(&types, to));
        Ok(())
    }

    /// A statement begins, in which no type is wrong yet.
    pub fn begin(&mut self)
        ensures { self.new ≡ spec.begun self.old }
    {
        self.mistyped = false;
    }
}
