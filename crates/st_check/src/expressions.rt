// What the parts of expressions do.

ghost use Rattle.std.specs.Prelude.{◌≡◌, OnOk};
ghost use Rattle.st_check.specs.Expressions as spec;
ghost use Rattle.st_check.specs.Typed as types;

use crate::checker::Checker;
use crate::declarations::{MOST, signed};
use crate::known::{Sort, Used, ValueType};
use crate::pile::push;
use motion_numbers::OutOfMemory;
use plc_types::Name;
use st_tree::{Flag, Operator, Part};

// Whether two types are the same.
pub fn is_same(a: ValueType, b: ValueType) -> bool
    ensures { result ≡ types.is_same a b }
{
    match a {
        ValueType::Bool => matches!(b, ValueType::Bool),
        ValueType::Dint => matches!(b, ValueType::Dint),
    }
}

// Whether both are this type.
fn are(of: ValueType, a: ValueType, b: ValueType) -> bool
    ensures { result ≡ types.are of a b }
{
    is_same(a, of) && is_same(b, of)
}

// Whether an operator joins operands of these types.
fn joins(operator: Operator, a: ValueType, b: ValueType) -> bool
    ensures { result ≡ types.joins operator a b }
{
    match operator {
        Operator::Or | Operator::And => are(ValueType::Bool, a, b),
        Operator::Equal | Operator::Different => is_same(a, b),
        _ => are(ValueType::Dint, a, b),
    }
}

// The type of what an operator makes.
fn type_by(operator: Operator) -> ValueType
    ensures { result ≡ types.type_by operator }
{
    match operator {
        Operator::Plus | Operator::Minus | Operator::Times => ValueType::Dint,
        _ => ValueType::Bool,
    }
}

impl Checker {
    /// An operand of this type.
    #[tactic(auto, unfolding(crate::specs::Expressions::operand))]
    pub fn operand(&mut self, of: ValueType, part: Part) -> Result<(), OutOfMemory>
        ensures { OnOk result (self.new ≡ spec.operand of part self.old) }
    {
        self.types.push(of)?;
        push(&mut self.parts, part)
    }

    /// The last operand is taken, which is of this type.
    #[tactic(auto, unfolding(crate::specs::Expressions::taken))]
    pub fn take(&mut self, of: ValueType)
        ensures { self.new ≡ spec.taken of self.old }
    {
        let last = self.pop_type();
        self.need_type(is_same(last, of));
    }

    /// A number.
    #[tactic(auto, unfolding(crate::specs::Expressions::number))]
    pub fn number(&mut self, line: u64, size: u32) -> Result<(), OutOfMemory>
        ensures { OnOk result (self.new ≡ spec.number line size self.old) }
    {
        self.need(size <= MOST, line, 5);
        self.operand(ValueType::Dint, Part::Number(signed(false, size)))
    }

    /// A truth value.
    #[tactic(auto, unfolding(crate::specs::Expressions::truth))]
    pub fn truth(&mut self, value: bool) -> Result<(), OutOfMemory>
        ensures { OnOk result (self.new ≡ spec.truth value self.old) }
    {
        self.operand(ValueType::Bool, Part::Truth(value))
    }

    /// A name.
    #[tactic(auto, unfolding(crate::specs::Expressions::name))]
    pub fn name_used(&mut self, line: u64, name: &Name)
        ensures { self.new ≡ spec.name line name.now self.old }
    {
        let sort = self.sort_of(name.bytes());
        self.need_name(sort.is_some(), line);
        self.name = Used { sort, line };
    }

    /// The name is a variable's.
    #[tactic(auto, unfolding(crate::specs::Expressions::variable))]
    pub fn variable(&mut self) -> Result<(), OutOfMemory>
        ensures { OnOk result (self.new ≡ spec.variable self.old) }
    {
        if let Some(Sort::Variable { number, of }) = self.name.sort {
            return self.operand(of, Part::Variable(number));
        }
        let line = self.name.line;
        self.need_name(false, line);
        self.operand(ValueType::Dint, Part::Variable(0))
    }

    /// The name is a block's, of which a flag is asked.
    #[tactic(auto, unfolding(crate::specs::Expressions::flag))]
    pub fn flag(&mut self, flag: Flag) -> Result<(), OutOfMemory>
        ensures { OnOk result (self.new ≡ spec.flag flag self.old) }
    {
        if let Some(Sort::Block(callee)) = self.name.sort {
            let instance = callee.number;
            return self.operand(ValueType::Bool, Part::Flag { instance, flag });
        }
        let line = self.name.line;
        self.need_name(false, line);
        self.operand(ValueType::Bool, Part::Flag { instance: 0, flag })
    }

    /// An `IF`, a `CASE` or a parenthesis opens.
    #[tactic(auto, unfolding(crate::specs::Expressions::opens, crate::specs::Checked::broken_unless))]
    pub fn opens(&mut self, line: u64)
        ensures { self.new ≡ spec.opens line self.old }
    {
        let fits = self.nested < 32;
        if fits {
            self.nested += 1;
        }
        self.need(fits, line, 6);
    }

    /// One closes.
    #[tactic(auto, unfolding(crate::specs::Expressions::closes))]
    pub fn closes(&mut self)
        ensures { self.new ≡ spec.closes self.old }
    {
        self.nested = self.nested.saturating_sub(1);
    }

    /// The operand of `-` or `NOT`.
    #[tactic(auto, unfolding(crate::specs::Expressions::changed))]
    pub fn change(&mut self, of: ValueType, part: Part) -> Result<(), OutOfMemory>
        ensures { OnOk result (self.new ≡ spec.changed of part self.old) }
    {
        self.take(of);
        self.operand(of, part)
    }

    /// An operator joins the last two operands.
    #[tactic(auto, unfolding(crate::specs::Expressions::joined))]
    pub fn join(&mut self, operator: Operator) -> Result<(), OutOfMemory>
        ensures { OnOk result (self.new ≡ spec.joined operator self.old) }
    {
        let second = self.pop_type();
        let first = self.pop_type();
        self.need_type(joins(operator, first, second));
        self.operand(type_by(operator), Part::Join(operator))
    }
}
