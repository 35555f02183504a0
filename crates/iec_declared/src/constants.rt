// What the parts of constants do.

ghost use Rattle.std.specs.Prelude.{◌≡◌, OnOk};
ghost use Rattle.iec_declared.specs.Constants as spec;

use crate::declared::Declarations;
use crate::known::{Declaration, Range, Used};
use iec_names::Sort;
use iec_operands::{Literal, Operand, literal_of};
use iec_tree::{Elementary, Number};
use motion_numbers::OutOfMemory;

/// How many elements an array has.
#[tactic(auto, unfolding(crate::specs::Constants::size_of))]
pub fn size_of(range: &Range) -> u128
    ensures { result ≡ spec.size_of range.now }
{
    (i128::from(range.last) - i128::from(range.first)).unsigned_abs() + 1
}

// Whether a value of a list is the first for which the array has no element.
fn is_beyond(declaration: &Declaration) -> bool
    ensures { result ≡ spec.is_beyond declaration.now }
{
    match &declaration.array {
        Some(range) => { declaration.has_list && u128::from(declaration.values) == size_of(range) }
        None => false,
    }
}

// The constant that a name names.
fn constant_of(sort: Option<Sort>) -> Option<Operand>
    ensures { result ≡ spec.constant_of sort }
{
    match sort {
        Some(Sort::Constant { of, value }) => Some(Operand::Value { of, value }),
        Some(Sort::Word { value, .. }) => Some(Operand::Value {
            of: Elementary::Int,
            value,
        }),
        _ => None,
    }
}

/// The number of an enumeration that a name names.
pub fn enumeration_of(sort: Option<Sort>) -> Option<u32>
    ensures { result ≡ spec.enumeration_of sort }
{
    match sort {
        Some(Sort::Enumeration(number)) => Some(number),
        _ => None,
    }
}

// The word of an enumeration that a name names.
fn word_in(enumeration: u32, sort: Option<Sort>) -> Option<Operand>
    ensures { result ≡ spec.word_in enumeration sort }
{
    match sort {
        Some(Sort::Word { of, value }) => {
            if of == enumeration {
                Some(Operand::Value {
                    of: Elementary::Int,
                    value,
                })
            } else {
                None
            }
        }
        _ => None,
    }
}

impl Declarations {
    // A value stands in this line.
    #[tactic(auto, unfolding(crate::specs::Constants::value_counted))]
    fn count_value(&mut self, line: u64)
        ensures { self.new ≡ spec.value_counted line self.old }
    {
        let holds = !is_beyond(&self.declaration);
        self.declaration.values = self.declaration.values.saturating_add(1);
        self.constant_line = line;
        self.need(holds, line, 5);
    }

    // A constant in this line.
    #[tactic(auto, unfolding(crate::specs::Constants::with_constant))]
    fn with_constant(&mut self, operand: Operand, line: u64) -> Result<(), OutOfMemory>
        ensures { OnOk result (self.new ≡ spec.with_constant operand line self.old) }
    {
        self.operands.push(operand)?;
        self.count_value(line);
        Ok(())
    }

    // A number, which is in its range.
    fn with_literal(&mut self, literal: Literal, line: u64) -> Result<(), OutOfMemory>
        ensures { OnOk result (self.new ≡ spec.with_literal literal line self.old) }
    {
        self.need(literal.fits, line, 5);
        self.with_constant(literal.operand, line)
    }

    /// A number.
    #[tactic(auto, unfolding(crate::specs::Constants::number))]
    pub fn number(&mut self, negative: bool, number: Number, line: u64) -> Result<(), OutOfMemory>
        ensures { OnOk result (self.new ≡ spec.number negative number line self.old) }
    {
        self.with_literal(literal_of(negative, number), line)
    }

    /// A truth.
    #[tactic(auto, unfolding(crate::specs::Constants::truth))]
    pub fn truth(&mut self, truth: bool, line: u64) -> Result<(), OutOfMemory>
        ensures { OnOk result (self.new ≡ spec.truth truth line self.old) }
    {
        let operand = Operand::Value {
            of: Elementary::Bool,
            value: i64::from(truth),
        };
        self.with_constant(operand, line)
    }

    // A constant that is there, or a name that is wrong.
    fn found(&mut self, constant: Option<Operand>, wrong: u64, line: u64) -> Result<(), OutOfMemory>
        ensures { OnOk result (self.new ≡ spec.found_in constant wrong line self.old) }
    {
        match constant {
            Some(operand) => self.with_constant(operand, line),
            None => {
                self.need_name(false, wrong);
                let operand = Operand::Value {
                    of: Elementary::Dint,
                    value: 0,
                };
                self.with_constant(operand, line)
            }
        }
    }

    /// The name is that of a constant.
    #[tactic(auto, unfolding(crate::specs::Constants::constant))]
    pub fn constant(&mut self) -> Result<(), OutOfMemory>
        ensures { OnOk result (self.new ≡ spec.constant self.old) }
    {
        match self.name {
            Some(used) => {
                let constant = constant_of(self.names.find(&used.name));
                self.found(constant, used.line, used.line)
            }
            None => Ok(()),
        }
    }

    // Name and word are a word of an enumeration.
    fn word_of(
        &mut self,
        enumeration: Option<u32>,
        name: &Used,
        word: &Used,
    ) -> Result<(), OutOfMemory>
        ensures { OnOk result (self.new ≡
            spec.word_of enumeration name.now word.now self.old) }
    {
        match enumeration {
            Some(enumeration) => {
                let constant = word_in(enumeration, self.names.find_globally(&word.name));
                self.found(constant, word.line, name.line)
            }
            None => self.found(None, name.line, name.line),
        }
    }

    /// Name and word are a word of an enumeration.
    #[tactic(auto, unfolding(crate::specs::Constants::constant_word))]
    pub fn constant_word(&mut self) -> Result<(), OutOfMemory>
        ensures { OnOk result (self.new ≡ spec.constant_word self.old) }
    {
        match self.name {
            Some(name) => match self.word {
                Some(word) => {
                    let enumeration = enumeration_of(self.names.find(&name.name));
                    self.word_of(enumeration, &name, &word)
                }
                None => Ok(()),
            },
            None => Ok(()),
        }
    }

    /// The minus of the last operand.
    #[tactic(auto, unfolding(crate::specs::Constants::negative))]
    pub fn negative(&mut self) -> Result<(), OutOfMemory>
        ensures { OnOk result (self.new ≡ spec.negative self.old) }
    {
        self.operands.negate()
    }
}
