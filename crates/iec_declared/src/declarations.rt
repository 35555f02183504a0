// What the parts of programs and declarations do.

ghost use Rattle.std.specs.Prelude.{◌≡◌, OnOk};
ghost use Rattle.iec_declared.specs.Declarations as spec;
ghost use Rattle.iec_names.specs.Scopes as names;

use crate::constants::size_of;
use crate::declared::Declarations;
use crate::known::{Declaration, Expected, MotionBlock, Range, Shape, Used};
use iec_grammar::push;
use iec_names::{Elements, Sort};
use iec_operands::{Operand, type_of, value_of};
use iec_tree::{Elementary, Motion, Name, Section};
use iec_values::{changed, storing};
use motion_numbers::OutOfMemory;

/// The most variables and elements of a text.
const MOST_CELLS: u32 = 65_536;

// Whether a name begins with a letter.
fn begins_with_letter(name: &Name) -> bool
    ensures { result ≡ spec.begins_with_letter name.now }
{
    match name.bytes() {
        [] => false,
        [first, ..] => *first != b'_',
    }
}

// Whether a name is that of an input of the machine.
fn is_input(sort: Option<Sort>) -> bool
    ensures { result ≡ spec.is_input sort }
{
    matches!(sort, Some(Sort::MachineInput(_)))
}

// Whether an input that a section declares is there.
fn is_there(section: Section, sort: Option<Sort>) -> bool
    ensures { result ≡ spec.is_there section sort }
{
    match section {
        Section::Inputs => is_input(sort),
        _ => true,
    }
}

// The type of the values of a declaration.
fn type_by(shape: Shape) -> Elementary
    ensures { result ≡ spec.type_by shape }
{
    match shape {
        Shape::Variable(of) => of,
        _ => Elementary::Dint,
    }
}

// Whether a declaration may have the first values that it has.
#[tactic(auto, unfolding(crate::specs::Declarations::may_have_initial))]
fn may_have_initial(declaration: &Declaration) -> bool
    ensures { result ≡ spec.may_have_initial declaration.now }
{
    match declaration.shape {
        Shape::Variable(_) => {
            if declaration.has_list {
                declaration.array.is_some()
            } else {
                declaration.array.is_none()
            }
        }
        _ => false,
    }
}

// Whether a section may declare such a thing.
fn has_type_of(declaration: &Declaration) -> bool
    ensures { result ≡ spec.has_type_of declaration.now.section declaration.now }
{
    match declaration.section {
        Section::Inputs => {
            matches!(declaration.shape, Shape::Variable(Elementary::Bool))
                && declaration.array.is_none()
        }
        _ => true,
    }
}

// Whether a declaration has no type that is wrong.
#[tactic(auto, unfolding(crate::specs::Declarations::is_typed))]
fn is_typed(declaration: &Declaration) -> bool
    ensures { result ≡ spec.is_typed declaration.now }
{
    has_type_of(declaration) && (!declaration.has_initial || may_have_initial(declaration))
}

// Whether a declaration has a first value where it must, and none where it may not.
fn has_initial_of(section: Section, has_initial: bool) -> bool
    ensures { result ≡ spec.has_initial_of section has_initial }
{
    match section {
        Section::Constants => has_initial,
        Section::Inputs => !has_initial,
        _ => true,
    }
}

// The value of a constant that is declared.
#[tactic(auto, unfolding(crate::specs::Declarations::constant_in))]
fn constant_in(operand: Operand, of: Elementary) -> i64
    ensures { result ≡ spec.constant_in operand of }
{
    match storing(type_of(operand), of) {
        Some(change) => changed(change, value_of(operand)),
        None => 0,
    }
}

// Whether a motion block only reads.
fn is_reading(motion: Motion) -> bool
    ensures { result ≡ spec.is_reading motion }
{
    matches!(
        motion,
        Motion::ReadActualPosition
            | Motion::ReadActualVelocity
            | Motion::ReadStatus
            | Motion::ReadAxisError
    )
}

// Whether a motion block may have this name.
fn may_be_called(motion: Motion, name: &Name) -> bool
    ensures { result ≡ spec.may_be_called motion name.now }
{
    is_reading(motion) || begins_with_letter(name)
}

// How many variables and elements a name stands for.
fn cells_by(shape: Shape, array: &Option<Range>) -> u128
    ensures { result ≡ spec.cells_by shape array.now }
{
    match shape {
        Shape::Motion(motion) => u128::from(is_reading(motion)),
        Shape::Standard(_) => 1,
        Shape::Variable(_) => match array {
            Some(range) => size_of(range),
            None => 1,
        },
    }
}

// The number of an input of the machine.
fn input_of(sort: Option<Sort>) -> u16
    ensures { result ≡ spec.input_of sort }
{
    match sort {
        Some(Sort::MachineInput(number)) => number,
        _ => 0,
    }
}

impl Declarations {
    /// `PROGRAM`: its name follows.
    #[tactic(auto, unfolding(crate::specs::Declarations::program))]
    pub fn program(&mut self)
        ensures { self.new ≡ spec.program self.old }
    {
        self.names.leave_program();
        self.in_program = true;
        self.expected = Expected::Program;
    }

    /// A program of this name, which is a new one.
    #[tactic(auto, unfolding(crate::specs::Declarations::program_named))]
    pub fn program_named(&mut self, used: &Used) -> Result<(), OutOfMemory>
        ensures { OnOk result (self.new ≡ spec.program_named used.now self.old) }
    {
        let is_free = self.names.is_free_globally(&used.name);
        let sort = Sort::Program(self.counts.programs);
        self.names.define_globally(&used.name, sort)?;
        self.counts.programs = self.counts.programs.saturating_add(1);
        self.expected = Expected::Known;
        self.need_name(is_free && begins_with_letter(&used.name), used.line);
        Ok(())
    }

    /// A section begins.
    pub fn in_section(&mut self, section: Section)
        ensures { self.new ≡ spec.in_section section self.old }
    {
        self.declaration.section = section;
    }

    // A declaration begins, unless it has begun.
    #[tactic(auto, unfolding(crate::specs::Declarations::opened_once))]
    fn open_once(&mut self, line: u64)
        ensures { self.new ≡ spec.opened_once line self.old }
    {
        if !self.clause.begun {
            self.begin_declaration(line);
        }
    }

    // Whether a name is a new one where it stands.
    #[tactic(auto, unfolding(crate::specs::Declarations::is_free))]
    fn is_free(&self, name: &Name) -> bool
        ensures { result ≡ spec.is_free self.now name.now }
    {
        if self.in_program {
            self.names.is_free_locally(name)
        } else {
            self.names.is_free_globally(name)
        }
    }

    // Whether a name may be declared where it stands.
    #[tactic(auto, unfolding(crate::specs::Declarations::may_declare))]
    fn may_declare(&self, name: &Name) -> bool
        ensures { result ≡ spec.may_declare self.now name.now }
    {
        self.is_free(name) && is_there(self.declaration.section, self.names.find_globally(name))
    }

    // A name of the program, or of the whole text.
    #[tactic(auto, unfolding(crate::specs::Declarations::with_name))]
    fn with_name(&mut self, name: &Name, sort: Sort) -> Result<(), OutOfMemory>
        ensures { OnOk result (self.new ≡ spec.with_name name.now sort self.old) }
    {
        if self.in_program {
            self.names.define_locally(name, sort)
        } else {
            self.names.define_globally(name, sort)
        }
    }

    // One more name of a declaration.
    fn declare(&mut self, used: &Used) -> Result<(), OutOfMemory>
        ensures { OnOk result (self.new ≡ spec.declares_in used.now self.old) }
    {
        let may = self.may_declare(&used.name);
        push(&mut self.together, *used)?;
        self.with_name(&used.name, Sort::Coming)?;
        self.need_name(may, used.line);
        Ok(())
    }

    /// A name that is declared.
    #[tactic(auto, unfolding(crate::specs::Declarations::declares))]
    pub fn declares(&mut self, used: &Used) -> Result<(), OutOfMemory>
        ensures { OnOk result (self.new ≡ spec.declares used.now self.old) }
    {
        self.open_once(used.line);
        self.declare(used)
    }

    /// `:=`: a first value follows.
    #[tactic(auto, unfolding(crate::specs::Declarations::initial))]
    pub fn initial(&mut self)
        ensures { self.new ≡ spec.initial self.old }
    {
        self.declaration.has_initial = true;
    }

    /// `[`: the values of an array follow.
    #[tactic(auto, unfolding(crate::specs::Declarations::list))]
    pub fn list(&mut self) -> Result<(), OutOfMemory>
        ensures { OnOk result (self.new ≡ spec.list self.old) }
    {
        self.declaration.has_list = true;
        self.declaration.values = 0;
        self.operands.push(Operand::Arguments)
    }

    /// `]`: the values end.
    #[tactic(auto, unfolding(crate::specs::Declarations::list_end))]
    pub fn list_end(&mut self) -> Result<(), OutOfMemory>
        ensures { OnOk result (self.new ≡ spec.list_end self.old) }
    {
        let of = type_by(self.declaration.shape);
        self.operands.give_all(self.alloc, of)
    }

    // How many variables and elements there are with a name of the declaration.
    #[tactic(auto, unfolding(crate::specs::Declarations::cells_after))]
    fn cells_after(&self) -> u32
        ensures { result ≡ spec.cells_after self.now }
    {
        let more = cells_by(self.declaration.shape, &self.declaration.array);
        (u128::from(self.counts.cells).saturating_add(more)).min(u128::from(u32::MAX)) as u32
    }

    // What a variable of the section is.
    fn variable_in(&self, of: Elementary, value: i64, name: &Name) -> Sort
        ensures { result ≡ spec.variable_in self.now.declaration.section of value
            self.now.counts.cells (names.found_globally self.now.names name.now) }
    {
        match self.declaration.section {
            Section::Constants => Sort::Constant { of, value },
            Section::Inputs => Sort::Input(input_of(self.names.find_globally(name))),
            _ => Sort::Variable {
                of,
                place: self.counts.cells,
                looped: false,
            },
        }
    }

    // What the elements of an array are.
    fn elements_in(&self, of: Elementary, range: &Range) -> Elements
        ensures { result ≡ spec.elements_in of range.now self.now }
    {
        Elements {
            of,
            place: self.counts.cells,
            first: range.first,
            last: range.last,
            constant: matches!(self.declaration.section, Section::Constants),
        }
    }

    // What a name of the declaration names.
    #[tactic(auto, unfolding(crate::specs::Declarations::sort_of))]
    fn sort_of(&self, name: &Name, value: i64) -> Sort
        ensures { result ≡ spec.sort_of name.now value self.now }
    {
        match self.declaration.shape {
            Shape::Motion(_) => Sort::Motion(self.blocks.len().min(4_294_967_295) as u32),
            Shape::Standard(standard) => Sort::Standard {
                standard,
                place: self.counts.cells,
            },
            Shape::Variable(of) => match &self.declaration.array {
                Some(range) => Sort::Elements(self.elements_in(of, range)),
                None => self.variable_in(of, value, name),
            },
        }
    }

    // Adds a motion block, where one is declared.
    fn with_block(&mut self, shape: Shape, used: &Used) -> Result<(), OutOfMemory>
        ensures { OnOk result (self.new ≡ spec.with_block shape used.now self.old) }
    {
        match shape {
            Shape::Motion(motion) => {
                let block = MotionBlock {
                    used: *used,
                    program: self.counts.programs.saturating_sub(1),
                    motion,
                    has_object: self.declaration.has_object,
                    object: self.declaration.object,
                };
                push(&mut self.blocks, block)?;
                self.need_name(may_be_called(motion, &used.name), used.line);
                Ok(())
            }
            _ => Ok(()),
        }
    }

    // Counts the variables and elements of a name.
    fn count(&mut self, used: &Used)
        ensures { self.new ≡ spec.counted used.now self.old }
    {
        let cells = self.cells_after();
        self.counts.cells = cells;
        self.need_to_go_on(cells <= MOST_CELLS, used.line, 6);
    }

    // A name of the declaration.
    #[tactic(auto, unfolding(crate::specs::Declarations::defined_now))]
    fn define_now(&mut self, value: i64, used: &Used) -> Result<(), OutOfMemory>
        ensures { OnOk result (self.new ≡ spec.defined_now value self.old used.now) }
    {
        let shape = self.declaration.shape;
        let sort = self.sort_of(&used.name, value);
        self.count(used);
        self.with_name(&used.name, sort)?;
        self.with_block(shape, used)
    }

    // A name of the declaration, unless reading has stopped.
    #[tactic(auto, unfolding(crate::specs::Declarations::defined))]
    fn define(&mut self, value: i64, used: &Used) -> Result<(), OutOfMemory>
        ensures { OnOk result (self.new ≡ spec.defined value self.old used.now) }
    {
        if self.stopped {
            return Ok(());
        }
        self.define_now(value, used)
    }

    // All names of the declaration, one after another.
    #[tactic(auto, unfolding(crate::specs::Declarations::together_defined))]
    fn define_all(&mut self, value: i64) -> Result<(), OutOfMemory>
        ensures { OnOk result (self.new ≡ spec.together_defined value self.old) }
    {
        for place in 0..self.together.len() {
            let used = self.together[place];
            self.define(value, &used)?;
        }
        Ok(())
    }

    // The first value is of the type, where there is one: the value of a constant.
    #[tactic(auto, unfolding(crate::specs::Declarations::initial_value))]
    fn give_initial(&mut self) -> i64
        ensures value { result ≡ spec.initial_value self.old }
        ensures given { self.new ≡ spec.initial_given self.old }
    {
        if self.declaration.has_initial && !self.declaration.has_list {
            let of = type_by(self.declaration.shape);
            constant_in(self.operands.give(of), of)
        } else {
            0
        }
    }

    // Types and first values are as they may be.
    #[tactic(auto, unfolding(crate::specs::Declarations::judged))]
    fn judge(&mut self)
        ensures { self.new ≡ spec.judged self.old }
    {
        self.operands.need(is_typed(&self.declaration));
        let holds = has_initial_of(self.declaration.section, self.declaration.has_initial);
        let line = self.clause.line;
        self.need(holds, line, 5);
    }

    // The end, unless reading has stopped.
    #[tactic(auto, unfolding(crate::specs::Declarations::ended_unless_stopped))]
    fn end_unless_stopped(&mut self)
        ensures { self.new ≡ spec.ended_unless_stopped self.old }
    {
        if !self.stopped {
            self.end();
        }
    }

    /// A declaration ends.
    #[tactic(auto, unfolding(crate::specs::Declarations::declaration_end))]
    pub fn declaration_end(&mut self) -> Result<(), OutOfMemory>
        ensures { OnOk result (self.new ≡ spec.declaration_end self.old) }
    {
        let value = self.give_initial();
        self.judge();
        self.define_all(value)?;
        self.end_unless_stopped();
        Ok(())
    }
}
