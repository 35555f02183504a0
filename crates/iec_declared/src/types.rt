// What the parts of types do.

ghost use Rattle.std.specs.Prelude.{◌≡◌, OnOk};
ghost use Rattle.iec_declared.specs.Types as spec;

use crate::constants::enumeration_of;
use crate::declared::Declarations;
use crate::known::{Range, Shape};
use iec_interface::{Object, object_of};
use iec_names::Sort;
use iec_operands::{Operand, type_of, value_of};
use iec_tree::{Elementary, Name};
use iec_values::widens;

// Whether an operand is an INT or a DINT.
fn is_whole(operand: Operand) -> bool
    ensures { result ≡ spec.is_whole operand }
{
    widens(type_of(operand), Elementary::Dint)
}

// Whether bounds do not fall, and have at most 1,000 elements.
#[tactic(auto, unfolding(crate::specs::Types::is_range))]
fn is_range(first: i64, last: i64) -> bool
    ensures { result ≡ spec.is_range first last }
{
    first <= last && i128::from(last) - i128::from(first) <= 999
}

// Whether both operands are whole numbers.
fn are_whole(first: Operand, last: Operand) -> bool
    ensures { result ≡ spec.are_whole first last }
{
    is_whole(first) && is_whole(last)
}

// Whether whole numbers may be the bounds of an index.
fn may_bound(first: Operand, last: Operand) -> bool
    ensures { result ≡ spec.may_bound first last }
{
    is_range(value_of(first), value_of(last)) || !are_whole(first, last)
}

// The bounds of an index; where they can't be, there is one element.
fn range_of(first: Operand, last: Operand) -> Range
    ensures { result ≡ spec.range_of first last }
{
    let least = value_of(first);
    let greatest = value_of(last);
    if is_range(least, greatest) {
        Range {
            first: least,
            last: greatest,
        }
    } else {
        Range {
            first: least,
            last: least,
        }
    }
}

// The number of what a motion block acts on, where a name names that.
fn number_of(object: Object, sort: Option<Sort>) -> Option<u16>
    ensures { result ≡ spec.number_of object sort }
{
    match object {
        Object::Axis => match sort {
            Some(Sort::Axis(number)) => Some(number),
            _ => None,
        },
        Object::Group => match sort {
            Some(Sort::Group(number)) => Some(number),
            _ => None,
        },
    }
}

// The number of what a block acts on, where it is a motion block.
fn object_by(shape: Shape, sort: Option<Sort>) -> Option<u16>
    ensures { result ≡ spec.object_by shape sort }
{
    match shape {
        Shape::Motion(motion) => number_of(object_of(motion), sort),
        _ => None,
    }
}

impl Declarations {
    /// `ARRAY`: its bounds follow.
    #[tactic(auto, unfolding(crate::specs::Types::array))]
    pub fn array(&mut self)
        ensures { self.new ≡ spec.array self.old }
    {
        self.declaration.array = Some(Range { first: 0, last: 0 });
    }

    // The bounds of the index.
    fn bounded(&mut self, first: Operand, last: Operand)
        ensures { self.new ≡ spec.bounded first last self.old }
    {
        let line = self.constant_line;
        self.operands.need(are_whole(first, last));
        self.declaration.array = Some(range_of(first, last));
        self.need(may_bound(first, last), line, 5);
    }

    // The bounds in front, where an array is declared.
    fn bounds(&mut self)
        ensures { self.new ≡ spec.bounds_of self.old.declaration.array self.old }
    {
        if self.declaration.array.is_some() {
            let last = self.operands.pop();
            let first = self.operands.pop();
            self.bounded(first, last);
        }
    }

    /// What is declared, or what the elements are.
    #[tactic(auto, unfolding(crate::specs::Types::shaped))]
    pub fn shaped(&mut self, shape: Shape)
        ensures { self.new ≡ spec.shaped shape self.old }
    {
        self.declaration.shape = shape;
        self.bounds();
    }

    /// A type of the text, which is an enumeration.
    #[tactic(auto, unfolding(crate::specs::Types::named))]
    pub fn named(&mut self, name: &Name, line: u64)
        ensures { self.new ≡ spec.named name.now line self.old }
    {
        match enumeration_of(self.names.find(name)) {
            Some(_) => self.shaped(Shape::Variable(Elementary::Int)),
            None => self.need_to_go_on(false, line, 2),
        }
    }

    // The axis or group of a motion block.
    fn acting_on(&mut self, object: Option<u16>, line: u64)
        ensures { self.new ≡ spec.acting_on object line self.old }
    {
        self.declaration.has_object = true;
        self.declaration.object = object;
        self.need_name(object.is_some(), line);
    }

    /// The axis or group of a motion block, which is there and fits its kind.
    #[tactic(auto, unfolding(crate::specs::Types::acts_on))]
    pub fn acts_on(&mut self, name: &Name, line: u64)
        ensures { self.new ≡ spec.acts_on name.now line self.old }
    {
        let object = object_by(self.declaration.shape, self.names.find_globally(name));
        self.acting_on(object, line);
    }
}
