// Laws of values: each is the contract of a function that does nothing.

ghost use Rattle.iec_values.specs.Laws.{AreExact, AreOfTheirTypes, WidenInOrder};

/// Numbers wrap, divide, end and round as their words say, and LREALs are exact where they don't
/// end at a bound.
pub fn numbers_are_exact()
    ensures { AreExact }
{}

/// Types widen in order, and the common type of two is the least to which both widen.
pub fn types_widen_in_order()
    ensures { WidenInOrder }
{}

/// What operators and functions give by the tables is a value of the type that the tables say,
/// where INTs are computed as DINTs; and a number that widens stays the same.
pub fn results_are_of_their_types()
    ensures { AreOfTheirTypes }
{}
