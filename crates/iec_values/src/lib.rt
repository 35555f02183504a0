//! The values of Structured Text (IEC 61131-3, in this project's profile): what each type has as
//! values, which types widen to which, what operators and functions there are for which types, and
//! what each makes of values. A value is a number of 64 bits: 0 or 1 for a BOOL, billionths for an
//! LREAL, microseconds for a TIME. Begin with `types`, then `operators` and `functions`.
#![tactic(auto)]

mod arithmetic;
mod changes;
mod conversions;
mod functions;
mod laws;
mod numbers;
mod operations;
mod operators;
mod truths;
mod types;

pub use changes::{Change, changed};
pub use conversions::{storing, widening};
pub use functions::{Call, Manner, call_of, evaluate};
pub use iec_tree::{Elementary, Function, Operator, function_named};
pub use laws::{numbers_are_exact, results_are_of_their_types, types_widen_in_order};
pub use operations::{Operation, apply};
pub use operators::{Join, contrary_of, join_of, negative_of};
pub use types::{all_widen, common_type, computed_type, greatest, holds, least, widens};
