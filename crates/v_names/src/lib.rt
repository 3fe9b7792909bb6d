//! The names of a module and what they mean, constant expressions, and the sizes of expressions that constants need.
//!
//! `specs/Names` says what a module declares (IEEE 1364-2001, clause 12.2 for parameters, clause 12.3 for ports, clause 12.5 for scopes), what
//! each name means and what is wrong with the names: the fault that comes first, by its place and then by its kind, is the answer.
//! `Scope` keeps the names with what they mean, and `lookup` answers it; `first_with` keeps the first of several faults. `specs/Readings` says what
//! size and sign an expression has by itself and with what it is sized (clauses 4.4 and 4.5), and `specs/SizedLaws` that its tree is then sized.
//! `constant_of` and `number_of_constant` answer the value of a constant and its number, `value_fault` what is wrong with it at its place. They take
//! memory: a constant is read once, into a term that has its value at each width, since its width is known only at the end.
#![tactic(auto)]

mod constant;
mod constant_place;
mod entry;
mod found;
mod scope;
mod size;
mod sizing;
mod term;

pub use constant::{Constant, constant_of, number_of_constant};
pub use constant_place::{ConstantPlace, are_parameters, is_waiting, place_of_expr, value_fault};
pub use entry::Entry;
pub use found::{Found, Reason, first_with};
pub use scope::Scope;
pub use size::Size;
pub use sizing::{
    BinarySizing, UnarySizing, binary_sizing, is_signed_number, is_unsized_number, larger, one_bit,
    part_size, repeated_size, runs_alike, size_within, span, unary_sizing, width_between,
};
