//! What is wrong with the names of a part of a module, and with the constants in it.
//!
//! Each call notes the faults of one part of the tree (a name, a constant, an expression, a target, a statement, an item) behind those that
//! were noted before: a `FirstFault` afterwards holds the first of all of them, by their places in the text, at one place by their kinds. So
//! the first fault of a whole module is found in one pass and without a list of faults.
//!
//! A name must be declared; where a constant must stand, each name must be a parameter's, and the value must be one of its place (IEEE
//! 1364-2001, clauses 3.3, 3.10, 4.2 and 9.7).
#![tactic(auto, using(crate::specs::Noted::noted_append))]

mod bounds;
mod constants;
mod expressions;
mod first_fault;
mod items;
mod range;
mod statements;

pub use bounds::{Bounds, bounds_of};
pub use expressions::{note_fixed_target, note_known};
pub use first_fault::FirstFault;
pub use items::{note_items, note_parameter_groups, note_port_groups};
pub use range::{BitRange, bound_number, context_width, is_same_range, range_of, width_of};
