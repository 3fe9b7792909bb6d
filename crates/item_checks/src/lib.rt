//! The first thing that is wrong with the sizes and the kinds of names of an item.
//!
//! `item_fault` answers the fault of an item that stands first in the text, of two at one place the one whose reason comes first, and none
//! where nothing is wrong: sizes by IEEE 1364-2001, clause 4.4; what may be assigned by clauses 6.1 and 9.2; terminals of gates, one bit
//! each, by clause 7.1; what event controls and `wait` may name by clause 9.7. Expressions that are sized together (a target and its value,
//! a `case` with all its labels) are one group: no width of it is bad where a name of it is of the wrong kind.
//!
//! Each call notes the faults of one part behind those that were noted before, so an item is read once and without a list of faults.
#![tactic(auto, using(name_checks::specs::Noted::noted_append))]

mod assigned;
mod cases;
mod groups;
mod items;
mod memories;
mod sizes;
mod statements;
mod waits;

pub use assigned::note_net_target;
pub use groups::note_where;
pub use items::{item_fault, params_fault, ports_fault};
pub use sizes::{note_optional_size, note_size};
