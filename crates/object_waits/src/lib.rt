//! What a wait waits for, over the objects of a design.
//!
//! An event control has entries: runs of bits of objects, each with an edge (IEEE 1364-2001, clause 9.7.2 for edges, clause 9.7.4 for lists).
//! `entries_of_select` gives those on a select with constant indexes, one for each piece of its name that holds some of its bits. `@*` has one for each
//! object that its statement reads, in the order of first occurrence (clause 9.7.5): `add_objects` lists what an expression reads in the order of the
//! text, `star_entries` makes the entries. Contracts speak of both by `specs/Statements` of `v_elab`, where the statements of a flat design are defined.
#![tactic(auto)]

mod entries;
mod object_list;
mod reads;

pub use entries::{SelectedBits, entries_of_select, star_entries};
pub use object_list::{ObjectList, first_occurrences};
pub use reads::{add_index_objects, add_objects};
