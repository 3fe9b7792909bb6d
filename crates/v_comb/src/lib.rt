//! Combinational form of an `always` block: which blocks are read as nodes that compute nets.
//!
//! A block has it where its statement is made of blocks, `if`, cases, blocking assignments without delays, ignored tasks and null
//! statements alone, where on every path each target is assigned whole before it is read or assigned in part, and by the path's end, and
//! where each name that is read and isn't a target is waited for (IEEE 1364-2001, clause 9.7.5 for `@*`, clause 9.2.1 for blocking
//! assignments; that such a block is a node is this program's own choice). `comb_form` answers `block_form` of `specs/CombinationalForm`.
//! `push_assigned` and `push_reads` list the names that a statement assigns and reads, `names_in_exprs` those in expressions, each once.
//! That nothing else writes a target, and that no target is a memory, can't be seen from one block.
#![tactic(auto)]

mod assigned;
mod form;
mod name_table;
mod occurrences;

pub use form::{Form, Waits, comb_form, names_in_exprs};
pub use occurrences::{push_assigned, push_reads};
