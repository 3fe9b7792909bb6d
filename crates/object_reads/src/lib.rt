//! Which objects an expression, a statement or a node of a design reads, as a list.
//!
//! What is read of a bit select with a constant index depends on the index's value (IEEE 1364-2001, clauses 4.2 and 9.7.5), which only an expression has whose
//! parts have the sizes that they take from each other (clause 4.4). `push_reads` lists the objects of such an expression, `push_all_reads` those of several, and
//! `push_statement_reads` those of a statement; `objects_among` has those among some, each once and in ascending order.
#![tactic(auto)]

mod expression;
mod inputs;
mod statement;

pub use expression::push_reads;
pub use inputs::objects_among;
pub use statement::{push_all_reads, push_statement_reads};
