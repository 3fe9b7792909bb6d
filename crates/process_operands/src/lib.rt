//! What a statement of a process gets from the operands that it has read.
//!
//! A process reads one object a step, in text order (IEEE 1364-2001, clauses 4 and 9). Each call here goes through an expression, a case
//! or an assignment over the operands read so far: it answers what is to be read next, or the value, the chosen item or the updates.
//! Evaluating takes no memory.
#![tactic(auto)]

mod choice;
mod constant;
mod expression;
mod operand;
mod part;
mod pieces;
mod room;
mod target;

pub use choice::read_choice;
pub use constant::names_nothing;
pub use expression::read_value;
pub use pieces::pieces_read;
pub use room::{most_assignment_reads, most_case_reads, most_reads};
pub use target::{put_update, read_updates, update_of_target, width_of_target, width_of_targets};
