//! Expressions and targets of an instance over the objects of a flat design (IEEE 1364-2001, clause 4 for expressions, clause 9.2 for what a process writes).
//!
//! `over_objects` puts for each name of a sized expression the vector or the memory that the instance's names give it. `expr_alone` and `expr_assigned` do
//! so for an expression of the source text, sized alone or with the target that it is assigned to, and `targets_over` for a target, select by select.
//! Contracts hold for any holders that the names hold (`HoldNames` of object_names), and are those of v_elab's `specs/Statements`; `targets_over` asks that the
//! targets are sized over some of them. Bounds of parts and counts of replications have 32 bits (`specs/Narrow`), which is asked of each expression: what is refused
//! has greater ones.
#![tactic(auto)]

mod expression;
mod target;
mod value;
mod variable;

pub use expression::{all_over_objects, over_objects};
pub use target::targets_over;
pub use value::{expr_alone, expr_assigned};
