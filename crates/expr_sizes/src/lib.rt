//! Expressions and targets sized in a scope: their widths and signs, what is wrong with them, and their sized trees (IEEE 1364-2001, clauses 4.4 and 4.5,
//! clause 6.1 for nets and clause 9.2 for variables that are written).
//!
//! `read_expr` reads an expression once, in time that grows with its length: its own size, what decides the first fault of its sizes, and its tree, which then
//! takes the size of its context (`tree_alone`, `tree_at`, `tree_in`). `size_expr` answers the sized expression in a context, or the first thing that is wrong with
//! its sizes, at its place. The constants in an expression are valued besides, for parts and counts. `target_reading` answers the width of a target and what decides
//! the first fault of its sizes; `first_assignment_fault` and `first_target_fault` then tell which fault comes first. `target_of` answers the target that an
//! expression spells, as an output's connection.
#![tactic(auto)]

mod answer;
mod name;
mod operator;
mod parts;
mod read;
mod reading;
mod select;
mod spelled;
mod target;

pub use answer::{OwnReading, WidthFault, own_reading, size_expr};
pub use parts::wider;
pub use read::read_expr;
pub use reading::{ExprReading, larger_of};
pub use select::{read_select, select_reading};
pub use spelled::target_of;
pub use target::{
    TargetReading, Writer, first_assignment_fault, first_target_fault, target_reading,
    target_width_in,
};
