//! The statements of a flat design: what a statement of the source text does over objects (IEEE 1364-2001, clause 9).
//!
//! `statement_over` answers the statement of a process with each name as the objects that hold it, each expression at its size, its delays as
//! numbers and its waits as entries: what `statement_over` of `v_elab` (`specs/Statements`) defines, for whatever the names of the process mean.
//! It asks that they mean something for which the text is sized (`specs/Texts`).
//! A `case` sizes its expression and all labels together, an ignored task does nothing, and `@*` waits for each object that its statement reads, in
//! the order of the text (clause 9.7.5).
#![tactic(auto)]

mod cases;
mod delays;
mod meaning;
mod parts;
mod reads;
mod statements;
mod waits;

pub use meaning::Meaning;
pub use statements::statement_over;
