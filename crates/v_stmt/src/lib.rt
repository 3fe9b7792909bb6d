//! The statements that tokens spell (IEEE 1364-2001, annex A.6).
//!
//! `specs/Spelling` says by recursion on a statement's tree which tokens spell it, `specs/Heights` how many levels stand below it.
//! `specs/Statements` has the readers, `specs/Groups` those of what the code reads together. `specs/StatementExact` shows that the readers are
//! exact: what is read is spelled, within the levels that are left, and where reading stops, what stands before begins a statement. `statement`
//! reads a whole statement.
#![tactic(auto)]

mod build;
mod parts;
mod pieces;
mod statements;

pub use statements::statement;
