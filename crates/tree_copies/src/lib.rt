//! Copies of whole syntax trees (IEEE 1364-2001, annex A).
//!
//! `copy_tree` gives a tree with the same plain view (`Views` of the trees' crate): the same modules, items, statements and expressions, each with its place.
//! It answers nothing else than that copy or want of memory. The program copies no whole tree: the call is there for callers of the library.
#![tactic(auto)]

mod copy_item;
mod copy_statement;
mod select;

pub use copy_item::copy_tree;
