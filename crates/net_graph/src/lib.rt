//! The nodes of a design as a graph of its objects: who reads an object, what reaches a net piece, and on how many paths.
//!
//! A graph is made for one design and refers to it. A change of a variable spreads through continuous assignments, gates and combinational
//! blocks (IEEE 1364-2001, clauses 6 and 7); the graph tells which variables can change a net piece, and whether one does so on one path
//! or on more.
//!
//! `ranks` orders any list of nodes: it gives each the rank that is one more than the greatest of those that drive its inputs, or tells the
//! least object that reaches itself through nodes.
#![tactic(auto)]

mod cone;
mod count;
mod graph;
mod rank;
mod spread;
mod walk;

pub use count::Marks;
pub use graph::Graph;
pub use rank::{RankFault, ranks};
