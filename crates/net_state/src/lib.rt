//! The values of a design's objects and the marks of its nodes, as a machine's events change them (IEEE 1364-2001, clauses 5, 6 and 7).
//!
//! A `NetState` begins with the first contents of the variables and with settled nets. A write gives a variable its value, forced by the view's fault, and
//! marks the nodes that read it. Work on a node evaluates it and gives its nets the values. Its main contract: the values and the marks are always those of
//! the state that the definitions of writes, evaluations and updates of nets lead to, and each call tells what it changed.
#![tactic(auto)]

mod events;
mod objects;
mod put;
mod state;
mod tell;

pub use objects::Objects;
pub use state::NetState;
