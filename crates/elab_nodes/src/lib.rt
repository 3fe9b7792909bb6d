//! The nodes and the processes of a flat design, over its objects.
//!
//! `walked_nodes` makes the continuous assignments, gates and blocks that are nodes, in the order of the walk, each with the objects that it reads in ascending
//! order and those that it writes (IEEE 1364-2001, clauses 6, 7 and 9; clause 12.4 for the names). `flat_processes` makes the others. Both answer what
//! `specs/Flat` of `v_elab` defines.
#![tactic(auto)]

mod basis;
mod inputs;
mod kinds;
mod node;
mod process;

pub use basis::Basis;
pub use node::walked_nodes;
pub use process::flat_processes;
