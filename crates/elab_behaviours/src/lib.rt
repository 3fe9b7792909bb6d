//! What the parts of a walk do: which of them are nodes and which are processes, in the order of the walk.
//!
//! `behaviours_of` answers the nodes and the processes of some parts as the definition has them (`specs` of `v_elab`, Drivers; IEEE 1364-2001, clause 6.1
//! for continuous assignments, clause 7 for gates, clause 9.9 for `always`; that a block of combinational form is a node is this program's own choice).
//! `too_many_behaviours` answers what there are too many of.
#![tactic(auto)]

mod assigned;
mod behaviours;
mod block_drives;

pub use behaviours::{Behaviours, behaviours_of, too_many_behaviours};
