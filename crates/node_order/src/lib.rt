//! The nodes of a design in their order: by rank, at equal rank in the order of the walk; or why they make no design.
//!
//! Continuous assignments, gates and combinational blocks (IEEE 1364-2001, clauses 6, 7 and 9) are evaluated in that order, so that each stands behind
//! all that drive its inputs. `nodes_by_rank` answers just what `specs/NodeOrder` says: a node with too many inputs is refused first, then a loop, at the
//! declaration of the least object that reaches itself. `order_is_of_design` states that this is the part of the flat design's definition that is about
//! nodes; it does nothing when it runs.
#![tactic(auto)]

mod buckets;
mod order;

pub use order::{NodesFault, nodes_by_rank, order_is_of_design};
