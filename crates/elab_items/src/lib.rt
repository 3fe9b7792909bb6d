//! The parts of an item of an instance, in the order of the walk through the hierarchy.
//!
//! `push_item_parts` puts an item's parts behind others (`item_parts` of v_elab's `specs/Walk`): the nets, variables and memories that it declares
//! first, each with the instance's path before its name (IEEE 1364-2001, clause 12.4), its continuous assignments and gates with what they drive
//! (clauses 6.1 and 7.1), and its `initial` or `always` with the instance's scope (clause 9.9). A `Here` has what an item needs of the instance in
//! which it stands: its names are looked up in maps that are made once. `block_targets` answers what an `always` block assigns, where by itself it is
//! a node.
#![tactic(auto)]

mod blocks;
mod content;
mod declared;
mod drives;
mod gates;
mod here;
mod item;
mod joins;
mod nodes;

pub use blocks::block_targets;
pub use drives::{drives_of, hierarchical};
pub use here::Here;
pub use item::{gates_in, push_item_parts, push_port_parts};
pub use joins::PortJoined;
