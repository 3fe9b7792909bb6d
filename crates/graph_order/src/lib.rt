//! Ordering the vertices of a directed graph, and finding what is on a loop (nothing of the language).
//!
//! A graph is a list of lists: for each vertex, by its number, the vertices that it needs. `put_in_order` gives each vertex a place after those
//! that it needs, but for the vertices that need a loop; it looks at each need once. `depths` then tells the longest way to each vertex, and
//! `least_on_loop` finds the least vertex that needs itself, directly or over others, by a search from each vertex without a place.
#![tactic(auto)]

mod depth;
mod order;
mod search;

pub use depth::depths;
pub use order::{Order, empty_lists, put_in_order};
pub use search::least_on_loop;
