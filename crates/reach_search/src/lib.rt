//! Which objects a change of some objects reaches.
//!
//! A change of a variable spreads through continuous assignments, gates and combinational blocks (IEEE 1364-2001, clauses 6 and 7). `Reached` keeps what changes of some
//! objects reach: an object is in it exactly where a path of nodes leads to it from one of those that were added, or where it is one of them. It takes its memory once;
//! adding an object costs as much as is newly reached, and nothing where the object was reached already.
#![tactic(auto)]

mod reached;
mod search;

pub use reached::Reached;
pub use search::is_read;
