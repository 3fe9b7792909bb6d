//! The strobes of a plan that are enough: all faults that the plan's strobes detect are detected by them, and none of them can go.
//!
//! `pick` is given the strobes of a plan and of each listed fault its hard strobes, at which some watched bit detects it. The strobes are tried from the
//! last to the first; one is left out where the others that still stand have a strobe of each fault that has any. Its main contract: the picked strobes
//! are just those that remain, in ascending order, each with the first listed fault whose only kept hard strobe it is. What they detect of every legal
//! order of events (IEEE 1364-2001, clause 5) is a law of `pick_laws`. `write_pick` writes them; which bytes that is says `specs/Texts`.
//!
//! The work is linear in the hard strobes but for the search for each one's place: an index has for each strobe the faults that have it, and of each
//! fault is counted how many of its hard strobes stand. A strobe may go where each of its faults has two.
#![tactic(auto)]

mod counts;
mod fault_index;
mod line;
mod picking;
mod text;
mod walk;

pub use picking::{Picked, pick};
pub use text::write_pick;
