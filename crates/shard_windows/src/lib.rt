//! The faults of a shard through a window of the good first run (slots by IEEE 1364-2001, clause 5).
//!
//! `advance_all` takes some faults through the next window: slot by slot, side by side in lockstep with the good machine, or by their machines where they can't (`shard_slots`). So they
//! go through the first window too, where that is the first slot alone and others come behind it; where none comes, each fault's machine is run from the start on. Where no grading goes
//! on, nothing is done. The main contract: behind the window each fault stands as a fault of a shard does, it is the same fault, and one whose grading had ended stays as it was; where
//! some grading goes on, the answer is how far the good first run has come, by its strobes and its time; a counter rises by no more than the own steps of the faults in between.
//!
//! What is needed to take faults through slots stands in a `ShardRoom`: one serves all shards of a worker.
#![tactic(auto)]

mod advance;
mod fresh;
mod reached;
mod room;

pub use advance::{advance_all, some_open};
pub use fresh::fresh_faults;
pub use reached::Reached;
pub use room::ShardRoom;
pub use shard_slots::{ShardFault, WindowStrobes, strobes_of};
