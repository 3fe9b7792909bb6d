//! What the processes of a runner have yet to write, to be compared with what those of the good machine have (nonblocking updates by IEEE 1364-2001, clause 9.2.2).
//!
//! `RunnerWrites` is a runner as the `Processes` that `lockstep_compare` compares. Main contract: of each process it answers the pending updates and those of the lane, as
//! the runner's state has them.
#![tactic(auto)]

mod writes;

pub use block_events::Runner;
pub use writes::RunnerWrites;
