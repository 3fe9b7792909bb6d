//! A shard of faults whose samples are kept, beside the good first run, from window to window (strobes by the plan; slots by IEEE 1364-2001, clause 5).
//!
//! A `KeptShard` has some of a plan's listed faults, as a `Shard` does (`copy_shard`), but no strobe ends the grading of one of its faults: its faulty machine goes on to its race or
//! loop, and the samples that differ from the good machine's are kept. The main contract: at any time what is kept of a fault is its full grade as far as that goes up to the time of
//! the slots that the shard has gone through, and once the good first run is through it is the whole full grade, as a dictionary keeps it. A counter rises by no more than the own
//! steps of the faults in between.
#![tactic(auto)]

mod samples;
mod shard;

pub use shard::KeptShard;
pub use shard_windows::{ShardRoom, WindowStrobes, strobes_of};
