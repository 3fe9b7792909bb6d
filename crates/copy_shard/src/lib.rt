//! Shards of faults beside the good first run, from window to window (slots by IEEE 1364-2001, clause 5).
//!
//! A `Shard` has some of a plan's listed faults. It is made before the first slot, and `advance` takes it through the next window of the good first run (`shard_windows`). Behind the
//! window a fault is kept by its copy, or by its end. The main contract: at any time each fault of the shard stands as a fault does behind so many slots: its end is its grade, and is
//! there just where its grading ended by then or the good first run is through; without an end its copy is the faulty machine's state, and keeps nothing that is the good machine's. So
//! once the good first run is through, `findings` has the grade of each fault. A counter rises by no more than the own steps of the faults in between: the steps
//! of those of their runs that the good machine doesn't take as well.
//!
//! `advance_together` takes the claimed shards of a worker through a window side by side, sixteen at a time, with the same contract for each: so the good machine's states are gone
//! through once for so many.
//! `Shard::copy` makes the same shard once more.
#![tactic(auto)]

mod copied;
mod shard;
mod together;

pub use shard::Shard;
pub use shard_windows::ShardRoom;
pub use together::{ClaimedShard, advance_together};
