//! Grades the faults of all shards in rounds, one for each window of the good first run (slots by IEEE 1364-2001, clause 5).
//!
//! In a round each worker, in a thread of its own (`shard_crew`), takes its shards through a window, while the calling thread runs the good machine through the next one; where all
//! are done the round ends, so two windows are held. In the first round a worker claims shards of a board until none is left, and keeps those that it claimed for
//! all rounds. Before each later one copies of all shards that go on are left in slots, which workers visit that are through with their own; a single worker has nobody to visit
//! them, so none are left. After the last round each worker's own seat settles the words of its findings, and the seats are joined. The main contract of `grade_rounds`: whatever
//! the number of workers and their schedule, it tells the time of the good machine's loop exactly where that loops before a race of its own; else the seat that is
//! left has the whole share, each fault of each shard that it claimed was found, with its grade, and had its word seen, and the shards have gone through all windows.
#![tactic(auto)]

mod outcome;
mod rounds;
mod step;

pub use outcome::Outcome;
pub use rounds::grade_rounds;
pub use shard_crew::{ClaimedShard, Gathered, Place, Shard};
