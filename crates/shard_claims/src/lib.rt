//! A worker of a round: it claims shards of faults from a board, keeps those that it claimed, and takes them through one window of the good first run after another
//! (slots by IEEE 1364-2001, clause 5).
//!
//! The main contract of `work`: a worker that has not yet claimed draws claims until none is left, and makes the shard of each; one that has takes turns with its shards. Then it
//! visits the slots of the round, in which copies of other workers' shards may stand (`shard_turns`). Behind the round its seat has drawn the claims of its shards and no others,
//! each shard has the faults of its claim, and all have gone through the round's window; its counter rose by no more than the own steps of these faults in between, and of those
//! of the slots that it visited. The gate is called before each shard that is begun, and before each turn.
#![tactic(auto)]

mod claim;
mod worker;

pub use shard_turns::{BackupSeat, Backups, ClaimedShard, Round, Shard};
pub use worker::{Seated, Worker, work};
