//! All workers between two rounds, and what they have together behind the last one (slots by IEEE 1364-2001, clause 5).
//!
//! `hire` splits a seat off a board's first seat for each worker. Behind the last round `finish` has the words of each worker's findings settled by its own seat, and joins the
//! seats. Its main contract: the seat that is left has the whole share, each fault of each shard that it claimed was found, with its grade, and had its word seen; and the own steps
//! that the faults of all workers' shards have taken are no more than they take in all.
#![tactic(auto)]

mod findings;
mod gathered;
mod hiring;
mod place;
mod rules;

pub use findings::finish;
pub use gathered::Gathered;
pub use hiring::hire;
pub use place::Place;
pub use rules::rules_hold;
pub use shard_claims::{BackupSeat, Backups, ClaimedShard, Round, Seated, Shard, Worker, work};
