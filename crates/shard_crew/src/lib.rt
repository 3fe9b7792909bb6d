//! Workers side by side: they are taken through a round of the good first run's windows, each in a thread of its own (slots by IEEE 1364-2001, clause 5).
//!
//! `leave_copies` leaves a copy of each worker's shards that go on in the slots of a round. `crew` takes all workers through the round, each in a thread of its own: its main
//! contract is that all of them come back behind the round's window, and that together they have visited all slots.
#![tactic(auto)]

mod leaving;
mod threads;

pub use leaving::leave_copies;
pub use shard_findings::{
    BackupSeat, Backups, ClaimedShard, Gathered, Place, Round, Shard, Worker, finish, hire,
    rules_hold,
};
pub use threads::crew;
