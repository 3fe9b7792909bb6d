//! Shards of faults in a round behind the first one: each has its turn with the worker that keeps it, and a worker that is through with its own takes copies of other shards
//! through the round's window (slots by IEEE 1364-2001, clause 5).
//!
//! `Backups` are copies of a round's shards in slots of `verdict_words::Jobs`, one for each shard's number, beside a board on which visits to the slots are drawn, each once.
//! `take_turns` takes a worker's own shards through the window: it empties the slot of each, calls the gate, and keeps the copy in place of the shard where another worker has
//! taken that through the window already; the others go side by side. `visit_slots` visits slots until none is left to be drawn: a copy that hasn't done the window goes through
//! it, and the words of what was found are settled. `shard_turn` is one shard's turn.
//!
//! The main contracts: whatever was found in the slots, each shard of a worker has the faults of its claim and has gone through the window, and they stay in order; a counter rises
//! by no more than the own steps of the faults of these shards, and of those of the slots that were visited, in the window. As each slot is visited once in a round, all workers'
//! visits together take no more than the own steps of all faults that stand for their classes.
#![tactic(auto)]

mod backups;
mod going;
mod round;
mod turn;
mod turns;
mod visits;

pub use backups::{BackupSeat, Backups};
pub use copy_shard::{ClaimedShard, Shard, ShardRoom};
pub use round::Round;
pub use turn::shard_turn;
pub use turns::take_turns;
pub use visits::visit_slots;
