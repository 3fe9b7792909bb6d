//! The race monitor: the log of a phase's events, with the cause and the accesses of each, and the least pair of accesses whose order the standard
//! leaves free (IEEE 1364-2001, clause 5).
//!
//! `check` answers the least pair of conflicting accesses of a logged phase by the definition that takes all pairs, and `None` exactly where the phase has no
//! conflict. `CheckIndex::fill` takes what memory is wanted, and a log and an index keep theirs from phase to phase. Over an index that is filled,
//! `CheckIndex::conflicts` tells of any two accesses whether they conflict.
//!
//! A log is what the definition of a phase as a log says: the entries that waits hold from the phase's start, and then event by event the number of
//! the event that caused it and what it reads, writes, waits for and ends. Contracts see a log as that plain data.
#![tactic(auto)]

mod accesses;
mod changes;
mod conflict;
mod group;
mod index;
mod links;
mod log;
mod noted;
mod numbered;
mod order;
mod pairs;
mod search;
mod settled;
mod slot;
mod totals;

pub use index::CheckIndex;
pub use log::PhaseLog;
pub use noted::{Noted, WaitEdge};
pub use search::check;
pub use slot::{Actor, SlotLog, Turn};
