//! The blocks of a window of the good first run (slots, phases and events by IEEE 1364-2001, clause 5).
//!
//! A block goes from one moment at which no node has work and no process is in the midst of a run to the next. A `BlockList` gathers from the logs of slot after slot
//! with which events blocks begin, and where phases end: one look at each event tells it (`phase_blocks`). `BlockList::close` gives the blocks of the slots since the last
//! close, as a window of the trace has these slots. Its main contract: the moments of a `WindowBlocks` are just those, in ascending order, of the events with which
//! blocks begin, where all events of the window are numbered through as in the trace.
#![tactic(auto)]

mod blocks;
mod place;
mod search;
mod table;

pub use blocks::{BlockList, WindowBlocks};
