//! The lines of a slot in a certificate, written from the log of its phases (slots, phases and their events by IEEE 1364-2001, clause 5).
//!
//! Its main contract: `append_slot_lines` adds exactly the lines of the slot whose log it is given: `slot` with its time, before each later phase its number,
//! and in each phase the steps and the nonblocking updates of processes. Those of one process with none of another between them stand in one line, node
//! events are passed over.
#![tactic(auto)]

mod event;
mod slot;

pub use slot::append_slot_lines;
