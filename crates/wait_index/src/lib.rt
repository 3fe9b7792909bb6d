//! For each object of a design the processes that may wait on it (IEEE 1364-2001, clause 9.7: event controls and `wait`).
//!
//! `WaitIndex::new` goes through the text of each process once; `of` gives the processes whose body has an event control on an object, or a `wait`
//! whose condition names it, ascending and each once. In every run a process waits on objects of its body alone, so that a change of an
//! object wakes no other process than these (`waits_stay`).
#![tactic(auto)]

mod index;
mod law;
mod waited;

pub use index::WaitIndex;
pub use law::waits_stay;
