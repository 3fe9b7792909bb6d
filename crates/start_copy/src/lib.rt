//! What a faulty machine has otherwise than the good one before its first slot (start of a run by IEEE 1364-2001, clauses 5, 6 and 7).
//!
//! At the start all processes are ready in both machines, and nets are settled, so that the two differ in values alone: in the variable that the fault holds, or at the outputs of its node, and
//! in what nodes make of that. `start_copy` evaluates only the nodes that these changes reach. Its main contract: the copy keeps just the values that aren't the good machine's. So the faulty
//! machine stands in lockstep with the good one where its first slot begins (`starts_in_lockstep`, a law).
#![tactic(auto)]

mod held;
mod laws;
mod reach;
mod room;

pub use laws::starts_in_lockstep;
pub use reach::start_copy;
pub use room::StartRoom;
