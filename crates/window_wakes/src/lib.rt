//! Whose waits the events of a window of the good first run end (events by IEEE 1364-2001, clause 5; waits by clause 9.7).
//!
//! A step that begins a run has its cause in the event that ended the wait before it, and a process whose wait has ended takes a step later in the phase. So the logs of
//! slots tell by their causes whose waits which events ended. A `WakeList` gathers that from the logs of slot after slot, beside the trace; `WakeList::close` gives the
//! wakes of the slots since the last close. Its main contract: the wakes of a `WindowWakes` are just those of its slots' events, in the order of their moments.
#![tactic(auto)]

mod gathering;
mod wake;
mod wakes;

pub use wake::Wake;
pub use wakes::{WakeList, WindowWakes};
