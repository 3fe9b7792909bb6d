//! A machine: a design, good or under one fault, run slot by slot in the first order of events (IEEE 1364-2001, clause 5).
//!
//! A `Machine` begins at the start of a run. `next_time` tells the time of the slot that comes next, and `slot` runs that slot: the least node with work,
//! else the least lane, else the least ready process, and where no event is possible the turn that comes, until no turn within the slot is left or
//! more than 100,000 process and lane steps were taken. Its main contract: `slot` answers the outcome of that slot of the first run, the machine
//! stands at the slot's end, the log is that of the slot's phases, and the next slot is the one that the first run takes. After `note_runs` a machine also notes the
//! ends of its process runs with each of their steps, and `take_runs` answers those of the slot that was run last, in the order in which they ended; one that notes none
//! takes no memory for it.
//!
//! `slot_beside` runs a slot in the same way, but beside the good machine's runs of its time: what these did the same is brought from there, and the counter ticks at most once for
//! each own step.
//!
//! One machine serves several runs: `clear` makes it that of another fault, `put_value` and `put_process` give it the parts of a state, and after `stand_between` it stands
//! in that state between two slots of the run of that fault, as if it had come there by itself. `time`, `state_of` and `updates_of` read where it stands.
#![tactic(auto)]

mod beside;
mod calls;
mod end;
mod guide;
mod moves;
mod nodes;
mod parts;
mod phases;
mod puts;
mod runs;
mod slots;
mod steps;

pub use end::SlotEnd;
pub use parts::Machine;
