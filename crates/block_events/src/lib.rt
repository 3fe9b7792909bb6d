//! One machine of which no record is kept, event by event: its values, its nodes and its processes, which a caller may exchange between two blocks (IEEE 1364-2001,
//! clause 5).
//!
//! A `Runner` stands for a machine and a state of it. `take_lane` and `take_step` take the event of the first order where no node has work, `settle` those of nodes until
//! none has; `follow_step` takes a step that is known, without the process's code. Main contract: each comes to the state behind its events, and where the events before them are told of a block, so are they. `put_value`, `put_process`,
//! `put_updates` and `wake_process` exchange parts of the state, `clear` lets go of all processes, `set_fault` exchanges the fault, `updates_of`, `lane_of`, `state_of`, `copy_state` and
//! `stands_at` read the state, and `turn` takes a turn between two phases.
#![tactic(auto)]

mod clear;
mod events;
mod exchange;
mod runner;

pub use events::TakenStep;
pub use runner::Runner;
