//! Compiled processes: one call of `step` is one step of a process (IEEE 1364-2001, clause 9).
//!
//! `compile` makes of a process's statements a code whose positions are the rests of the body that can be left to run; a `ProcState` is a position with what the
//! process has read, counts and holds. Contracts speak of the plain process of the definitions: `IsCodeOf` says which code stands for a process and `IsStateOf`
//! which state of it for an activity, and `step` takes exactly the step that the definition takes there: a read, a write, an append, a wait, a delay, or the end.
//! A step takes no memory, so it asks for room in the state's lists (`HasRoom`); a state that is only kept has none, and `copy_from` brings it to a state that has.
//! `ProcState::same` tells whether two states of a code do the same from here on, and `codes_are_one` that two codes of one process have the same states.
//! A `RunEnd` is the end of a process run with each of its steps (`StepTaken`).
#![tactic(auto)]

mod builder;
mod code;
mod lines;
mod moves;
mod one_code;
mod room;
mod runs;
mod same;
mod state;
mod stepping;
mod waits;

pub use code::{Code, compile};
pub use one_code::codes_are_one;
pub use state::{Did, ProcState, RunEnd, Stage, StepAct, StepTaken};
pub use stepping::step;
