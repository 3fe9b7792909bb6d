//! The replay of a run, step by step as a certificate says (the order of events that IEEE 1364-2001, clause 5, leaves free).
//!
//! A `Replaying` begins at the start of a run of a machine, good or under a fault, with all node events done. `step` takes so many steps of a process or of
//! its lane, and after each all node events; `end_phase` tells whether the phase may end, and then `look` looks in it for a claimed race, `turn_to_phase` and `turn_to_slot`
//! begin the next one, and `is_through` tells whether the run is through to its bound; its `value` is that of an object now. Main contract: each call answers
//! whether the definition of a replay goes on there, and where it does the replay stands where the definition stands. No first order is taken: which process
//! steps next is the caller's choice.
#![tactic(auto)]

mod begin;
mod phases;
mod replaying;
mod settle;
mod steps;

pub use replaying::{Replaying, Stepper};
