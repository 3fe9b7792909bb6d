//! The parts of the good machine's state at a moment of a window, and what changes, wakes and turns make of them (processes by IEEE 1364-2001, clause 9).
//!
//! Of each process a `Standing` has where it stands, what nonblocking updates it has pending and in its lane (clause 9.2.2), and how many of its runs have ended in the
//! phase. `put_changes` puts the values of changes into those of all objects; `resume`, `activate_all` and `awake` do what turns do; `put_values`, `put_states` and
//! `put_later` take over what a window tells of the state before a slot. Main contract: what is put is what the window tells, and just those processes are woken that a turn
//! wakes.
#![tactic(auto)]

mod going;
mod kept;
mod lane;
mod turning;
mod within;

pub use going::{clear_lanes, put_later, put_states, put_values};
pub use kept::{Passed, Standing};
pub use lane::Lane;
pub use turning::{activate_all, awake, begin_count, resume, some_postponed};
pub use within::{put_changes, wake_one};
