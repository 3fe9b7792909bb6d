//! The good machine's state at the moments between two blocks of a window, moved on without running any process (slots, phases and blocks by IEEE 1364-2001, clause 5).
//!
//! A `GoodMoment` has what each object holds, where each process stands, and which nonblocking updates it has pending and in its lane (clause 9.2.2). `go_to` brings it to
//! the beginning of a slot of a window. `pass_block` moves it over the next block: the window's changes tell what objects hold then, the ends of runs where those processes
//! stand that took steps, and the wakes which others are ready to go on. `pass_turn` takes the turn to the next phase of the slot. Its main contract: `IsShownAt`, by which
//! the state shown is the good machine's at a place of the slot; and what is told of the block that was passed last is just what that block wrote, stepped and woke.
#![tactic(auto)]

mod block;
mod going;
mod moment;
mod passing;
mod place;
mod rules;
mod turning;

pub use moment::GoodMoment;
pub use passed_blocks::{WindowWakes, limits_tell, places_are_told};
