//! Whether a phase that a faulty machine went through in lockstep has no race, told by its own blocks and a few searches in a window (conflicts by IEEE 1364-2001, clause 5).
//!
//! Where the good machine's phase has no race, only accesses of objects that own blocks access, or that what these wrote reaches, are left to look at. `is_free` answers
//! whether no two of them conflict, object by object: nothing in the phase writes it; it is read or written once; it is a net piece that nothing reads; or what own blocks
//! do with it the good machine's blocks do too, and nothing writes it from there on. A net piece that the phase's writes reach may be glitching, so it has to be unread, or
//! settled: only met, and reached by nothing from there on, as a clock behind a port is in the phase of its edge. Main contract: where it answers so the marks leave no conflict (`LeavesNoConflict`), so
//! the phase has no race. Where it answers otherwise nothing is known, and the slot is to be run whole. It costs a few searches for each object, and no look at the events.
#![tactic(auto)]

mod filter;
mod objects;
mod room;
mod spans;

pub use filter::is_free;
pub use room::FilterRoom;
