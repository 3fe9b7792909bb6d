//! The good machine's first run, pushed slot by slot and cut into windows (slots by IEEE 1364-2001, clause 5).
//!
//! A `Setup` is what all windows of a run stand on: the design, its graph, the plan, and the compiled code of each process. `Trace::push` puts the next slot of
//! the good first run, with the ends of its process runs, behind those before it, and tells whether the window is full now; `Trace::close_window` gives the slots
//! since the last close as a `TraceWindow`. Its main contract: a window is the slots of the good first run from one number to another, at most 64 of them with at
//! most 300,000 process and lane steps, and it tells whether slots come after it, the run is through, or its last slot has a race. All its events are
//! numbered through by their moments: `value_at` is what an object holds before the event of a moment, `next_touch` is the next event that reads or writes it, and
//! `next_change` the next one that writes it; `next_evaluation` is a node's next evaluation, and `next_step` a process's next step, or its lane's. Its
//! phases are numbered through too, `phases_before` tells where those of a slot begin: `run` is the end of a process's run of a number in a phase, `phase_runs` has those of a
//! phase, and `process_at_beginning` tells where a process stands before the window. `slots_told` has the slots for a machine that runs beside them.
//!
//! A window tells the good machine's whole state before each of its slots and behind the last one: `value_at` at the slot's `first_moment` is what an object holds,
//! `state_before` where a process stands, and `updates_before` which nonblocking updates it has pending (clause 9.2.2); `rests_before` is the law that nothing else
//! is in that state. `changes_in` has the changes of a slot, and `runs_in` the runs that end in it.
#![tactic(auto)]

mod beside;
mod between;
mod closing;
mod ending;
mod events;
mod first;
mod pushed;
mod setup;
mod slot;
mod spare;
mod trace;
mod window;

pub use beside::WindowSlots;
pub use ending::GoodEnd;
pub use setup::Setup;
pub use trace::Trace;
pub use window::TraceWindow;
