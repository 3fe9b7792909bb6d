//! The faults of a shard through the slots of a window, side by side (strobes by the plan; slots by IEEE 1364-2001, clause 5).
//!
//! Behind the first window a fault is passed over the slots at a window's beginning that touch nothing of its copy (`window_faults`); from there on `go_through_window` takes the
//! faults slot by slot. Those that may enter a slot in lockstep go through it beside one another (`lockstep_slot`); the others, and those that leave lockstep, are run whole
//! through it by their machines. Most faults rest in most slots, so what goes on in a slot is kept of those alone that enter it. `go_through_first` takes them through the first
//! slot, which each enters with what its faulty machine has otherwise than the good one at the start (`start_copy`); one that leaves lockstep there is run by its machine from the
//! start on. The main contract: behind the window each fault stands as a fault of a shard does, it is the same fault, and one whose grading had ended stays as it was; a counter
//! rises by no more than the own steps of the faults in between: what a fault took itself in a slot that it leaves isn't taken again where the slot is run whole.
#![tactic(auto)]

mod enter;
mod entrants;
mod first;
mod leave;
mod let_go;
mod room;
mod slots;

pub use copy_lockstep::{
    ShardFault, WindowStrobes, begin_fault, empty_log, listed_fault, new_fault, strobes_of,
};
pub use first::go_through_first;
pub use room::SlotRoom;
pub use slots::go_through_window;
