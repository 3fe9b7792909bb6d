//! The good machine's state as it is shown at a place of a slot, and the laws by which it is moved on (slots, phases, turns and blocks by IEEE 1364-2001, clause 5).
//!
//! `IsShownAt` says that a state is shown at a place between two blocks: what each object holds, where each process stands, and which nonblocking updates it has pending and
//! in its lane (clause 9.2.2); and that where the place is in its window is told. What a window tells of the state before a slot shows the slot's beginning
//! (`slots_are_shown`); and resuming the postponed processes, or activating the updates that are due, shows the beginning of the next phase (`turns_are_shown`). Each
//! function does nothing when it runs; its contract is the law.
#![tactic(auto)]

ghost use Rattle.moment_laws.specs.Begins.{SlotsAreShown};
ghost use Rattle.moment_laws.specs.Turns.{TurnsAreShown};

pub use lockstep_places::{limits_tell, places_are_told};
pub use moment_runs::{place_behind, take_runs};
pub use window_places::places_in_windows;
pub use window_wakes::{Wake, WindowWakes};

/// The beginning of a slot is shown by what its window tells of the state before it.
pub fn slots_are_shown()
    ensures { SlotsAreShown }
{
    order_laws::slots();
    order_laws::nets();
    order_laws::first_run_goes_on();
    machine_laws::slot_goes_on();
    machine_laws::stretches_go_on();
    phase_order::phases_follow();
    lockstep_places::places_are_told();
    window_places::places_in_windows();
}

/// The beginning of the next phase is shown by what its turn does.
pub fn turns_are_shown()
    ensures { TurnsAreShown }
{
    phase_order::phases_follow();
    lockstep_places::places_are_told();
    window_places::places_in_windows();
}
