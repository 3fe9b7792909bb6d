//! Where the slots of the good machine stand in a window of its trace (events, phases and slots by IEEE 1364-2001, clause 5).
//!
//! A window numbers its events through. A place in a slot, behind so many of its phases and so many events of the next one, has the moment of the event that comes next;
//! it goes on by one with each event and not at all with a turn. So tables of the window's events by object, by node and by process tell of the events from one place to
//! another whether they leave alone what is kept of a faulty machine in lockstep; where they do, it is passed on from the one to the other at once, over whatever phases and
//! turns come between. Each function here does nothing when it runs; its contract is the law.
#![tactic(auto)]

ghost use Rattle.window_places.specs.Windows.{PlacesInWindows};
ghost use Rattle.window_places.specs.Passing.{PassesOn};

/// Places have moments, and the tables tell of the stretches from there.
pub fn places_in_windows()
    ensures { PlacesInWindows }
{}

/// From a place of a slot both machines come to any later one in lockstep, where the tables leave alone what is kept up to its moment; at the last one both slots end.
pub fn passes_on()
    ensures { PassesOn }
{
    places_in_windows();
    lockstep_slots::slots_in_lockstep();
    lockstep_slots::no_marks();
    phase_order::phases_follow();
    phase_blocks::blocks_are_told();
}
