//! Places of the good machine's slots among the phases and blocks of a window (slots, phases and events by IEEE 1364-2001, clause 5).
//!
//! A window numbers its events through, and tells with which of them blocks begin and where phases end. A place in a slot, behind so many of its phases and so many events
//! of the next one, has the moment of its next event. So the tables tell where the phase ends from there, that it is between runs where a block begins, and that the
//! events up to the next such moment are a block; and what leaves a copy alone leaves alone what is kept in lockstep. Each function here does nothing when it runs; its
//! contract is the law.
#![tactic(auto)]

ghost use Rattle.lockstep_places.specs.Places.{PlacesTold};
ghost use Rattle.lockstep_places.specs.Limits.{LimitsTell};

/// Where places stand among the phases of a window, and what the moments of its blocks tell from there.
pub fn places_are_told()
    ensures { PlacesTold }
{
    phase_blocks::blocks_are_told();
}

/// Events that leave a copy alone leave alone what is kept in lockstep with the values and updates of the copy.
pub fn limits_tell()
    ensures { LimitsTell }
{}
