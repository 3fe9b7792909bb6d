//! Blocks at the places of slots in a window (slots, phases and events by IEEE 1364-2001, clause 5).
//!
//! A window tells with which of its moments blocks begin (`window_blocks`). At a place of a slot that is just where the events of the phase so far end between runs, as
//! lockstep asks of each place to which it goes on. `blocks_at_places` does nothing when it runs; its contract is the law.
#![tactic(auto)]

ghost use Rattle.block_places.specs.Places.{BlocksAtPlaces};

/// A block begins with the event of a moment just where its place comes between runs.
pub fn blocks_at_places()
    ensures { BlocksAtPlaces }
{
    window_places::places_in_windows();
}
