//! A block at a place that is shown: its writes, the waits that it ends, and the runs that end in it (blocks by IEEE 1364-2001, clause 5; processes by clause 9).
//!
//! The tables of a window's blocks tell where the next block ends (`blocks_are_ahead`), and the events of the window from the moment of a place on are those of that block. So
//! the changes up to its end are what it wrote, and put the values behind it in place of those before; the wakes up to its end are the waits that it ended; and the next runs
//! that end in the slot are those that end in it (`passages_tell`). Each function does nothing when it runs; its contract is the law.
#![tactic(auto)]

ghost use Rattle.shown_blocks.specs.Blocks.{BlocksAreAhead};
ghost use Rattle.shown_blocks.specs.Passages.{PassagesTell};

pub use moment_laws::{
    Wake, WindowWakes, limits_tell, place_behind, places_are_told, places_in_windows,
    slots_are_shown, take_runs, turns_are_shown,
};

/// Where the next block of the phase ends.
pub fn blocks_are_ahead()
    ensures { BlocksAreAhead }
{
    phase_order::phases_follow();
    phase_blocks::blocks_are_told();
    moment_laws::places_are_told();
    block_places::blocks_at_places();
}

/// What the changes and the wakes up to a block's end come to.
pub fn passages_tell()
    ensures { PassagesTell }
{}
