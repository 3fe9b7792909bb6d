//! A block is passed without running it: the state behind it is shown by what a window tells (blocks by IEEE 1364-2001, clause 5; processes by clause 9).
//!
//! Where the changes and the wakes up to a block's end are put, what the block takes is there: the runs up to the one of the process with whose step it begins, or the first
//! update of a lane (clause 9.2.2). When that is taken, the state behind the block is shown, and just what it wrote, stepped and woke is told. `blocks_are_passed` does
//! nothing when it runs; its contract is the law.
#![tactic(auto)]

ghost use Rattle.passed_blocks.specs.Passed.{BlocksArePassed, BlocksCanBeTaken};

pub use shown_blocks::{
    Wake, WindowWakes, blocks_are_ahead, limits_tell, place_behind, places_are_told,
    slots_are_shown, take_runs, turns_are_shown,
};

/// What a block takes is there, and the state behind the block is shown when it is taken.
pub fn blocks_are_passed()
    ensures take { BlocksCanBeTaken }
    ensures pass { BlocksArePassed }
{
    phase_order::phases_follow();
    phase_blocks::blocks_are_told();
    shown_blocks::places_are_told();
    shown_blocks::places_in_windows();
    block_changes::events_are_told();
    block_states::blocks_leave();
    block_ends::ends_of_blocks();
    boundary_laws::processes_between_runs();
    boundary_laws::pending_is_told();
    copy_laws::own_runs();
}
