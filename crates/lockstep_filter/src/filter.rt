// The filter of a phase.

ghost use Rattle.std.specs.Prelude.{◌≡◌, List, true};
ghost use Rattle.v_design.specs.Designs.{StuckAt};
ghost use Rattle.machine_laws.specs.SlotLoop.{Moment};
ghost use Rattle.block_filter.specs.Blocks.{BlockPair};
ghost use Rattle.phase_reach.specs.lockstep_slots.Pairs.{LeavesNoConflict};
ghost use Rattle.phase_reach.specs.lockstep_slots.Places.{Place};
ghost use Rattle.phase_reach.specs.lockstep_notes.Notes.{marks_of};
ghost use Rattle.lockstep_filter.specs.Phases.{IsPhaseNoted};

use crate::objects::{noted_are_free, reached_are_unread, some_is_read};
use crate::room::FilterRoom;
use good_trace::{Setup, TraceWindow};
use phase_reach::{object_count, reach_all, reach_phase};
use race_notes::RaceNotes;
use v_design::World;

/// Whether it is told that no accesses conflict in a phase of a window's slot, which ends at a moment, by the notes of its own blocks.
pub fn is_free<N: World>(
    setup: &Setup<'_, N>,
    window: &TraceWindow<N>,
    notes: &RaceNotes,
    room: &mut FilterRoom<'_, N>,
    slot: u32,
    end: u32,
) -> bool
    ensures { result ≡ true → (fault : StuckAt) (place : Place) (own : Moment) (pairs : List BlockPair) →
        IsPhaseNoted N.design N.plan fault window.now.before window.now.through end place own pairs notes.now →
        LeavesNoConflict N.design fault (marks_of N.design notes.now) own.phase_begins pairs }
{
    block_filter::blocks_suffice();
    free_objects::objects();
    lockstep_race::pairs_tell();
    lockstep_race::nets_are_told();
    lockstep_waits::only_texts_wait();
    settled_objects::settled_are_free();
    sole_touches::accesses_are_counted();
    sole_touches::writers_dont_read();
    sole_touches::unawaited_objects();
    phase_reach::places_in_windows();
    phase_reach::pairs_are_told();
    let count = object_count(setup);
    if !reach_all(&mut room.own, notes.changed(), count) {
        return false;
    }
    if !reached_are_unread(setup, window, notes, &room.awaited, &room.own, end) {
        return false;
    }
    let asked = some_is_read(setup, window, notes, &room.awaited, &room.own, end);
    let known = reach_phase(setup, window, notes, &mut room.phase, slot, end, asked);
    noted_are_free(
        setup,
        window,
        notes,
        &room.awaited,
        &room.own,
        &room.phase,
        &mut room.late,
        known,
        slot,
        end,
    )
}
