// A block noted.

ghost use Rattle.std.specs.Prelude.{◌≡◌, ◌++◌, ◌∷◌, [], List, OnOk};
ghost use Rattle.v_design.specs.Designs.{StuckAt, good_machine, faulty_machine};
ghost use Rattle.v_design.specs.States.{Event};
ghost use Rattle.machine_laws.specs.SlotLoop.{Moment, after_events};
ghost use Rattle.block_filter.specs.Likes.{AreWider};
ghost use Rattle.block_filter.specs.Blocks.{BlockPair};
ghost use Rattle.block_told.specs.Tells.{TellsBlock};
ghost use Rattle.own_told.specs.Told.{ActAlike};
ghost use Rattle.window_tests.specs.lockstep_slots.Pairs.{unlike_pair};
ghost use Rattle.window_tests.specs.lockstep_slots.Places.{Place, state_there, behind_events};
ghost use Rattle.lockstep_notes.specs.Notes.{NotesTell, marks_of};
ghost use Rattle.lockstep_notes.specs.Beside.{BeginAlike, IsGoodBlock, TakesIn};
ghost use Rattle.lockstep_notes.specs.Laws.{NotesGoOn};

use crate::likes::has_like;
use crate::standing::Standing;
use block_told::BlockTold;
use causal_monitor::Noted;
use good_trace::{Setup, TraceWindow};
use race_notes::{OwnSpan, RaceNotes};
use v_design::World;
use vf_base::{NoMemory, ObjectId};

/// Notes go on with the pairs of blocks of a phase: it begins, and stretches that both machines take are passed over.
///
/// It does nothing when it runs.
pub fn notes_go_on()
    ensures { NotesGoOn }
{}

/// Notes a block of the faulty machine's own, by what it tells. Beside it stands the good machine's block between two moments of a window, which wrote these objects, and
/// behind which the good machine's processes stand so.
///
/// # Errors
///
/// Want of memory. The notes are to be cleared then.
pub fn note_block<N: World, S: Standing>(
    setup: &Setup<'_, N>,
    window: &TraceWindow<N>,
    behind: &S,
    notes: &mut RaceNotes,
    told: &BlockTold,
    first: u32,
    end: u32,
    written: &[ObjectId],
) -> Result<(), NoMemory>
    requires { S.design behind.now ≡ N.design }

    // The marks grow, and take in what the blocks of both machines do.
    ensures wider { OnOk result (AreWider (marks_of N.design notes.old) (marks_of N.design notes.new)) }
    ensures taken { OnOk result ((fault : StuckAt) (place : Place) (own : Moment) (ones more others : List Event) →
        IsGoodBlock N.design N.plan window.now.before window.now.through first end written.now (S.shows behind.now) place ones more →
        TellsBlock (faulty_machine N.design fault) own.state others told.now → ActAlike N.design (state_there (good_machine N.design) place) ones told.now →
        TakesIn N.design fault (marks_of N.design notes.new) (state_there (good_machine N.design) place) own.state ones others) }

    // The notes are of one pair more.
    ensures told { OnOk result ((fault : StuckAt) (place : Place) (own : Moment) (pairs : List BlockPair) (ones more others : List Event) →
        NotesTell N.design N.plan fault window.now.before window.now.through first place own pairs notes.old →
        IsGoodBlock N.design N.plan window.now.before window.now.through first end written.now (S.shows behind.now) place ones more →
        TellsBlock (faulty_machine N.design fault) own.state others told.now →
        BeginAlike ones others →
        NotesTell N.design N.plan fault window.now.before window.now.through end (behind_events ones more place) (after_events (faulty_machine N.design fault) others own)
        (pairs ++ unlike_pair ones others ∷ []) notes.new) }
{
    let lane = told.lane.is_some();
    let span = OwnSpan {
        begins: first,
        ends: end,
    };
    notes.note(told, span, written, |access: &Noted| {
        has_like(setup, window, behind, access, first, end, lane)
    })
}
