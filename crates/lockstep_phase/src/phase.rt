// A phase in lockstep.

ghost use Rattle.std.specs.Prelude.{◌≡◌, ◌<◌, ◌≤◌, ℕ, length, map, OnOk, sum_by};
ghost use Rattle.std.specs.List.{AllZip};
ghost use Rattle.vf_base.specs.Lists.{AllHold};
ghost use Rattle.lockstep_turn.specs.lockstep_room.Rooms.{AreCounts};
ghost use Rattle.slot_steps.specs.Rises.{RisesWithin};
ghost use Rattle.lockstep_turn.specs.lockstep_slots.Places.{Place};
ghost use Rattle.lockstep_turn.specs.slot_laws.Slots.{AreOfOneWindow, IsRoomIn, further};
ghost use Rattle.lockstep_turn.specs.phase_faults.Beside.{ComesThroughPhase, FaultsMayGo, HasSite, HaveGoneOn, IsRoomSomewhere, MayGoOnIf, stop_of, ticked_of};

use crate::filter::ask_all;
use crate::own::take_block;
use crate::pass::pass_until;
use good_trace::Setup;
use lockstep_turn::{
    FaultBeside, LockstepRoom, LockstepWindow, NextTouches, least_stop, look_ahead_all, stops_of,
};
use std::alloc::Global;
use std::sync::ledger::Ledger;
use v_design::World;
use vf_base::{NoMemory, Steps};

/// Room and faults go further in a phase that ends with a moment: over a stretch that leaves alone what is kept of each fault, and the block behind it.
///
/// # Errors
///
/// Want of memory. Room and faults aren't to be used again then.
fn go_further<N: World, L: Ledger>(
    alloc: Global,
    setup: &Setup<'_, N>,
    view: &LockstepWindow<'_, N>,
    room: &mut LockstepRoom<'_, N>,
    touches: &mut NextTouches<N>,
    time: u64,
    faults: &mut Vec<FaultBeside>,
    stops: &mut Vec<u32>,
    end: u32,
    steps: &mut Steps<L>,
) -> Result<(), NoMemory>
    requires window { AreOfOneWindow view.now.window.now view.now.blocks.now view.now.wakes.now }
    requires may { FaultsMayGo N.design N.plan view.now.window.now.before view.now.window.now.through time view.now.blocks.now.moments end room.old.runner room.old.before room.old.behind
        room.old.counts faults.old.items }
    requires more { room.old.before.moment < end }
    requires stops { stops.old.items ≡ map (stop_of end) faults.old.items }
    ensures on { OnOk result (HaveGoneOn N.design N.plan view.now.window.now.before view.now.window.now.through view.now.blocks.now.moments end room.old.runner room.old.before
        room.old.behind room.old.counts faults.old.items room.new.runner room.new.before room.new.behind room.new.counts faults.new.items) }
    ensures more { OnOk result (room.old.before.moment < room.new.before.moment) }
    ensures stops { OnOk result (stops.new.items ≡ map (stop_of end) faults.new.items) }
    ensures ticks { OnOk result (RisesWithin (sum_by ticked_of faults.old.items) (sum_by ticked_of faults.new.items) steps.old steps.new) }
{
    lockstep_turn::limits_tell();
    lockstep_turn::own_steps_go_on();
    lockstep_turn::places_are_told();
    lockstep_turn::steps_go_on();
    phase_blocks::blocks_are_told();
    phase_order::phases_follow();
    view.blocks.stands();
    let least = least_stop(stops, end);
    pass_until(setup, view, room, least)?;
    if least < end {
        take_block(
            alloc, setup, view, room, touches, time, faults, stops, end, steps,
        )?;
        return Ok(());
    }
    Ok(())
}

/// Room and faults go to the end of a phase.
///
/// # Errors
///
/// Want of memory. Room and faults aren't to be used again then.
fn go_to_end<N: World, L: Ledger>(
    alloc: Global,
    setup: &Setup<'_, N>,
    view: &LockstepWindow<'_, N>,
    room: &mut LockstepRoom<'_, N>,
    touches: &mut NextTouches<N>,
    time: u64,
    faults: &mut Vec<FaultBeside>,
    stops: &mut Vec<u32>,
    end: u32,
    steps: &mut Steps<L>,
) -> Result<(), NoMemory>
    requires window { AreOfOneWindow view.now.window.now view.now.blocks.now view.now.wakes.now }
    requires may { FaultsMayGo N.design N.plan view.now.window.now.before view.now.window.now.through time view.now.blocks.now.moments end room.old.runner room.old.before room.old.behind
        room.old.counts faults.old.items }
    requires stops { stops.old.items ≡ map (stop_of end) faults.old.items }
    ensures on { OnOk result (HaveGoneOn N.design N.plan view.now.window.now.before view.now.window.now.through view.now.blocks.now.moments end room.old.runner room.old.before
        room.old.behind room.old.counts faults.old.items room.new.runner room.new.before room.new.behind room.new.counts faults.new.items) }
    ensures past { OnOk result (end ≤ room.new.before.moment) }
    ensures ticks { OnOk result (RisesWithin (sum_by ticked_of faults.old.items) (sum_by ticked_of faults.new.items) steps.old steps.new) }
{
    'moments: while room.before.moment() < end {
        go_further(
            alloc, setup, view, room, touches, time, faults, stops, end, steps,
        )?;
    }
    Ok(())
}

/// Faults go through a phase beside one another, from the place at which the room stands at a time in steps. Of those that still go in lockstep then the phase has no race. The counter
/// rises by no more than the process steps that the faults took themselves, which are put to `tried`. What `touches` knows of the window is used, and more is put to it.
///
/// # Errors
///
/// Want of memory. Room and faults aren't to be used again then.
pub fn all_through_phase<N: World, L: Ledger>(
    alloc: Global,
    setup: &Setup<'_, N>,
    view: &LockstepWindow<'_, N>,
    room: &mut LockstepRoom<'_, N>,
    touches: &mut NextTouches<N>,
    time: u64,
    faults: &mut Vec<FaultBeside>,
    steps: &mut Steps<L>,
) -> Result<(), NoMemory>
    requires window { AreOfOneWindow view.now.window.now view.now.blocks.now view.now.wakes.now }
    requires counts { AreCounts N.design room.old.counts }
    requires sites { AllHold (HasSite N.design) faults.old.items }
    requires room { IsRoomSomewhere N.design N.plan view.now.window.now.before view.now.window.now.through room.old.runner room.old.before room.old.behind }
    requires time { room.old.before.time ≡ time }
    requires goes { AllHold (MayGoOnIf N.design N.plan view.now.window.now.before view.now.window.now.through room.old.runner room.old.before room.old.behind) faults.old.items }
    ensures faults { OnOk result (AllZip (ComesThroughPhase N.design N.plan view.now.window.now.before view.now.window.now.through room.old.runner room.old.before room.old.behind
        room.new.runner room.new.before room.new.behind) faults.old.items faults.new.items) }
    ensures room { OnOk result ((number : ℕ) (place : Place) → IsRoomIn N.design N.plan view.now.window.now.before view.now.window.now.through number place room.old.runner
        room.old.before room.old.behind →
        IsRoomIn N.design N.plan view.now.window.now.before view.now.window.now.through number (further (length place.left) place) room.new.runner room.new.before room.new.behind) }
    ensures counts { OnOk result (room.new.counts ≡ room.old.counts) }
    ensures time { OnOk result (room.new.before.time ≡ room.old.before.time) }
    ensures ticks { OnOk result (RisesWithin (sum_by ticked_of faults.old.items) (sum_by ticked_of faults.new.items) steps.old steps.new) }
{
    lockstep_turn::places_are_told();
    lockstep_turn::steps_go_on();
    view.blocks.stands();
    let slot = room.before.slot();
    let phase = room.before.phase();
    let moment = room.before.moment();
    let ends = view.blocks.phase_ends();
    let end = ends[phase as usize];
    look_ahead_all(setup, view, touches, faults, moment, end);
    let mut stops = stops_of(alloc, faults, end)?;
    go_to_end(
        alloc, setup, view, room, touches, time, faults, &mut stops, end, steps,
    )?;
    ask_all(setup, view, &mut room.filter, faults, slot, end);
    Ok(())
}
