// Faults take blocks of their own.

ghost use Rattle.std.specs.Prelude.{◌≡◌, ◌<◌, ◌≤◌, true, length, map, OnOk, sum_by};
ghost use Rattle.v_design.specs.Plain.{fault_of};
ghost use Rattle.trace_window.specs.Moments.{window_events};
ghost use Rattle.lockstep_turn.specs.lockstep_block.Own.{MayRunOwn};
ghost use Rattle.lockstep_turn.specs.lockstep_block.Rooms.{MayStandThere};
ghost use Rattle.lockstep_turn.specs.lockstep_room.Rooms.{AreCounts};
ghost use Rattle.slot_steps.specs.Rises.{RisesWithin};
ghost use Rattle.lockstep_turn.specs.slot_laws.Slots.{AreOfOneWindow};
ghost use Rattle.lockstep_turn.specs.phase_faults.Beside.{FaultsMayGo, HasSite, HaveGoneOn, RoomWaits, TakesOwn, stop_of, ticked_of};

use good_trace::Setup;
use lockstep_turn::{
    FaultBeside, LockstepRoom, LockstepWindow, NextTouches, follow_block, look_ahead,
    run_own_block, stand_at, stop_of,
};
use std::alloc::Global;
use std::sync::ledger::Ledger;
use v_design::World;
use vf_base::{NoMemory, Steps};

/// A fault that still goes, and of which the next block of the phase may touch what is kept, takes a block of its own beside the good machine's, which the room's later moment tells. The
/// room's runner is back in the good machine's state before the block then.
///
/// # Errors
///
/// Want of memory. Room and fault aren't to be used again then.
fn take_own<N: World, L: Ledger>(
    alloc: Global,
    setup: &Setup<'_, N>,
    view: &LockstepWindow<'_, N>,
    room: &mut LockstepRoom<'_, N>,
    touches: &mut NextTouches<N>,
    time: u64,
    each: &mut FaultBeside,
    end: u32,
    steps: &mut Steps<L>,
) -> Result<(), NoMemory>
    requires window { AreOfOneWindow view.now.window.now view.now.blocks.now view.now.wakes.now }
    requires counts { AreCounts N.design room.old.counts }
    requires site { HasSite N.design each.old }
    requires stands { MayStandThere N.design N.plan time room.old.before }
    requires order { room.old.behind.moment ≤ end }
    requires end { end ≤ length (window_events N.design N.plan view.now.window.now.before view.now.window.now.through) }
    requires goes { each.old.goes ≡ true → MayRunOwn N.design N.plan (fault_of each.old.fault) view.now.window.now.before view.now.window.now.through room.old.runner room.old.before
        room.old.behind room.old.counts each.old.one.notes each.old.one.own each.old.one.spare each.old.one.tried.items each.old.one.apart.items }
    ensures own { OnOk result (TakesOwn N.design N.plan view.now.window.now.before view.now.window.now.through view.now.blocks.now.moments end room.old.runner room.old.before room.old.behind
        room.old.counts each.old each.new) }
    ensures room { OnOk result (RoomWaits N.design N.plan time room.old.runner room.old.before room.old.behind room.old.counts room.new.runner room.new.before room.new.behind
        room.new.counts) }
    ensures ticks { OnOk result (RisesWithin (length each.old.one.tried.items) (length each.new.one.tried.items) steps.old steps.new) }
{
    let moment = room.before.moment();
    let until = each.until;
    let goes = each.goes;
    if !goes {
        return Ok(());
    }
    if moment < until {
        return Ok(());
    }
    if !run_own_block(
        alloc,
        setup,
        view.window,
        room,
        each.fault,
        &mut each.one,
        steps,
    )? {
        each.goes = false;
        stand_at(setup, &mut room.runner, &room.before, time, room.counts)?;
        return Ok(());
    }
    let next = room.behind.moment();
    look_ahead(setup, view, touches, each, next, end);
    Ok(())
}

/// A fault whose stop is listed takes a block of its own, as far as the stop isn't ahead of the room; its stop is listed anew then.
///
/// # Errors
///
/// Want of memory. Room and fault aren't to be used again then.
fn take_at_stop<N: World, L: Ledger>(
    alloc: Global,
    setup: &Setup<'_, N>,
    view: &LockstepWindow<'_, N>,
    room: &mut LockstepRoom<'_, N>,
    touches: &mut NextTouches<N>,
    time: u64,
    each: &mut FaultBeside,
    stop: &mut u32,
    end: u32,
    steps: &mut Steps<L>,
) -> Result<(), NoMemory>
    requires window { AreOfOneWindow view.now.window.now view.now.blocks.now view.now.wakes.now }
    requires counts { AreCounts N.design room.old.counts }
    requires site { HasSite N.design each.old }
    requires stands { MayStandThere N.design N.plan time room.old.before }
    requires order { room.old.behind.moment ≤ end }
    requires end { end ≤ length (window_events N.design N.plan view.now.window.now.before view.now.window.now.through) }
    requires goes { each.old.goes ≡ true → MayRunOwn N.design N.plan (fault_of each.old.fault) view.now.window.now.before view.now.window.now.through room.old.runner room.old.before
        room.old.behind room.old.counts each.old.one.notes each.old.one.own each.old.one.spare each.old.one.tried.items each.old.one.apart.items }
    requires stop { stop.old ≡ stop_of end each.old }
    ensures own { OnOk result (TakesOwn N.design N.plan view.now.window.now.before view.now.window.now.through view.now.blocks.now.moments end room.old.runner room.old.before room.old.behind
        room.old.counts each.old each.new) }
    ensures room { OnOk result (RoomWaits N.design N.plan time room.old.runner room.old.before room.old.behind room.old.counts room.new.runner room.new.before room.new.behind
        room.new.counts) }
    ensures ticks { OnOk result (RisesWithin (length each.old.one.tried.items) (length each.new.one.tried.items) steps.old steps.new) }
    ensures stop { OnOk result (stop.new ≡ stop_of end each.new) }
{
    let moment = room.before.moment();
    let at = *stop;
    if moment < at {
        return Ok(());
    }
    take_own(alloc, setup, view, room, touches, time, each, end, steps)?;
    *stop = stop_of(each, end);
    Ok(())
}

/// The room goes over the next block of the good machine in a phase that ends with a moment, and the faults with it: those of which the block may touch what is kept take blocks of their
/// own.
///
/// # Errors
///
/// Want of memory. Room and faults aren't to be used again then.
pub(crate) fn take_block<N: World, L: Ledger>(
    alloc: Global,
    setup: &Setup<'_, N>,
    view: &LockstepWindow<'_, N>,
    room: &mut LockstepRoom<'_, N>,
    touches: &mut NextTouches<N>,
    time: u64,
    faults: &mut Vec<FaultBeside>,
    stops: &mut Vec<u32>,
    end: u32,
    steps: &mut Steps<L>,
) -> Result<(), NoMemory>
    requires window { AreOfOneWindow view.now.window.now view.now.blocks.now view.now.wakes.now }
    requires may { FaultsMayGo N.design N.plan view.now.window.now.before view.now.window.now.through time view.now.blocks.now.moments end room.old.runner room.old.before room.old.behind
        room.old.counts faults.old.items }
    requires more { room.old.before.moment < end }
    requires stops { stops.old.items ≡ map (stop_of end) faults.old.items }
    ensures on { OnOk result (HaveGoneOn N.design N.plan view.now.window.now.before view.now.window.now.through view.now.blocks.now.moments end room.old.runner room.old.before
        room.old.behind room.old.counts faults.old.items room.new.runner room.new.before room.new.behind room.new.counts faults.new.items) }
    ensures more { OnOk result (room.old.before.moment < room.new.before.moment) }
    ensures stops { OnOk result (stops.new.items ≡ map (stop_of end) faults.new.items) }
    ensures ticks { OnOk result (RisesWithin (sum_by ticked_of faults.old.items) (sum_by ticked_of faults.new.items) steps.old steps.new) }
{
    lockstep_turn::limits_tell();
    lockstep_turn::own_steps_go_on();
    lockstep_turn::places_are_told();
    lockstep_turn::steps_go_on();
    phase_blocks::blocks_are_told();
    phase_order::phases_follow();
    view.blocks.stands();
    room.behind
        .pass_block(setup, view.window, view.blocks, view.wakes)?;
    'faults: for place in 0..faults.len() {
        let each = &mut faults[place];
        let stop = &mut stops[place];
        take_at_stop(
            alloc, setup, view, room, touches, time, each, stop, end, steps,
        )?;
    }
    follow_block(setup, &mut room.runner, &room.behind, room.counts)?;
    room.before
        .pass_block(setup, view.window, view.blocks, view.wakes)?;
    Ok(())
}
