// A turn within a slot.

ghost use Rattle.std.specs.Prelude.{◌≡◌, ◌<◌, ℕ, List, [], ◌∷◌, get_or, length, OnOk};
ghost use Rattle.std.specs.List.{AllZip};
ghost use Rattle.vf_base.specs.Base.{process_number};
ghost use Rattle.vf_base.specs.Lists.{AllHold};
ghost use Rattle.v_design.specs.Grades.{Phase};
ghost use Rattle.phase_faults.specs.block_skip.Blocks.{AreProcesses};
ghost use Rattle.phase_faults.specs.lockstep_slots.Places.{Place};
ghost use Rattle.phase_faults.specs.slot_laws.Slots.{IsRoomIn, TurnsAll, TurnsOne};
ghost use Rattle.lockstep_turn.specs.Turning.{MayTurnBeside, RoomMayTurn, RoomTurns, TurnsBeside};

use good_trace::Setup;
use phase_faults::{
    FaultBeside, GoodMoment, LockstepCopy, LockstepRoom, LockstepWindow, turn_writes,
};
use std::alloc::Global;
use v_design::World;
use vf_base::{NoMemory, ProcId};

/// Behind a turn that the good machine took at a time, in steps: of a process in whose lane the turn put updates the own ones that are due go into the lane.
fn turn_one<N: World>(
    alloc: Global,
    good: &GoodMoment<N>,
    own: &mut LockstepCopy,
    process: ProcId,
    now: u64,
) -> Result<(), NoMemory>
    requires { process_number process < length good.now.lanes }
    ensures { OnOk result (TurnsOne now (process_number process) (get_or good.now.lanes (process_number process) []) own.old own.new) }
{
    if good.lane(process).is_empty() {
        return Ok(());
    }
    turn_writes(alloc, own, process, now)
}

/// The same of all processes of which updates are kept.
fn turn_all_writes<N: World>(
    alloc: Global,
    setup: &Setup<'_, N>,
    good: &GoodMoment<N>,
    own: &mut LockstepCopy,
    now: u64,
) -> Result<(), NoMemory>
    requires lanes { length good.now.lanes ≡ length N.design.processes }
    requires there { AreProcesses N.design own.old.copy.updates }
    ensures { OnOk result (TurnsAll now good.now own.old own.new) }
{
    let _design = setup.design();
    own.copy.ascending();
    let mut next = own.copy.next_updates(ProcId(0));
    'processes: while let Some(process) = next {
        turn_one(alloc, good, own, process, now)?;
        own.copy.ascending();
        next = own.copy.next_updates(ProcId(process.0 + 1));
    }
    Ok(())
}

/// The room takes the turn to the next phase of a slot.
///
/// # Errors
///
/// Want of memory. The room isn't to be used again then.
pub fn take_turn<N: World>(
    setup: &Setup<'_, N>,
    view: &LockstepWindow<'_, N>,
    room: &mut LockstepRoom<'_, N>,
) -> Result<(), NoMemory>
    requires turn { RoomMayTurn N.design N.plan view.now.window.now.before view.now.window.now.through room.old.runner room.old.before room.old.behind }
    ensures turns { OnOk result ((number : ℕ) (place : Place) (next : Phase) (later : List Phase) →
        IsRoomIn N.design N.plan view.now.window.now.before view.now.window.now.through number place room.old.runner room.old.before room.old.behind → place.left ≡ [] →
        place.later ≡ next ∷ later → RoomTurns N.design N.plan place next later room.old.runner room.old.before room.old.behind room.new.runner room.new.before room.new.behind) }
    ensures counts { OnOk result (room.new.counts ≡ room.old.counts) }
{
    phase_order::phases_follow();
    room.before.pass_turn(setup, view.window)?;
    room.behind.pass_turn(setup, view.window)?;
    let _turn = room.runner.turn()?;
    Ok(())
}

/// Of a fault that still goes own updates turn, behind a turn that the good machine took at a time, in steps; and nothing is noted any more, nor is a run
/// apart.
fn turn_fault<N: World>(
    alloc: Global,
    setup: &Setup<'_, N>,
    good: &GoodMoment<N>,
    each: &mut FaultBeside,
    now: u64,
) -> Result<(), NoMemory>
    requires lanes { length good.now.lanes ≡ length N.design.processes }
    requires there { MayTurnBeside N.design each.old }
    ensures { OnOk result (TurnsBeside now good.now each.old each.new) }
{
    if !each.goes {
        return Ok(());
    }
    turn_all_writes(alloc, setup, good, &mut each.one.own, now)?;
    each.one.notes.clear(good.moment());
    each.one.apart.clear();
    Ok(())
}

/// The same of each of some faults.
pub fn turn_each<N: World>(
    alloc: Global,
    setup: &Setup<'_, N>,
    good: &GoodMoment<N>,
    faults: &mut Vec<FaultBeside>,
    now: u64,
) -> Result<(), NoMemory>
    requires lanes { length good.now.lanes ≡ length N.design.processes }
    requires there { AllHold (MayTurnBeside N.design) faults.old.items }
    ensures { OnOk result (AllZip (TurnsBeside now good.now) faults.old.items faults.new.items) }
{
    'faults: for place in 0..faults.len() {
        let each = &mut faults[place];
        turn_fault(alloc, setup, good, each, now)?;
    }
    Ok(())
}
