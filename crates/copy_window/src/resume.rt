// A fault from its copy on.

ghost use Rattle.std.specs.Prelude.{◌+◌, ◌<◌, ◌≤◌, ◌∷◌, [], length, IfOk, OnOk};
ghost use Rattle.copy_laws.specs.Windows.{RiseAtMostOwn};
ghost use Rattle.fault_strobes.specs.Said.{plan_by};
ghost use Rattle.v_design.specs.Plain.{fault_of};
ghost use Rattle.copy_room.specs.Rooms.{IsRoom};
ghost use Rattle.window_strobes.specs.Strobes.{passed_behind};
ghost use Rattle.copy_window.specs.Passing.{CanResume};
ghost use Rattle.window_beside.specs.Tried.{MayTry};
ghost use Rattle.copy_window.specs.ShardFaults.{IsShardFault, SameFault, kept_by};

use crate::fault::ShardFault;
use crate::settle::settle;
use causal_monitor::SlotLog;
use copy_room::{Machine, enter};
use fault_strobes::strobed_gradings_go_on;
use good_runs::TriedStep;
use good_trace::{Setup, TraceWindow};
use std::alloc::Global;
use std::sync::ledger::Ledger;
use v_design::{Fault, World};
use vf_base::{NoMemory, Steps};
use window_beside::slots_are_known;
use window_grade::{RunBeside, machines_stand};
use window_strobes::WindowStrobes;

/// A machine into which the states of the faults' machines are put.
///
/// # Errors
///
/// Want of memory.
pub fn new_room<'d, N: World>(alloc: Global, setup: &Setup<'d, N>) -> Result<Machine<'d>, NoMemory>
    ensures { IfOk result (IsRoom N.design) }
{
    let room = Machine::new(alloc, setup.design(), setup.graph(), None)?;
    Ok(room)
}

/// Grades a fault through the slots of a window from the one of a number on and before another, where its faulty machine ran some slots before. The strobes are those of
/// these slots; `tried` are the steps that the faulty machine took itself in the first one, where it went in lockstep there; `room` is a machine of the design, and `log` room for the
/// log of a slot. `steps` ticks at most once for each own step of the slots that are run, and not for those.
///
/// # Errors
///
/// Want of memory.
pub fn resume_fault<N: World, L: Ledger>(
    alloc: Global,
    setup: &Setup<'_, N>,
    window: &TraceWindow<N>,
    slot: u32,
    end: u32,
    strobes: &WindowStrobes,
    fault: Fault,
    tried: &[TriedStep],
    room: &mut Machine<'_>,
    log: &mut SlotLog,
    own: &mut ShardFault,
    steps: &mut Steps<L>,
) -> Result<(), NoMemory>
    requires slot { slot < end }
    requires end { window.now.before + end ≤ window.now.through }
    requires room { IsRoom N.design room.old }
    requires fault { CanResume N.design N.plan (window.now.before + slot) (window.now.before + end) strobes.now (fault_of fault) own.old }
    requires tried { MayTry N.design (plan_by (kept_by own.old) N.plan) (window.now.before + slot) (fault_of fault) tried.now }
    ensures fault { OnOk result (IsShardFault N.design N.plan (window.now.before + end) (passed_behind strobes.now) own.new) }
    ensures place { OnOk result (SameFault own.old own.new) }
    ensures room { OnOk result (IsRoom N.design room.new) }
    ensures ticks { OnOk result (RiseAtMostOwn N.design (plan_by (kept_by own.old) N.plan) (window.now.before + slot) (window.now.before + end) (fault_of fault ∷ []) steps.old
        (steps.new + length tried.now)) }
{
    beside_laws::faults_go_on();
    strobed_gradings_go_on();
    machines_stand();
    slots_are_known();
    let _first = window.begins();
    let codes = setup.codes();
    let design = setup.design();
    let plan = setup.plan();
    enter(
        alloc, room, log, setup, window, slot, &own.copy, fault, own.time,
    )?;
    let beside = RunBeside {
        slots: window.slots_told(),
        time: window.slot_time(slot),
        tried,
    };
    settle(
        alloc, setup, window, end, strobes, room, log, own, &beside, steps,
    )?;
    Ok(())
}
