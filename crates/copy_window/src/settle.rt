// A fault behind slots of a window.

ghost use Rattle.std.specs.Prelude.{◌≡◌, ℕ, ◌+◌, ◌≤◌, ◌∷◌, [], length, OnOk};
ghost use Rattle.copy_laws.specs.Windows.{RiseAtMostOwn};
ghost use Rattle.fault_strobes.specs.Said.{plan_by};
ghost use Rattle.window_grade.specs.Running.{StaysOn};
ghost use Rattle.window_strobes.specs.Strobes.{passed_behind};
ghost use Rattle.copy_window.specs.Passing.{CanSettle, StaysOpen};
ghost use Rattle.copy_window.specs.ShardFaults.{IsShardFault, SameFault, kept_by};

use crate::fault::ShardFault;
use crate::grade::grade_window;
use causal_monitor::SlotLog;
use copy_room::{Machine, leave};
use fault_strobes::strobed_faults_go_on;
use good_trace::{Setup, TraceWindow};
use process_code::codes_are_one;
use std::alloc::Global;
use std::sync::ledger::Ledger;
use v_design::World;
use vf_base::{NoMemory, Steps};
use window_grade::RunBeside;
use window_strobes::WindowStrobes;

/// Keeps of a fault whose grading goes on behind so many slots of a window what its faulty machine has there.
fn keep_open<N: World>(
    alloc: Global,
    setup: &Setup<'_, N>,
    window: &TraceWindow<N>,
    end: u32,
    strobes: &WindowStrobes,
    machine: &Machine<'_>,
    own: &mut ShardFault,
) -> Result<(), NoMemory>
    requires end { window.now.before + end ≤ window.now.through }
    requires stays { StaysOpen N.design N.plan (window.now.before + end) (passed_behind strobes.now) machine.now own.old }
    ensures fault { OnOk result (IsShardFault N.design N.plan (window.now.before + end) (passed_behind strobes.now) own.new) }
    ensures place { OnOk result (SameFault own.old own.new) }
    ensures end { OnOk result (own.new.end ≡ own.old.end) }
{
    beside_laws::runs_go_on();
    strobed_faults_go_on();
    codes_are_one();
    machine.stands_between();
    let codes = setup.codes();
    leave(alloc, &mut own.copy, machine, setup, window, end)?;
    own.time = machine.time();
    Ok(())
}

/// Grades a fault by its faulty machine through a window up to so many of its slots, and keeps what there is to keep of it behind these.
pub(crate) fn settle<N: World, L: Ledger>(
    alloc: Global,
    setup: &Setup<'_, N>,
    window: &TraceWindow<N>,
    end: u32,
    strobes: &WindowStrobes,
    machine: &mut Machine<'_>,
    log: &mut SlotLog,
    own: &mut ShardFault,
    beside: &RunBeside<'_>,
    steps: &mut Steps<L>,
) -> Result<(), NoMemory>
    requires end { window.now.before + end ≤ window.now.through }
    requires fault { (before : ℕ) × CanSettle N.design N.plan before (window.now.before + end) strobes.now beside.now machine.old own.old }
    ensures fault { OnOk result (IsShardFault N.design N.plan (window.now.before + end) (passed_behind strobes.now) own.new) }
    ensures place { OnOk result (SameFault own.old own.new) }
    ensures stays { OnOk result (StaysOn machine.old machine.new) }
    ensures ticks { OnOk result ((before : ℕ) (of : CanSettle N.design N.plan before (window.now.before + end) strobes.now beside.now machine.old own.old) →
        RiseAtMostOwn N.design (plan_by (kept_by own.old) N.plan) before (window.now.before + end) (of.fault ∷ []) steps.old (steps.new + length beside.now.tried.now)) }
{
    let plan = setup.plan();
    let watched = plan.watched.as_slice();
    let found = grade_window(
        alloc,
        log,
        machine,
        watched,
        &mut own.strobed,
        strobes,
        beside,
        steps,
    )?;
    if found.is_some() {
        own.end = found;
        return Ok(());
    }
    keep_open(alloc, setup, window, end, strobes, machine, own)?;
    Ok(())
}
