// A fault from the start of its faulty machine.

ghost use Rattle.std.specs.Prelude.{◌+◌, ◌<◌, ◌≤◌, ◌∷◌, [], length, OnOk};
ghost use Rattle.copy_laws.specs.Windows.{RiseAtMostOwn};
ghost use Rattle.fault_strobes.specs.Said.{plan_by};
ghost use Rattle.v_design.specs.Plain.{fault_of};
ghost use Rattle.window_strobes.specs.Strobes.{passed_behind};
ghost use Rattle.copy_window.specs.Passing.{CanBegin};
ghost use Rattle.window_beside.specs.Tried.{MayTry};
ghost use Rattle.copy_window.specs.ShardFaults.{IsShardFault, SameFault, kept_by};

use crate::fault::ShardFault;
use crate::settle::settle;
use causal_monitor::SlotLog;
use copy_room::Machine;
use fault_strobes::strobed_gradings_go_on;
use good_runs::TriedStep;
use good_trace::{Setup, TraceWindow};
use std::alloc::Global;
use std::sync::ledger::Ledger;
use v_design::{Fault, World};
use vf_base::{NoMemory, Steps};
use window_beside::slots_are_known;
use window_grade::{RunBeside, machines_stand};
use window_strobes::WindowStrobes;

/// Grades a fault through the slots of the first window of the good first run before the one of a number, of which there is one. The strobes are those of these slots; `tried` are the
/// steps that its faulty machine took itself in the first one, where it went in lockstep there; `log` is room for the log of a slot. `steps` ticks at most once for each own step of
/// the slots that the faulty machine runs, and not for those.
///
/// # Errors
///
/// Want of memory.
pub fn begin_fault<N: World, L: Ledger>(
    alloc: Global,
    setup: &Setup<'_, N>,
    window: &TraceWindow<N>,
    end: u32,
    strobes: &WindowStrobes,
    fault: Fault,
    tried: &[TriedStep],
    log: &mut SlotLog,
    own: &mut ShardFault,
    steps: &mut Steps<L>,
) -> Result<(), NoMemory>
    requires some { 0 < end }
    requires end { window.now.before + end ≤ window.now.through }
    requires fault { CanBegin N.design N.plan window.now.before (window.now.before + end) strobes.now (fault_of fault) own.old }
    requires tried { MayTry N.design (plan_by (kept_by own.old) N.plan) window.now.before (fault_of fault) tried.now }
    ensures fault { OnOk result (IsShardFault N.design N.plan (window.now.before + end) (passed_behind strobes.now) own.new) }
    ensures place { OnOk result (SameFault own.old own.new) }
    ensures ticks { OnOk result (RiseAtMostOwn N.design (plan_by (kept_by own.old) N.plan) window.now.before (window.now.before + end) (fault_of fault ∷ []) steps.old
        (steps.new + length tried.now)) }
{
    strobed_gradings_go_on();
    machines_stand();
    slots_are_known();
    let design = setup.design();
    let plan = setup.plan();
    let mut machine = Machine::new(alloc, design, setup.graph(), Some(fault))?;
    own.strobed.forget();
    let beside = RunBeside {
        slots: window.slots_told(),
        time: window.slot_time(0),
        tried,
    };
    settle(
        alloc,
        setup,
        window,
        end,
        strobes,
        &mut machine,
        log,
        own,
        &beside,
        steps,
    )?;
    Ok(())
}
