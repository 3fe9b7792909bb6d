// The grading of a fault through a window.

ghost use Rattle.std.specs.Prelude.{◌≡◌, IfOk, OnOk, map};
ghost use Rattle.vf_base.specs.Base.{watched_bit};
ghost use Rattle.v_design.specs.Grades.{Judged};
ghost use Rattle.v_design.specs.Plain.{grade_of};
ghost use Rattle.strobe_detect.specs.Verdicts.{verdict_view};
ghost use Rattle.good_trace.specs.Slots.{end_of};
ghost use Rattle.fault_strobes.specs.Said.{keeps, plan_by};
ghost use Rattle.fault_strobes.specs.Shown.{said_of};
ghost use Rattle.window_grade.specs.Beside.{TicksTo};
ghost use Rattle.window_grade.specs.Running.{StaysOn};
ghost use Rattle.window_beside.specs.Known.{led_to};
ghost use Rattle.window_strobes.specs.Strobes.{strobes_left};
ghost use Rattle.copy_laws.specs.Windows.{time_at};
ghost use Rattle.copy_window.specs.Passing.{CanGradeWindow, ComesToTime, EndsBehind, PassesWindow};

use causal_monitor::SlotLog;
use copy_room::Machine;
use fault_strobes::{Strobed, strobed_faults_go_on, strobed_gradings_end};
use good_trace::GoodEnd;
use std::alloc::Global;
use std::sync::ledger::Ledger;
use strobe_detect::Grade;
use vf_base::{End, NoMemory, Side, Steps, WatchBit};
use window_beside::slots_are_known;
use window_grade::{RunBeside, grade_through, own_steps_rise};
use window_strobes::WindowStrobes;

/// How the strobes' verdict ends a grading.
fn end_by_strobes(verdict: Grade) -> End
    ensures { grade_of result ≡ Judged (verdict_view verdict) }
{
    match verdict {
        Grade::Detected(time) => End::Detected(time),
        Grade::Possible(time) => End::Possible(time),
        Grade::Undetected => End::Undetected,
    }
}

/// How a grading ends behind a window, if it does, that hasn't ended before.
pub fn end_behind(ending: GoodEnd, strobed: &Strobed) -> Option<End>
    ensures { EndsBehind (end_of ending) (said_of strobed.now) result }
{
    match ending {
        GoodEnd::Open => None,
        GoodEnd::Through => Some(end_by_strobes(strobed.verdict())),
        GoodEnd::Raced(pair) => Some(End::Race(Side::Good, pair)),
    }
}

/// Runs a faulty machine to the time to which a window leads, if there is one. The answer is the grading's end, where it comes by then.
fn grade_to<L: Ledger>(
    alloc: Global,
    log: &mut SlotLog,
    machine: &mut Machine<'_>,
    watched: &[WatchBit],
    strobed: &mut Strobed,
    strobes: &WindowStrobes,
    beside: &RunBeside<'_>,
    steps: &mut Steps<L>,
) -> Result<Option<End>, NoMemory>
    requires { CanGradeWindow (map watched_bit watched.now) strobes.now beside.now machine.old (said_of strobed.old) }
    ensures comes { IfOk result (λ end. (of : CanGradeWindow (map watched_bit watched.now) strobes.now beside.now machine.old (said_of strobed.old)) →
        ComesToTime of.design of.plan of.fault of.before (strobes_left of.plan strobes.now) strobes.now.until end machine.new (said_of strobed.new)) }
    ensures stays { IfOk result (λ _. StaysOn machine.old machine.new) }
    ensures kind { OnOk result (keeps (said_of strobed.new) ≡ keeps (said_of strobed.old)) }
    ensures ticks { OnOk result ((of : CanGradeWindow (map watched_bit watched.now) strobes.now beside.now machine.old (said_of strobed.old)) →
        TicksTo of.design (plan_by (keeps (said_of strobed.old)) of.plan) of.fault beside.now (time_at of.design of.plan of.before)
        (led_to (time_at of.design of.plan of.before) strobes.now.until) steps.old steps.new) }
{
    own_steps_rise();
    match strobes.until {
        None => Ok(None),
        Some(until) => {
            let samples = strobes.samples.as_slice();
            let end = grade_through(
                alloc, log, machine, watched, strobed, samples, until, beside, steps,
            )?;
            Ok(end)
        }
    }
}

/// Runs a faulty machine through a window. The answer is the grading's end, if it comes in the window.
pub(crate) fn grade_window<L: Ledger>(
    alloc: Global,
    log: &mut SlotLog,
    machine: &mut Machine<'_>,
    watched: &[WatchBit],
    strobed: &mut Strobed,
    strobes: &WindowStrobes,
    beside: &RunBeside<'_>,
    steps: &mut Steps<L>,
) -> Result<Option<End>, NoMemory>
    requires { CanGradeWindow (map watched_bit watched.now) strobes.now beside.now machine.old (said_of strobed.old) }
    ensures passes { IfOk result (λ end. (of : CanGradeWindow (map watched_bit watched.now) strobes.now beside.now machine.old (said_of strobed.old)) →
        PassesWindow of.design of.plan of.fault of.through (strobes_left of.plan strobes.now) end machine.new (said_of strobed.new)) }
    ensures stays { IfOk result (λ _. StaysOn machine.old machine.new) }
    ensures kind { OnOk result (keeps (said_of strobed.new) ≡ keeps (said_of strobed.old)) }
    ensures ticks { OnOk result ((of : CanGradeWindow (map watched_bit watched.now) strobes.now beside.now machine.old (said_of strobed.old)) →
        TicksTo of.design (plan_by (keeps (said_of strobed.old)) of.plan) of.fault beside.now (time_at of.design of.plan of.before) (time_at of.design of.plan of.through) steps.old steps.new) }
{
    beside_laws::runs_stand();
    own_steps_rise();
    slots_are_known();
    strobed_gradings_end();
    strobed_faults_go_on();
    let end = grade_to(
        alloc, log, machine, watched, strobed, strobes, beside, steps,
    )?;
    if end.is_some() {
        return Ok(end);
    }
    Ok(end_behind(strobes.ending, strobed))
}
