// A faulty machine from strobe to strobe through a window.

ghost use Rattle.std.specs.Prelude.{◌≡◌, IfOk, OnOk, Some, map};
ghost use Rattle.vf_base.specs.Base.{watched_bit};
ghost use Rattle.kept_samples.specs.Plain.{sample_of};
ghost use Rattle.fault_strobes.specs.Said.{keeps, plan_by};
ghost use Rattle.fault_strobes.specs.Shown.{said_of};
ghost use Rattle.window_grade.specs.Beside.{TicksTo};
ghost use Rattle.window_grade.specs.Running.{StaysOn};
ghost use Rattle.window_grade.specs.Grading.{CanPass, Passes, CanGrade, GradesThrough};

use crate::beside::RunBeside;
use crate::rises::own_steps_rise;
use crate::run::run_to;
use causal_monitor::SlotLog;
use fault_strobes::{Strobed, strobed_gradings_end, strobed_gradings_go_on};
use kept_samples::Sample;
use machine::Machine;
use std::alloc::Global;
use std::sync::ledger::Ledger;
use vf_base::{End, NoMemory, Steps, WatchBit};

/// Runs the faulty machine to a strobe and compares. The answer is the grading's end, where it comes here.
fn pass_strobe<L: Ledger>(
    alloc: Global,
    log: &mut SlotLog,
    machine: &mut Machine<'_>,
    watched: &[WatchBit],
    strobed: &mut Strobed,
    sample: &Sample,
    beside: &RunBeside<'_>,
    steps: &mut Steps<L>,
) -> Result<Option<End>, NoMemory>
    requires { CanPass (map watched_bit watched.now) (sample_of sample.now) beside.now machine.old (said_of strobed.old) }
    ensures grading { IfOk result (λ end. (of : CanPass (map watched_bit watched.now) (sample_of sample.now) beside.now machine.old (said_of strobed.old)) →
        Passes (map watched_bit watched.now) (sample_of sample.now) beside.now machine.old (said_of strobed.old) of end machine.new (said_of strobed.new)) }
    ensures stays { IfOk result (λ _. StaysOn machine.old machine.new) }
    ensures kind { OnOk result (keeps (said_of strobed.new) ≡ keeps (said_of strobed.old)) }
    ensures ticks { OnOk result ((of : CanPass (map watched_bit watched.now) (sample_of sample.now) beside.now machine.old (said_of strobed.old)) →
        TicksTo of.design (plan_by (keeps (said_of strobed.old)) of.plan) of.fault beside.now of.now (Some sample.now.time) steps.old steps.new) }
{
    strobed_gradings_go_on();
    strobed_gradings_end();
    beside_laws::runs_go_on();
    beside_laws::runs_stand();
    if let Some(end) = run_to(alloc, log, machine, sample.time, beside, steps)? {
        return Ok(Some(end));
    }
    let bits = sample.bits.as_slice();
    let ends = strobed.strobe(alloc, watched, sample.time, bits, machine)?;
    if ends {
        return Ok(Some(End::Detected(sample.time)));
    }
    Ok(None)
}

/// Runs a faulty machine through a window to a time, in steps: from strobe to strobe, where it is compared with the good machine's samples, and to that time. The answer
/// is the grading's end, where it comes by then; the machine stands either way, so that it may be cleared for another fault. `log` is room for the log of a slot. `steps`
/// ticks at most once for each own step of the slots that are run, beside the good machine's slots, and not for those that were taken before.
///
/// # Errors
///
/// Want of memory.
pub fn grade_through<L: Ledger>(
    alloc: Global,
    log: &mut SlotLog,
    machine: &mut Machine<'_>,
    watched: &[WatchBit],
    strobed: &mut Strobed,
    samples: &[Sample],
    until: u64,
    beside: &RunBeside<'_>,
    steps: &mut Steps<L>,
) -> Result<Option<End>, NoMemory>
    requires { CanGrade (map watched_bit watched.now) samples.now until beside.now machine.old (said_of strobed.old) }
    ensures grading { IfOk result (λ end. (of : CanGrade (map watched_bit watched.now) samples.now until beside.now machine.old (said_of strobed.old)) →
        GradesThrough of.design of.plan of.fault of.later until end machine.new (said_of strobed.new)) }
    ensures stays { IfOk result (λ _. StaysOn machine.old machine.new) }
    ensures kind { OnOk result (keeps (said_of strobed.new) ≡ keeps (said_of strobed.old)) }
    ensures ticks { OnOk result ((of : CanGrade (map watched_bit watched.now) samples.now until beside.now machine.old (said_of strobed.old)) →
        TicksTo of.design (plan_by (keeps (said_of strobed.old)) of.plan) of.fault beside.now of.now (Some until) steps.old steps.new) }
{
    strobed_gradings_go_on();
    strobed_gradings_end();
    beside_laws::runs_go_on();
    own_steps_rise();
    'strobes: for sample in samples {
        if let Some(end) = pass_strobe(
            alloc, log, machine, watched, strobed, sample, beside, steps,
        )? {
            return Ok(Some(end));
        }
    }
    let end = run_to(alloc, log, machine, until, beside, steps)?;
    Ok(end)
}
