// The grade of one fault.

ghost use Rattle.std.specs.Prelude.{◌≡◌, ◌≤◌, ◌^◌, ℕ, suc, List, [], length, Some, None, IfOk};
ghost use Rattle.v_design.specs.Designs.{FlatDesign, TestPlan, StuckAt};
ghost use Rattle.v_design.specs.Grades.{Judged, grade};
ghost use Rattle.vf_base.specs.Lists.{AllHold};
ghost use Rattle.v_design.specs.Plain.{fault_of, grade_of};
ghost use Rattle.strobe_detect.specs.Verdicts.{verdict_view};
ghost use Rattle.grade_laws.specs.Grading.{IsGoodRun, StopsWithin, good_stop};
ghost use Rattle.machine.specs.Standing.{machine_kept};
ghost use Rattle.machine.specs.Ticks.{raised_by};
ghost use Rattle.fault_grade.specs.Benches.{IsBench, IsObjectOf, bench_design, bench_plan};
ghost use Rattle.fault_grade.specs.Reached.{IsReached};
ghost use Rattle.kept_samples.specs.Plain.{sample_of};
ghost use Rattle.fault_grade.specs.Samples.{samples_kept};
ghost use Rattle.fault_grade.specs.Stops.{race_if};
ghost use Rattle.fault_grade.specs.Gradings.{IsGradable, IsGradingAt, Passes, AdvancesTo, last_before};
ghost use Rattle.fault_grade.specs.Ticks.{IsTicked, TicksPast, TickedTo, steps_before, graded_before, grading_steps, last_bound};

use crate::bench::Bench;
use crate::good::GoodSamples;
use crate::run::{advance, empty_log};
use crate::stop::{Stop, end_by_faulty};
use causal_monitor::SlotLog;
use kept_samples::Sample;
use machine::Machine;
use std::alloc::Global;
use std::sync::ledger::Ledger;
use strobe_detect::{Grade, Grader};
use v_design::Fault;
use vf_base::{End, NoMemory, Pair, Side, Steps};

/// How the strobes' verdict ends a grading.
fn end_by_strobes(verdict: Grade) -> End
    ensures { grade_of result ≡ Judged (verdict_view verdict) }
{
    match verdict {
        Grade::Detected(time) => End::Detected(time),
        Grade::Possible(time) => End::Possible(time),
        Grade::Undetected => End::Undetected,
    }
}

/// Runs the faulty machine to a strobe and compares. The answer is the grading's end, where it comes here.
fn pass_strobe<L: Ledger>(
    log: &mut SlotLog,
    machine: &mut Machine<'_>,
    grader: &mut Grader<'_>,
    sample: &Sample,
    steps: &mut Steps<L>,
) -> Result<Option<End>, NoMemory>
    requires reached { IsReached sample.now.time machine.old }
    requires limit { sample.now.time ≤ 2 ^ 63 }
    requires kept { length sample.now.bits ≡ length grader.old.watched }
    requires watched { AllHold (IsObjectOf (machine_kept machine.old).design) grader.old.watched }
    ensures passes { IfOk result (λ end. Passes (sample_of sample.now) machine.old grader.old end machine.new grader.new) }
    ensures ticks { IfOk result (λ end. (start : ℕ) → IsTicked start (suc sample.now.time) machine.old steps.old → TicksPast start sample.now.time machine.old end machine.new steps.new) }
{
    if let Some(stop) = advance(log, machine, sample.time, steps)? {
        return Ok(Some(end_by_faulty(stop)));
    }
    let hard = grader.strobe_kept(sample.time, sample.bits.as_slice(), machine);
    if hard {
        return Ok(Some(End::Detected(sample.time)));
    }
    Ok(None)
}

/// The time, in steps, to which a faulty machine runs after the last strobe: to the plan's end, or to the last time before the good machine's race, if there is one.
pub fn last_time(race: Option<Pair>, end: u64) -> Option<u64>
    ensures { result ≡ last_before race end }
{
    match race {
        None => Some(end),
        Some(pair) => pair.time.checked_sub(1),
    }
}

/// Runs all slots of a machine up to a time, in steps, if there is one, or through the first that isn't fine. The answer is that slot.
///
/// # Errors
///
/// Want of memory.
pub fn advance_to<L: Ledger>(
    log: &mut SlotLog,
    machine: &mut Machine<'_>,
    until: Option<u64>,
    steps: &mut Steps<L>,
) -> Result<Option<Stop>, NoMemory>
    requires reached { (time : ℕ) → until ≡ Some time → IsReached time machine.old }
    requires limit { (time : ℕ) → until ≡ Some time → time ≤ 2 ^ 63 }
    ensures advanced { IfOk result (λ stop. AdvancesTo until machine.old stop machine.new) }
    ensures ticks { IfOk result (λ stop. (start : ℕ) → TickedTo start until machine.old steps.old stop machine.new steps.new) }
{
    match until {
        None => Ok(None),
        Some(time) => {
            let stop = advance(log, machine, time, steps)?;
            Ok(stop)
        }
    }
}

/// Ends a grading after the last strobe that comes before a race of the good machine.
fn finish<L: Ledger>(
    log: &mut SlotLog,
    machine: &mut Machine<'_>,
    grader: &Grader<'_>,
    race: Option<Pair>,
    end: u64,
    steps: &mut Steps<L>,
) -> Result<End, NoMemory>
    requires reached { (time : ℕ) → last_before race end ≡ Some time → IsReached time machine.old }
    requires limit { (time : ℕ) → last_before race end ≡ Some time → time ≤ 2 ^ 63 }
    ensures grade { IfOk result (λ ended. (design : FlatDesign) (plan : TestPlan) (fault : StuckAt) → plan.end ≡ end →
        IsGradingAt design plan fault machine.old [] grader.now → good_stop design plan ≡ race_if race → StopsWithin plan.end (race_if race) →
        grade design plan fault ≡ Some (grade_of ended)) }
    ensures ticks { IfOk result (λ ended. (start since : ℕ) → since ≤ last_bound race end → StopsWithin end (race_if race) → grader.now.hard ≡ None → IsTicked start since machine.old steps.old →
        steps.new ≡ raised_by (steps_before (machine_kept machine.old) (graded_before end (grade_of ended))) start) }
{
    if let Some(stop) = advance_to(log, machine, last_time(race, end), steps)? {
        return Ok(end_by_faulty(stop));
    }
    match race {
        Some(pair) => Ok(End::Race(Side::Good, pair)),
        None => Ok(end_by_strobes(grader.verdict())),
    }
}

/// Ends a grading: its machine is run beside the samples that are next, from strobe to strobe, and to the plan's end.
fn grade_on<L: Ledger>(
    log: &mut SlotLog,
    machine: &mut Machine<'_>,
    grader: &mut Grader<'_>,
    good: &GoodSamples,
    end: u64,
    steps: &mut Steps<L>,
) -> Result<End, NoMemory>
    requires { IsGradable good.now end machine.old grader.old }
    ensures grade { IfOk result (λ ended. (of : IsGradable good.now end machine.old grader.old) → grade of.design of.plan of.fault ≡ Some (grade_of ended)) }
    ensures ticks { IfOk result (λ ended. (of : IsGradable good.now end machine.old grader.old) (start : ℕ) → IsTicked start 0 machine.old steps.old →
        steps.new ≡ raised_by (grading_steps of.design of.plan of.fault (grade_of ended)) start) }
{
    'strobes: for sample in &good.samples {
        if let Some(end) = pass_strobe(log, machine, grader, sample, steps)? {
            return Ok(end);
        }
    }
    let ended = finish(log, machine, grader, good.race, end, steps)?;
    Ok(ended)
}

/// The grade of a fault: its faulty machine is run beside what the good machine showed, from strobe to strobe. `steps` ticks once for each process step of the faulty
/// machine's slots to where its grading ends.
///
/// # Errors
///
/// Want of memory.
pub fn grade_fault<L: Ledger>(
    alloc: Global,
    bench: &Bench<'_>,
    good: &GoodSamples,
    fault: Fault,
    steps: &mut Steps<L>,
) -> Result<End, NoMemory>
    requires bench { IsBench bench.now }
    requires good { IsGoodRun (bench_design bench.now) (bench_plan bench.now) (samples_kept good.now) (race_if good.now.race) }
    ensures grade { IfOk result (λ end. grade (bench_design bench.now) (bench_plan bench.now) (fault_of fault) ≡ Some (grade_of end)) }
    ensures ticks { IfOk result (λ end. steps.new ≡ raised_by (grading_steps (bench_design bench.now) (bench_plan bench.now) (fault_of fault) (grade_of end)) steps.old) }
{
    order_laws::first_run_goes_on();
    let mut machine = Machine::new(alloc, bench.design, bench.graph, Some(fault))?;
    let mut log = empty_log(alloc);
    let mut grader = Grader::new(bench.plan.watched.as_slice());
    let end = grade_on(
        &mut log,
        &mut machine,
        &mut grader,
        good,
        bench.plan.end,
        steps,
    )?;
    Ok(end)
}
