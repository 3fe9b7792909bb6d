// What the good machine shows.

ghost use Rattle.std.specs.Prelude.{◌≡◌, ℕ, map, IfOk};
ghost use Rattle.v_design.specs.Designs.{FlatDesign, TestPlan};
ghost use Rattle.v_design.specs.OwnSteps.{good_steps};
ghost use Rattle.v_design.specs.PlainDesigns.{plan_of};
ghost use Rattle.grade_laws.specs.Grading.{IsGoodRun};
ghost use Rattle.fault_grade.specs.Benches.{IsBench, bench_design, bench_plan};
ghost use Rattle.kept_samples.specs.Plain.{sample_of};
ghost use Rattle.fault_grade.specs.Samples.{stop_if, IsGood};
ghost use Rattle.fault_grade.specs.Gradings.{IsShowable};
ghost use Rattle.fault_grade.specs.Ticks.{IsTicked};
ghost use Rattle.machine.specs.Ticks.{raised_by};

use crate::bench::Bench;
use crate::run::{advance, empty_log};
use crate::stop::Stop;
use causal_monitor::SlotLog;
use kept_samples::Sample;
use machine::Machine;
use std::alloc::Global;
use std::sync::ledger::Ledger;
use strobe_detect::watched_bits;
use v_design::Plan;
use vf_base::{NoMemory, Pair, Seq, Steps};

/// The watched bits of the good machine at each strobe before its first race, in order, and that race, if there is one up to the plan's end.
#[derive(Drop)]
pub struct GoodSamples {
    pub samples: Vec<Sample>,
    pub race: Option<Pair>,
}

/// What the first run of the good machine shows, or the time, in steps, at which it is hyperactive before a race of its own.
#[derive(Drop)]
pub enum GoodRun {
    Shown(GoodSamples),
    Loop(u64),
}

/// What the good machine shows, by the samples that were kept and its first stop.
fn shown_by(samples: Vec<Sample>, stop: Option<Stop>) -> GoodRun
    ensures { (design : FlatDesign) (plan : TestPlan) → IsGoodRun design plan (map sample_of samples.items) (stop_if stop) → IsGood design plan result }
{
    match stop {
        None => GoodRun::Shown(GoodSamples {
            samples,
            race: None,
        }),
        Some(Stop::Race(pair)) => GoodRun::Shown(GoodSamples {
            samples,
            race: Some(pair),
        }),
        Some(Stop::Loop(time)) => GoodRun::Loop(time),
    }
}

/// Runs a good machine at its start to the plan's end, or to its first race or loop.
fn show_on<L: Ledger>(
    alloc: Global,
    log: &mut SlotLog,
    machine: &mut Machine<'_>,
    plan: &Plan,
    steps: &mut Steps<L>,
) -> Result<GoodRun, NoMemory>
    requires { IsShowable (plan_of plan.now) machine.old }
    ensures good { IfOk result (λ shown. (of : IsShowable (plan_of plan.now) machine.old) → IsGood of.design (plan_of plan.now) shown) }
    ensures ticks { IfOk result (λ _. (of : IsShowable (plan_of plan.now) machine.old) (start : ℕ) → IsTicked start 0 machine.old steps.old →
        steps.new ≡ raised_by (good_steps of.design (plan_of plan.now)) start) }
{
    let mut samples = Vec::new(alloc);
    'strobes: for strobe in plan.strobes.as_slice() {
        if let Some(stop) = advance(log, machine, *strobe, steps)? {
            return Ok(shown_by(samples, Some(stop)));
        }
        let bits = watched_bits(alloc, plan.watched.as_slice(), machine)?;
        samples.push(Sample {
            time: *strobe,
            bits: Seq::from_vec(bits),
        })?;
    }
    let stop = advance(log, machine, plan.end, steps)?;
    Ok(shown_by(samples, stop))
}

/// Runs the good machine to the plan's end, or to its first race or loop. `steps` ticks once for each of its process steps.
///
/// # Errors
///
/// Want of memory.
pub fn run_good<L: Ledger>(
    alloc: Global,
    bench: &Bench<'_>,
    steps: &mut Steps<L>,
) -> Result<GoodRun, NoMemory>
    requires { IsBench bench.now }
    ensures good { IfOk result (IsGood (bench_design bench.now) (bench_plan bench.now)) }
    ensures ticks { IfOk result (λ _. steps.new ≡ raised_by (good_steps (bench_design bench.now) (bench_plan bench.now)) steps.old) }
{
    order_laws::first_run_goes_on();
    let mut machine = Machine::new(alloc, bench.design, bench.graph, None)?;
    let mut log = empty_log(alloc);
    let shown = show_on(alloc, &mut log, &mut machine, bench.plan, steps)?;
    Ok(shown)
}
