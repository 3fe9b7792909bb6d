// Grading a plan, of which contracts speak without a board.

ghost use Rattle.std.specs.Prelude.{◌≡◌, ◌+◌, ◌<◌, ◌≤◌, ℕ, length, slice_index, sum, IfOk};
ghost use Rattle.v_design.specs.Designs.{FlatDesign, TestPlan};
ghost use Rattle.v_design.specs.PlainDesigns.{design_of, plan_of};
ghost use Rattle.v_design.specs.OwnSteps.{good_steps};
ghost use Rattle.v_design.specs.WellFormed.{IsPlanOf};
ghost use Rattle.shard_workers.specs.Closings.{GradedTicks, IsAllGraded};
ghost use Rattle.shard_workers.specs.Results.{IsGraded, PlanTicks, StandsInEveryOrder};

use crate::grade::{Graded, grade_all};
use std::alloc::Global;
use std::marker::Brand;
use std::sync::ledger::Ledger;
use std::thread::Threads;
use v_design::{Design, Plan, World};
use vf_base::{Finding, Gate, NoMemory, Steps};

/// What grading a plan answers: a finding for each listed fault, in list order, or the time, in steps, at which the good machine's first run is
/// hyperactive before a race of its own.
#[derive(Drop)]
pub enum PlanGrades {
    Findings(Vec<Finding>),
    GoodLoop(u64),
}

/// What was answered, without the board.
fn without_board<N: World>(graded: Graded<N>) -> PlanGrades
    ensures grades { (design : FlatDesign) (plan : TestPlan) → IsAllGraded design plan graded → IsGraded design plan result }
    ensures ticks { (design : FlatDesign) (plan : TestPlan) (before after : ℕ) → GradedTicks design plan before after graded → PlanTicks design plan before after result }
{
    match graded {
        Graded::GoodLoop(time) => PlanGrades::GoodLoop(time),
        Graded::Findings(work) => PlanGrades::Findings(work.findings),
    }
}

/// The same of a world, by so many workers.
fn grade_world<N: World, R: Threads + Sync, G: Gate + Sync, L: Ledger + Send + Sync>(
    rt: &R,
    alloc: Global,
    design: &Design,
    plan: &Plan,
    workers: u32,
    gate: &G,
    steps: &mut [Steps<L>],
) -> Result<PlanGrades, NoMemory>
    requires world { (N.design ≡ design_of design.now) × (N.plan ≡ plan_of plan.now) }
    requires plan { IsPlanOf (design_of design.now) (plan_of plan.now) }
    requires workers { (1 ≤ workers) × (workers ≤ 64) }
    requires counters { workers < length steps.old }
    ensures grades { IfOk result (IsGraded (design_of design.now) (plan_of plan.now)) }
    ensures ticks { IfOk result (PlanTicks (design_of design.now) (plan_of plan.now) (sum steps.old) (sum steps.new)) }
    ensures good { IfOk result (λ _. slice_index steps.new 0 ≤ slice_index steps.old 0 + good_steps (design_of design.now) (plan_of plan.now)) }
{
    let graded = grade_all::<N, _, _, _>(rt, alloc, design, plan, workers, gate, steps)?;
    let grades = without_board(graded);
    Ok(grades)
}

/// The findings on all listed faults of a plan, or the time at which the good machine loops, by so many workers.
///
/// The first counter is the calling thread's, and each worker has one of those behind it. Where all faults are graded, all counters together rise by no more than the
/// process steps of the good first run and twice the own steps of each fault that stands for its class. The first counter rises by no more than the process steps of the good
/// first run also where the good machine loops.
///
/// # Errors
///
/// Want of memory.
pub fn grade_plan<R: Threads + Sync, G: Gate + Sync, L: Ledger + Send + Sync>(
    rt: &R,
    alloc: Global,
    design: &Design,
    plan: &Plan,
    workers: u32,
    gate: &G,
    steps: &mut [Steps<L>],
) -> Result<PlanGrades, NoMemory>
    requires plan { IsPlanOf (design_of design.now) (plan_of plan.now) }
    requires workers { (1 ≤ workers) × (workers ≤ 64) }
    requires counters { workers < length steps.old }
    // Exactly the grades, or exactly the good machine's loop.
    ensures grades { IfOk result (IsGraded (design_of design.now) (plan_of plan.now)) }
    ensures every_order { IfOk result (StandsInEveryOrder (design_of design.now) (plan_of plan.now)) }
    ensures ticks { IfOk result (PlanTicks (design_of design.now) (plan_of plan.now) (sum steps.old) (sum steps.new)) }
    ensures good { IfOk result (λ _. slice_index steps.new 0 ≤ slice_index steps.old 0 + good_steps (design_of design.now) (plan_of plan.now)) }
{
    order_laws::reports();
    order_laws::orders_exist();
    order_laws::nothing_before();
    let grades = grade_world::<Brand, _, _, _>(rt, alloc, design, plan, workers, gate, steps)?;
    Ok(grades)
}
