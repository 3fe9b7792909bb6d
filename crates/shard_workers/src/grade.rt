// Grading by workers over one board.

ghost use Rattle.std.specs.Prelude.{◌≡◌, ◌+◌, ◌<◌, ◌≤◌, ◌^◌, ℕ, length, slice_index, sum, sum_by, IfOk};
ghost use Rattle.v_design.specs.PlainDesigns.{design_of, plan_of};
ghost use Rattle.v_design.specs.OwnSteps.{good_steps};
ghost use Rattle.v_design.specs.WellFormed.{IsPlanOf, KeepsRules};
ghost use Rattle.shard_rounds.specs.fault_grade.Results.{LoopsAt};
ghost use Rattle.fault_shards.specs.Shards.{representatives_of};
ghost use Rattle.shard_rounds.specs.shard_claims.Workers.{IsPlaceOf};
ghost use Rattle.shard_rounds.specs.copy_shard.Shards.{fault_steps_at};
ghost use Rattle.shard_rounds.specs.shard_findings.Gatherings.{claimed_most, HasGathered};
ghost use Rattle.shard_workers.specs.Closings.{IsWork, IsAllGraded, GradedTicks};
ghost use Rattle.own_gradings.specs.Numbers.{OwnStepsOf};
ghost use Rattle.shard_workers.specs.Ordered.{work_steps};

use crate::order::in_claim_order;
use fault_shards::{Shards, cut_faults};
use good_trace::Setup;
use net_graph::Graph;
use shard_rounds::{Gathered, Outcome, Place, Shard, grade_rounds};
use std::alloc::Global;
use std::sync::ledger::Ledger;
use std::thread::Threads;
use v_design::{Design, Plan, World};
use verdict_words::{Board, Closed};
use vf_base::{Finding, Gate, NoMemory, Steps};

/// The findings on all listed faults, in list order, the closed board on which the workers met, and the shards that they took through all windows, one for each claim, in
/// claim order.
#[derive(Drop)]
pub struct Work<N: World> {
    pub findings: Vec<Finding>,
    pub closed: Closed<N>,
    pub shards: Vec<Shard<N>>,
}

/// What grading answers: the work, or the time, in steps, at which the good machine's first run is hyperactive before a race of its own.
#[derive(Drop)]
pub enum Graded<N: World> {
    Findings(Work<N>),
    GoodLoop(u64),
}

/// The findings on all listed faults, in list order, by those on the faults of all shards, the board closed by the seat that is left, and the shards in claim order.
fn close_work<N: World>(
    alloc: Global,
    shards: &Shards,
    board: Board<N>,
    gathered: Gathered<N>,
) -> Result<Work<N>, NoMemory>
    requires rules { KeepsRules N.design }
    requires place { IsPlaceOf N.design N.plan shards.now board }
    requires gathered { HasGathered N.design N.plan (representatives_of shards.now) board (2 ^ 62) gathered }
    requires goes_on { (time : ℕ) → LoopsAt N.design N.plan time → ⊥ }
    ensures work { IfOk result (IsWork N.design N.plan) }
    ensures steps { IfOk result (λ work. (tally : OwnStepsOf N.design N.plan) → claimed_most tally gathered.shards.items ≡ work_steps tally work.shards.items) }
    ensures all { IfOk result (λ work. (tally : OwnStepsOf N.design N.plan) → work_steps tally work.shards.items ≡ sum_by (fault_steps_at tally) (representatives_of shards.now)) }
{
    fault_shards::shards_cover();
    let Gathered {
        seat,
        findings: found,
        shards: claimed,
    } = gathered;
    let findings = shards.in_list_order(alloc, &found)?;
    let closed = board.close(alloc, seat)?;
    let shards = in_claim_order(alloc, claimed)?;
    Ok(Work {
        findings,
        closed,
        shards,
    })
}

/// Grades all listed faults by as many workers as there are counters; `own` has the calling thread's counter alone.
fn work_all<N: World, R: Threads + Sync, G: Gate + Sync, L: Ledger + Send + Sync>(
    rt: &R,
    alloc: Global,
    setup: &Setup<'_, N>,
    gate: &G,
    own: &mut [Steps<L>],
    steps: &mut [Steps<L>],
) -> Result<Graded<N>, NoMemory>
    requires counters { (1 ≤ length steps.old) × (length steps.old ≤ 64) }
    requires one { length own.old ≡ 1 }
    ensures graded { IfOk result (IsAllGraded N.design N.plan) }
    ensures ticks { IfOk result (GradedTicks N.design N.plan (sum own.old + sum steps.old) (sum own.new + sum steps.new)) }
    ensures good { IfOk result (λ _. sum own.new ≤ sum own.old + good_steps N.design N.plan) }
{
    own_gradings::own_steps_rise();
    let design = setup.design();
    let plan = setup.plan();
    let faults = plan.faults.as_slice();
    let shards = cut_faults(alloc, design, faults)?;
    let (board, seat) = Board::<N>::new(alloc, faults.len() as u32, shards.count())?;
    let place = Place {
        setup,
        shards: &shards,
        board: &board,
        gate,
    };
    let outcome = grade_rounds(rt, alloc, &place, seat, own, steps)?;
    match outcome {
        Outcome::GoodLoop(time) => Ok(Graded::GoodLoop(time)),
        Outcome::Graded(gathered) => {
            let work = close_work(alloc, &shards, board, gathered)?;
            Ok(Graded::Findings(work))
        }
    }
}

/// Grades all listed faults of the world's plan by so many workers, each a thread with a counter of its own; the first counter is the calling thread's.
///
/// Which worker grades which fault, and in what order, depends on the schedule; what is answered doesn't. Where no thread can be started the calling
/// thread does the work. Where all faults are graded, all counters together rise by no more than the process steps of the good first run and twice the own steps of
/// each fault that stands for its class, since a worker that is through with its own shards may run copies of others. Where the good machine loops, the first counter alone is
/// spoken of: then too it rises by no more than the process steps of the good first run. Where memory is wanting nothing is said of them.
///
/// # Errors
///
/// Want of memory.
pub fn grade_all<N: World, R: Threads + Sync, G: Gate + Sync, L: Ledger + Send + Sync>(
    rt: &R,
    alloc: Global,
    design: &Design,
    plan: &Plan,
    workers: u32,
    gate: &G,
    steps: &mut [Steps<L>],
) -> Result<Graded<N>, NoMemory>
    requires world { (N.design ≡ design_of design.now) × (N.plan ≡ plan_of plan.now) }
    requires plan { IsPlanOf (design_of design.now) (plan_of plan.now) }
    requires workers { (1 ≤ workers) × (workers ≤ 64) }
    requires counters { workers < length steps.old }
    ensures graded { IfOk result (IsAllGraded (design_of design.now) (plan_of plan.now)) }
    ensures ticks { IfOk result (GradedTicks (design_of design.now) (plan_of plan.now) (sum steps.old) (sum steps.new)) }
    ensures good { IfOk result (λ _. slice_index steps.new 0 ≤ slice_index steps.old 0 + good_steps (design_of design.now) (plan_of plan.now)) }
{
    let graph = Graph::new(alloc, design)?;
    let setup = Setup::<N>::new(alloc, design, &graph, plan)?;
    let (own, others) = steps.split_at_mut(1);
    let (counters, _) = others.split_at_mut(workers as usize);
    let graded = work_all(rt, alloc, &setup, gate, own, counters)?;
    Ok(graded)
}
