// Round after round.

ghost use Rattle.std.specs.Prelude.{◌≡◌, ◌+◌, ◌≤◌, true, length, sum, IfOk};
ghost use Rattle.v_design.specs.OwnSteps.{good_steps};
ghost use Rattle.fault_shards.specs.Shards.{representatives_of};
ghost use Rattle.verdict_words.specs.Seats.{view, IsSeatOf};
ghost use Rattle.verdict_words.specs.Views.{first_view};
ghost use Rattle.shard_crew.specs.shard_claims.Workers.{IsPlaceOf};
ghost use Rattle.shard_crew.specs.graded_steps.Behind.{RisesWithin};
ghost use Rattle.good_windows.specs.Next.{steps_of_slots};
ghost use Rattle.shard_rounds.specs.Rounds.{AllTicks, IsBeforeRound, AreDone, IsFirst};
ghost use Rattle.shard_rounds.specs.Outcomes.{IsOutcome, OutcomeTicks};

use crate::outcome::Outcome;
use crate::step::{Ahead, Later, Rounds, next_round, run_on};
use good_trace::Setup;
use good_windows::{GoodRun, NextWindow};
use run_trace::RunWindow;
use shard_crew::{Place, Worker, finish, hire, rules_hold};
use std::alloc::Global;
use std::sync::ledger::Ledger;
use std::thread::Threads;
use v_design::World;
use verdict_words::Seat;
use vf_base::{Gate, NoMemory, Steps};

/// What comes first of the good machine's run: its first window, or the time, in steps, of a slot that is hyperactive before any window.
#[derive(Drop)]
enum First<N: World> {
    Window(RunWindow<N>),
    Loops(u64),
}

/// How the rounds end: the workers have gone through all slots, or the good machine loops at this time, in steps.
#[derive(Drop)]
enum Through<N: World> {
    All(Vec<Worker<N>>),
    Loops(u64),
}

/// The first window of the good machine's run. There is one, since each run has a slot at time 0.
fn first_window<N: World, L: Ledger>(
    setup: &Setup<'_, N>,
    ahead: &mut Ahead<'_, '_, N>,
    own: &mut [Steps<L>],
) -> Result<First<N>, NoMemory>
    requires one { length own.old ≡ 1 }
    requires none { (ahead.old.run.gone ≡ 0) × (ahead.old.run.ran ≡ 0) }
    requires usable { ahead.old.run.usable ≡ true }
    ensures first { IfOk result (IsFirst N.design N.plan ahead.new.run) }
    ensures ticks { IfOk result (λ _. sum own.new ≤ sum own.old + steps_of_slots N.design N.plan ahead.new.run.ran) }
{
    beside_laws::good_run_goes_on();
    rules_hold(setup);
    let next = run_on(ahead, own)?;
    match next {
        NextWindow::Window(window) => Ok(First::Window(window)),
        NextWindow::Loops(time) => Ok(First::Loops(time)),
        NextWindow::Over => unreachable!(),
    }
}

/// All rounds from one on. The workers have gone through all slots then; or the time is told at which the good machine loops.
fn go_rounds<N: World, R: Threads + Sync, G: Gate + Sync, L: Ledger + Send + Sync>(
    rt: &R,
    alloc: Global,
    place: &Place<'_, '_, N, G>,
    ahead: &mut Ahead<'_, '_, N>,
    rounds: Rounds<N>,
    own: &mut [Steps<L>],
    steps: &mut [Steps<L>],
) -> Result<Through<N>, NoMemory>
    requires place { IsPlaceOf N.design N.plan place.now.shards.now place.now.board.now }
    requires before { IsBeforeRound N.design N.plan (representatives_of place.now.shards.now) place.now.board.now (length steps.old) ahead.old.run rounds }
    requires counters { (1 ≤ length steps.old) × (length steps.old ≤ 64) }
    requires one { length own.old ≡ 1 }
    ensures done { IfOk result (AreDone N.design N.plan (representatives_of place.now.shards.now) place.now.board.now (length steps.old)) }
    ensures ticks { IfOk result (AllTicks N.design N.plan (representatives_of place.now.shards.now) rounds.window.before rounds.workers.items (sum steps.old) (sum steps.new)) }
    ensures good { IfOk result (λ _. RisesWithin (steps_of_slots N.design N.plan ahead.old.run.ran) (good_steps N.design N.plan) (sum own.old) (sum own.new)) }
{
    let mut rounds = rounds;
    'rounds: loop {
        match next_round(rt, alloc, place, ahead, rounds, own, steps)? {
            Later::Round(next) => rounds = next,
            Later::Done(workers) => return Ok(Through::All(workers)),
            Later::Loops(time) => return Ok(Through::Loops(time)),
        }
    }
}

/// The same with the good machine's run, which stands before its first slot.
fn grade_run<N: World, R: Threads + Sync, G: Gate + Sync, L: Ledger + Send + Sync>(
    rt: &R,
    alloc: Global,
    place: &Place<'_, '_, N, G>,
    ahead: &mut Ahead<'_, '_, N>,
    seat: Seat<N>,
    own: &mut [Steps<L>],
    steps: &mut [Steps<L>],
) -> Result<Outcome<N>, NoMemory>
    requires place { IsPlaceOf N.design N.plan place.now.shards.now place.now.board.now }
    requires none { (ahead.old.run.gone ≡ 0) × (ahead.old.run.ran ≡ 0) }
    requires usable { ahead.old.run.usable ≡ true }
    requires own { IsSeatOf place.now.board.now seat }
    requires first { view seat ≡ first_view }
    requires counters { (1 ≤ length steps.old) × (length steps.old ≤ 64) }
    requires one { length own.old ≡ 1 }
    ensures outcome { IfOk result (IsOutcome N.design N.plan (representatives_of place.now.shards.now) place.now.board.now) }
    ensures ticks { IfOk result (OutcomeTicks N.design N.plan (representatives_of place.now.shards.now) (sum own.old + sum steps.old) (sum own.new + sum steps.new)) }
    ensures good { IfOk result (λ _. sum own.new ≤ sum own.old + good_steps N.design N.plan) }
{
    own_gradings::own_steps_rise();
    let count = steps.len() as u32;
    let window = match first_window(place.setup, ahead, own)? {
        First::Window(window) => window,
        First::Loops(time) => return Ok(Outcome::GoodLoop(time)),
    };
    let (seat, workers) = hire(alloc, place.board, seat, count)?;
    let rounds = Rounds { workers, window };
    let ended = go_rounds(rt, alloc, place, ahead, rounds, own, steps)?;
    match ended {
        Through::All(workers) => {
            let gathered = finish(alloc, place, seat, count, workers)?;
            Ok(Outcome::Graded(gathered))
        }
        Through::Loops(time) => Ok(Outcome::GoodLoop(time)),
    }
}

/// Grades the faults of all shards by as many workers as there are counters, in rounds; `own` has the calling thread's counter alone.
///
/// Which worker grades which shard depends on the schedule; what is answered doesn't. Where no thread can be started the calling thread does the work. Whatever comes out, the
/// calling thread's counter rises by no more than the process steps of the good first run.
///
/// # Errors
///
/// Want of memory.
pub fn grade_rounds<N: World, R: Threads + Sync, G: Gate + Sync, L: Ledger + Send + Sync>(
    rt: &R,
    alloc: Global,
    place: &Place<'_, '_, N, G>,
    seat: Seat<N>,
    own: &mut [Steps<L>],
    steps: &mut [Steps<L>],
) -> Result<Outcome<N>, NoMemory>
    requires place { IsPlaceOf N.design N.plan place.now.shards.now place.now.board.now }
    requires own { IsSeatOf place.now.board.now seat }
    requires first { view seat ≡ first_view }
    requires counters { (1 ≤ length steps.old) × (length steps.old ≤ 64) }
    requires one { length own.old ≡ 1 }
    ensures outcome { IfOk result (IsOutcome N.design N.plan (representatives_of place.now.shards.now) place.now.board.now) }
    ensures ticks { IfOk result (OutcomeTicks N.design N.plan (representatives_of place.now.shards.now) (sum own.old + sum steps.old) (sum own.new + sum steps.new)) }
    ensures good { IfOk result (λ _. sum own.new ≤ sum own.old + good_steps N.design N.plan) }
{
    let run = GoodRun::new(alloc, place.setup)?;
    let mut ahead = Ahead { run, used: None };
    let outcome = grade_run(rt, alloc, place, &mut ahead, seat, own, steps)?;
    Ok(outcome)
}
