// One round, and how the rounds go on behind it.

ghost use Rattle.std.specs.Prelude.{◌≡◌, ◌≤◌, true, length, sum, IfOk, IsSomeAnd, OnOk, Some};
ghost use Rattle.std.specs.List.{All};
ghost use Rattle.fault_shards.specs.Shards.{representatives_of};
ghost use Rattle.shard_crew.specs.shard_claims.Workers.{AreBackupsOf, IsPlaceOf};
ghost use Rattle.shard_crew.specs.shard_turns.declared.backups.BackupSeat.{BackupSeat};
ghost use Rattle.shard_crew.specs.shard_findings.AllWorkers.{AreWorkersAt};
ghost use Rattle.shard_crew.specs.Crews.{CrewRose, HasCrewVisited, IsCrewSeat};
ghost use Rattle.good_windows.specs.Next.{steps_of_slots};
ghost use Rattle.shard_rounds.specs.Rounds.{BackedUp, CrewTicks, GoodTicks, IsBeforeRound, GoesOn, RoseWithin, RoundTicks, RunsOn};
ghost use Rattle.shard_crew.specs.Crossings.{MayCross};
ghost use Rattle.shard_crew.specs.Leaving.{AreNumbered};

use good_windows::{GoodRun, NextWindow};
use run_trace::RunWindow;
use shard_crew::{BackupSeat, Backups, Place, Round, Worker, crew, leave_copies};
use std::alloc::Global;
use std::sync::ledger::Ledger;
use std::thread::{Threads, join_mut};
use v_design::World;
use vf_base::{Gate, NoMemory, Steps};

/// What goes ahead of the workers: the good machine's run, and a window that they are done with, whose memory is used again.
#[derive(Drop)]
pub(crate) struct Ahead<'s, 'd, N: World> {
    pub run: GoodRun<'s, 'd, N>,
    pub used: Option<RunWindow<N>>,
}

/// What stands before a round: the workers, and the window through which they go.
#[derive(Drop)]
pub(crate) struct Rounds<N: World> {
    pub workers: Vec<Worker<N>>,
    pub window: RunWindow<N>,
}

/// How the rounds go on: with another one, or not, since no slot is left, or since the good machine loops at this time, in steps.
#[derive(Drop)]
pub(crate) enum Later<N: World> {
    Round(Rounds<N>),
    Done(Vec<Worker<N>>),
    Loops(u64),
}

/// Runs the good machine through one more window, in the memory of one that is done with.
pub(crate) fn run_on<N: World, L: Ledger>(
    ahead: &mut Ahead<'_, '_, N>,
    own: &mut [Steps<L>],
) -> Result<NextWindow<N>, NoMemory>
    requires usable { ahead.old.run.usable ≡ true }
    requires one { length own.old ≡ 1 }
    ensures next { IfOk result (λ next. RunsOn N.design N.plan ahead.old.run.gone ahead.new.run next) }
    ensures ticks { OnOk result (RoseWithin (steps_of_slots N.design N.plan ahead.old.run.ran) (steps_of_slots N.design N.plan ahead.new.run.ran)
        own.old own.new) }
{
    let used = ahead.used.take();
    let next = ahead.run.next_window(used, &mut own[0])?;
    Ok(next)
}

/// The slots of a round, in which copies of the workers' shards stand that go on, and the seat off which the workers' seats are split. A single worker has nobody who would take
/// copies, so it leaves none.
fn open_backups<N: World, G>(
    alloc: Global,
    place: &Place<'_, '_, N, G>,
    workers: &[Worker<N>],
) -> Result<(Backups<N>, BackupSeat<N>), NoMemory>
    requires numbered { All (AreNumbered (representatives_of place.now.shards.now)) workers.now }
    requires few { length workers.now ≤ 64 }
    ensures { IfOk result (BackedUp place.now.shards.now (length workers.now)) }
{
    let (backups, seat) = Backups::<N>::new(alloc, place.shards.count())?;
    let count = workers.len();
    if count < 2 {
        return Ok((backups, seat));
    }
    let seat = leave_copies(alloc, &backups, seat, workers)?;
    Ok((backups, seat))
}

/// One round: the workers go through its window in threads of their own, and in the calling one the good machine runs through the next window. The seat of the round's backups
/// comes back.
fn go_round<N: World, R: Threads + Sync, G: Gate + Sync, L: Ledger + Send + Sync>(
    rt: &R,
    alloc: Global,
    round: &Round<'_, '_, N, G>,
    workers: &mut Vec<Worker<N>>,
    seat: &mut Option<BackupSeat<N>>,
    ahead: &mut Ahead<'_, '_, N>,
    own: &mut [Steps<L>],
    steps: &mut [Steps<L>],
) -> Result<(NextWindow<N>, BackupSeat<N>), NoMemory>
    requires place { IsPlaceOf N.design N.plan round.now.shards.now round.now.board.now }
    requires backups { AreBackupsOf round.now.shards.now round.now.backups.now }
    requires at { AreWorkersAt (representatives_of round.now.shards.now) round.now.board.now round.now.window.now.before (length steps.old) workers.old.items }
    requires seat { IsSomeAnd seat.old (IsCrewSeat round.now.backups.now (length steps.old)) }
    requires run { (ahead.old.run.gone ≡ round.now.window.now.through) × (ahead.old.run.usable ≡ true) }
    requires one { length own.old ≡ 1 }
    ensures through { IfOk result (λ _. AreWorkersAt (representatives_of round.now.shards.now) round.now.board.now round.now.window.now.through (length steps.old) workers.new.items) }
    ensures visited { IfOk result (λ after. (one : BackupSeat N) → seat.old ≡ Some one → HasCrewVisited round.now.backups.now (length steps.old) one after.1) }
    ensures next { IfOk result (λ after. RunsOn N.design N.plan round.now.window.now.through ahead.new.run after.0) }
    ensures ticks { IfOk result (λ after. CrewRose N.design N.plan (representatives_of round.now.shards.now) round.now.window.now.before round.now.window.now.through workers.old.items
        workers.new.items after.1 steps.old steps.new) }
    ensures good { IfOk result (λ _. RoseWithin (steps_of_slots N.design N.plan ahead.old.run.ran) (steps_of_slots N.design N.plan ahead.new.run.ran) own.old own.new) }
{
    let (a, b) = join_mut(
        rt,
        &mut || -> Result<BackupSeat<N>, NoMemory>
            requires place { IsPlaceOf N.design N.plan round.now.shards.now round.now.board.now }
            requires backups { AreBackupsOf round.now.shards.now round.now.backups.now }
            requires at { AreWorkersAt (representatives_of round.now.shards.now) round.now.board.now round.now.window.now.before (length steps.now) workers.now.items }
            requires seat { IsSomeAnd seat.now (IsCrewSeat round.now.backups.now (length steps.now)) }
            requires bounds { MayCross N.row R.row G.row L.row }
            ensures through { IfOk result (λ _. AreWorkersAt (representatives_of round.entry.now.shards.now) round.entry.now.board.now round.entry.now.window.now.through
                (length steps.entry.now) workers.exit.now.items) }
            ensures visited { IfOk result (λ after. (one : BackupSeat N) → seat.entry.now ≡ Some one → HasCrewVisited round.entry.now.backups.now (length steps.entry.now) one after) }
            ensures ticks { IfOk result (λ after. CrewRose N.design N.plan (representatives_of round.entry.now.shards.now) round.entry.now.window.now.before round.entry.now.window.now.through
                workers.entry.now.items workers.exit.now.items after steps.entry.now steps.exit.now) }
        { crew(rt, alloc, round, workers, seat, steps) },
        &mut || -> Result<NextWindow<N>, NoMemory>
            requires usable { ahead.now.run.usable ≡ true }
            requires one { length own.now ≡ 1 }
            ensures next { IfOk result (λ next. RunsOn N.design N.plan ahead.entry.now.run.gone ahead.exit.now.run next) }
            ensures ticks { OnOk result (RoseWithin (steps_of_slots N.design N.plan ahead.entry.now.run.ran) (steps_of_slots N.design N.plan ahead.exit.now.run.ran)
                own.entry.now own.exit.now) }
        { run_on(ahead, own) },
    );
    let backup = a?;
    let next = b?;
    Ok((next, backup))
}

/// One round with its slots, which are made before it and let go of behind it.
fn run_round<N: World, R: Threads + Sync, G: Gate + Sync, L: Ledger + Send + Sync>(
    rt: &R,
    alloc: Global,
    place: &Place<'_, '_, N, G>,
    window: &RunWindow<N>,
    workers: &mut Vec<Worker<N>>,
    ahead: &mut Ahead<'_, '_, N>,
    own: &mut [Steps<L>],
    steps: &mut [Steps<L>],
) -> Result<NextWindow<N>, NoMemory>
    requires place { IsPlaceOf N.design N.plan place.now.shards.now place.now.board.now }
    requires at { AreWorkersAt (representatives_of place.now.shards.now) place.now.board.now window.now.before (length steps.old) workers.old.items }
    requires run { (ahead.old.run.gone ≡ window.now.through) × (ahead.old.run.usable ≡ true) }
    requires counters { (1 ≤ length steps.old) × (length steps.old ≤ 64) }
    requires one { length own.old ≡ 1 }
    ensures through { OnOk result (AreWorkersAt (representatives_of place.now.shards.now) place.now.board.now window.now.through (length steps.old) workers.new.items) }
    ensures next { IfOk result (λ next. RunsOn N.design N.plan window.now.through ahead.new.run next) }
    ensures ticks { OnOk result (CrewTicks N.design N.plan (representatives_of place.now.shards.now) window.now.before window.now.through workers.old.items workers.new.items
        (sum steps.old) (sum steps.new)) }
    ensures good { OnOk result (RoseWithin (steps_of_slots N.design N.plan ahead.old.run.ran) (steps_of_slots N.design N.plan ahead.new.run.ran) own.old own.new) }
{
    let (backups, first) = open_backups(alloc, place, workers)?;
    let round = Round {
        setup: place.setup,
        shards: place.shards,
        board: place.board,
        gate: place.gate,
        window,
        backups: &backups,
    };
    let mut seat = Some(first);
    let (next, last) = go_round(rt, alloc, &round, workers, &mut seat, ahead, own, steps)?;
    backups.end(alloc, last)?;
    Ok(next)
}

/// One round, and how the rounds go on behind it.
pub(crate) fn next_round<N: World, R: Threads + Sync, G: Gate + Sync, L: Ledger + Send + Sync>(
    rt: &R,
    alloc: Global,
    place: &Place<'_, '_, N, G>,
    ahead: &mut Ahead<'_, '_, N>,
    rounds: Rounds<N>,
    own: &mut [Steps<L>],
    steps: &mut [Steps<L>],
) -> Result<Later<N>, NoMemory>
    requires place { IsPlaceOf N.design N.plan place.now.shards.now place.now.board.now }
    requires before { IsBeforeRound N.design N.plan (representatives_of place.now.shards.now) place.now.board.now (length steps.old) ahead.old.run rounds }
    requires counters { (1 ≤ length steps.old) × (length steps.old ≤ 64) }
    requires one { length own.old ≡ 1 }
    ensures goes_on { IfOk result (GoesOn N.design N.plan (representatives_of place.now.shards.now) place.now.board.now (length steps.old) rounds.window.through ahead.new.run) }
    ensures ticks { IfOk result (RoundTicks N.design N.plan (representatives_of place.now.shards.now) rounds.window.before rounds.window.through rounds.workers.items (sum steps.old) (sum steps.new)) }
    ensures good { IfOk result (GoodTicks N.design N.plan ahead.old.run.ran ahead.new.run.ran (sum own.old) (sum own.new)) }
{
    let Rounds { workers, window } = rounds;
    let mut workers = workers;
    let next = run_round(rt, alloc, place, &window, &mut workers, ahead, own, steps)?;
    match next {
        NextWindow::Over => Ok(Later::Done(workers)),
        NextWindow::Loops(time) => Ok(Later::Loops(time)),
        NextWindow::Window(later) => {
            ahead.used = Some(window);
            Ok(Later::Round(Rounds {
                workers,
                window: later,
            }))
        }
    }
}
