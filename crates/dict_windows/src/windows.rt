// Window after window.

ghost use Rattle.std.specs.Prelude.{◌≡◌, true, IfOk, OnOk};
ghost use Rattle.own_gradings.specs.Numbers.{RisesOwn};
ghost use Rattle.dict_windows.specs.Faults.{all_steps, faults_in};
ghost use Rattle.dict_windows.specs.Windows.{AreThrough, GoesOn, RisesBeside, StandsBeside};

use crate::faults::advance_all;
use crate::good::{GoodSeen, see_window};
use good_trace::Setup;
use good_windows::{GoodRun, NextWindow};
use kept_shard::{KeptShard, ShardRoom};
use run_trace::RunWindow;
use std::alloc::Global;
use std::sync::ledger::Ledger;
use v_design::World;
use vf_base::{NoMemory, Steps};

/// What goes ahead of the shards: the good machine's run, and a window that is done with, whose memory is used again.
#[derive(Drop)]
pub(crate) struct Ahead<'s, 'd, N: World> {
    pub run: GoodRun<'s, 'd, N>,
    pub used: Option<RunWindow<N>>,
}

/// What stands behind the windows so far: what the strobes saw of the good machine, and the shards.
#[derive(Drop)]
pub(crate) struct Beside<N: World> {
    pub good: GoodSeen,
    pub shards: Vec<KeptShard<N>>,
}

/// What came next: a window, through which all went; nothing, since no slot is left; or the good machine's loop at this time, in steps.
#[derive(Clone, Copy, PartialEq, Eq)]
enum Next {
    Window,
    Over,
    Loops(u64),
}

/// Takes all through a window.
fn pass_window<'d, N: World, L: Ledger>(
    alloc: Global,
    setup: &Setup<'d, N>,
    window: &RunWindow<N>,
    beside: &mut Beside<N>,
    room: &mut ShardRoom<'d, N>,
    steps: &mut Steps<L>,
) -> Result<(), NoMemory>
    requires { StandsBeside N.design N.plan window.now.before beside.old }
    ensures stands { OnOk result (StandsBeside N.design N.plan window.now.through beside.new) }
    ensures faults { OnOk result (faults_in beside.new.shards.items ≡ faults_in beside.old.shards.items) }
    ensures ticks { OnOk result (RisesOwn N.design N.plan (λ tally. all_steps tally beside.old.shards.items) (λ tally. all_steps tally beside.new.shards.items) steps.old steps.new) }
{
    see_window(alloc, setup, window, &mut beside.good)?;
    advance_all(alloc, setup, window, &mut beside.shards, room, steps)?;
    Ok(())
}

/// Runs the good machine through the next window, and takes all through that.
fn go_further<'d, N: World, L: Ledger>(
    alloc: Global,
    setup: &Setup<'d, N>,
    ahead: &mut Ahead<'_, 'd, N>,
    beside: &mut Beside<N>,
    room: &mut ShardRoom<'d, N>,
    steps: &mut Steps<L>,
) -> Result<Next, NoMemory>
    requires usable { ahead.old.run.usable ≡ true }
    requires stands { StandsBeside N.design N.plan ahead.old.run.gone beside.old }
    ensures next { IfOk result (λ next. GoesOn N.design N.plan ahead.old.run.gone ahead.new.run beside.new next) }
    ensures faults { OnOk result (faults_in beside.new.shards.items ≡ faults_in beside.old.shards.items) }
    ensures ticks { OnOk result (RisesBeside N.design N.plan ahead.old.run.ran beside.old.shards.items steps.old ahead.new.run.ran beside.new.shards.items steps.new) }
{
    let used = ahead.used.take();
    let next = ahead.run.next_window(used, steps)?;
    match next {
        NextWindow::Over => Ok(Next::Over),
        NextWindow::Loops(time) => Ok(Next::Loops(time)),
        NextWindow::Window(window) => {
            pass_window(alloc, setup, &window, beside, room, steps)?;
            ahead.used = Some(window);
            Ok(Next::Window)
        }
    }
}

/// Takes all through the windows that are left. The answer is the time, in steps, at which the good machine is hyperactive before a race of its own, if it is.
pub(crate) fn go_through<'d, N: World, L: Ledger>(
    alloc: Global,
    setup: &Setup<'d, N>,
    ahead: &mut Ahead<'_, 'd, N>,
    beside: &mut Beside<N>,
    room: &mut ShardRoom<'d, N>,
    steps: &mut Steps<L>,
) -> Result<Option<u64>, NoMemory>
    requires usable { ahead.old.run.usable ≡ true }
    requires stands { StandsBeside N.design N.plan ahead.old.run.gone beside.old }
    ensures through { IfOk result (AreThrough N.design N.plan beside.new) }
    ensures faults { OnOk result (faults_in beside.new.shards.items ≡ faults_in beside.old.shards.items) }
    ensures ticks { OnOk result (RisesBeside N.design N.plan ahead.old.run.ran beside.old.shards.items steps.old ahead.new.run.ran beside.new.shards.items steps.new) }
{
    'windows: loop {
        let next = go_further(alloc, setup, ahead, beside, room, steps)?;
        match next {
            Next::Window => {}
            Next::Over => return Ok(None),
            Next::Loops(time) => return Ok(Some(time)),
        }
    }
}
