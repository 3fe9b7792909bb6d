// The turns of a shard in a round, by what lies in its slot.

ghost use Rattle.std.specs.Prelude.{◌≡◌, Ok, IfOk};
ghost use Rattle.shard_turns.specs.Turns.{HasDone};

use crate::alike::is_alike;
use good_trace::Setup;
use run_trace::RunWindow;
use shard_turns::{Shard, ShardRoom, shard_turn};
use std::alloc::Global;
use std::sync::ledger::Ledger;
use v_design::World;
use vf_base::{NoMemory, Steps};

/// How many turns there were, and of how many the answer was the same shard, by what lay in the slot.
#[derive(Clone, Copy, Debug, Default)]
pub(crate) struct Alike {
    pub turns: u32,
    /// A copy that had gone through the window.
    pub done: u32,
    /// A copy that hadn't.
    pub older: u32,
    /// None.
    pub none: u32,
}

/// So many more, where it holds.
fn counted(count: u32, holds: bool) -> u32 {
    if holds {
        count.saturating_add(1)
    } else {
        count
    }
}

/// A copy of a shard, which goes through a window by itself.
fn advanced<'d, N: World, L: Ledger>(
    alloc: Global,
    setup: &Setup<'d, N>,
    window: &RunWindow<N>,
    room: &mut ShardRoom<'d, N>,
    own: &Shard<N>,
    steps: &mut Steps<L>,
) -> Result<Shard<N>, NoMemory>
    requires { window.now.before ≡ own.now.gone }
    ensures { IfOk result (HasDone window.now.through own.now) }
{
    let mut copy = own.copy(alloc)?;
    copy.advance(alloc, setup, window, room, steps)?;
    Ok(copy)
}

/// A turn for which a copy lay in the slot that had gone through the window: that one is answered, and no step ticks.
fn turn_with_done<'d, N: World, L: Ledger>(
    alloc: Global,
    setup: &Setup<'d, N>,
    window: &RunWindow<N>,
    room: &mut ShardRoom<'d, N>,
    own: Shard<N>,
    done: Shard<N>,
    steps: &mut Steps<L>,
) -> Result<Shard<N>, NoMemory>
    requires at { window.now.before ≡ own.gone }
    requires done { HasDone window.now.through own done }
    ensures found { result ≡ Ok done }
    ensures ticks { steps.new ≡ steps.old }
{
    shard_turn(alloc, setup, window, room, own, Some(done), steps)
}

/// A turn of a copy of a shard, for which this lay in the slot.
fn turn_of_copy<'d, N: World, L: Ledger>(
    alloc: Global,
    setup: &Setup<'d, N>,
    window: &RunWindow<N>,
    room: &mut ShardRoom<'d, N>,
    own: &Shard<N>,
    found: Option<Shard<N>>,
    steps: &mut Steps<L>,
) -> Result<Shard<N>, NoMemory>
    requires { window.now.before ≡ own.now.gone }
{
    let copy = own.copy(alloc)?;
    shard_turn(alloc, setup, window, room, copy, found, steps)
}

/// The turns of a shard in the round of a window, for each of which something else lay in its slot. All answers have to be the shard that went through the window by itself, and
/// those that are are counted. The answer is the last one.
pub(crate) fn take_turns<'d, N: World, L: Ledger>(
    alloc: Global,
    setup: &Setup<'d, N>,
    window: &RunWindow<N>,
    room: &mut ShardRoom<'d, N>,
    own: Shard<N>,
    alike: &mut Alike,
    steps: &mut Steps<L>,
) -> Result<Shard<N>, NoMemory>
    requires { window.now.before ≡ own.gone }
    ensures { IfOk result (λ behind. behind.gone ≡ window.now.through) }
{
    let objects = setup
        .design()
        .objects
        .as_slice()
        .len()
        .min(u32::MAX as usize) as u32;
    let done = advanced(alloc, setup, window, room, &own, steps)?;
    let wanted = done.copy(alloc)?;
    let older = own.copy(alloc)?;
    let with_older = turn_of_copy(alloc, setup, window, room, &own, Some(older), steps)?;
    let with_none = turn_of_copy(alloc, setup, window, room, &own, None, steps)?;
    let behind = turn_with_done(alloc, setup, window, room, own, done, steps)?;
    alike.turns = alike.turns.saturating_add(1);
    alike.done = counted(alike.done, is_alike(alloc, &behind, &wanted, objects)?);
    alike.older = counted(alike.older, is_alike(alloc, &with_older, &wanted, objects)?);
    alike.none = counted(alike.none, is_alike(alloc, &with_none, &wanted, objects)?);
    Ok(behind)
}
