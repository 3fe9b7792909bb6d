// A shard's turn in a round.

ghost use Rattle.std.specs.Prelude.{◌≡◌, ◌≤◌, ◌↔◌, Ok, Some, IfOk, IfSome, IsTrue};
ghost use Rattle.copy_shard.specs.Shards.{ShardKept, shard_steps};
ghost use Rattle.own_gradings.specs.Numbers.{OwnStepsOf, RisesOwn};
ghost use Rattle.shard_turns.specs.Turns.{ComesBehind, HasDone};

use copy_shard::{Shard, ShardRoom};
use good_trace::Setup;
use run_trace::RunWindow;
use std::alloc::Global;
use std::sync::ledger::Ledger;
use v_design::World;
use vf_base::{FaultId, NoMemory, Steps};

/// Whether two faults are the same.
fn same_fault(one: FaultId, other: FaultId) -> bool
    ensures { IsTrue result ↔ (one ≡ other) }
{
    one.0 == other.0
}

/// Whether two lists of faults are the same.
pub(crate) fn same_faults(one: &[FaultId], other: &[FaultId]) -> bool
    ensures { IsTrue result ↔ (one.now ≡ other.now) }
{
    if one.len() != other.len() {
        return false;
    }
    'faults: for place in 0..one.len() {
        if !same_fault(one[place], other[place]) {
            return false;
        }
    }
    true
}

/// Whether another shard is this one behind a window.
fn has_done<N: World>(window: &RunWindow<N>, own: &Shard<N>, other: &Shard<N>) -> bool
    ensures { IsTrue result ↔ HasDone window.now.through own.now other.now }
{
    let through = window.window().ends();
    if other.at() != through {
        return false;
    }
    same_faults(other.faults(), own.faults())
}

/// The shard that was found, if it is another one behind a window; any other is dropped.
pub(crate) fn behind_window<N: World>(
    window: &RunWindow<N>,
    own: &Shard<N>,
    found: Option<Shard<N>>,
) -> Option<Shard<N>>
    ensures done { IfSome result (HasDone window.now.through own.now) }
    ensures found { (other : ShardKept) → found ≡ Some other → HasDone window.now.through own.now other → result ≡ Some other }
{
    match found {
        None => None,
        Some(other) => {
            if has_done(window, own, &other) {
                return Some(other);
            }
            None
        }
    }
}

/// A shard that was found behind a window has taken no fewer own steps than this one before it. The function does nothing when it runs; its contract is the law.
pub(crate) fn found_behind<N: World>(
    setup: &Setup<'_, N>,
    window: &RunWindow<N>,
    own: &Shard<N>,
    other: &Shard<N>,
)
    requires at { window.now.before ≡ own.now.gone }
    requires done { HasDone window.now.through own.now other.now }
    ensures { (tally : OwnStepsOf N.design N.plan) → shard_steps tally own.now ≤ shard_steps tally other.now }
{
    own_gradings::own_steps_rise();
    let _design = setup.design();
    let _first = window.window().begins();
    own.stands();
}

/// Takes a shard through a window.
fn take_through<'d, N: World, L: Ledger>(
    alloc: Global,
    setup: &Setup<'d, N>,
    window: &RunWindow<N>,
    room: &mut ShardRoom<'d, N>,
    own: Shard<N>,
    steps: &mut Steps<L>,
) -> Result<Shard<N>, NoMemory>
    requires { window.now.before ≡ own.gone }
    ensures behind { IfOk result (ComesBehind N.design N.plan window.now.through own) }
    ensures ticks { IfOk result (λ behind. RisesOwn N.design N.plan (λ tally. shard_steps tally own) (λ tally. shard_steps tally behind) steps.old steps.new) }
{
    let mut own = own;
    own.advance(alloc, setup, window, room, steps)?;
    Ok(own)
}

/// A shard's turn in the round of a window: it goes through the window, or the answer is the shard that was found in its place, where that is this one behind the window.
/// Then `steps` doesn't tick; else it ticks at most once for each own step of the shard's faulty machines in between.
///
/// # Errors
///
/// Want of memory. The shard is gone then.
pub fn shard_turn<'d, N: World, L: Ledger>(
    alloc: Global,
    setup: &Setup<'d, N>,
    window: &RunWindow<N>,
    room: &mut ShardRoom<'d, N>,
    own: Shard<N>,
    found: Option<Shard<N>>,
    steps: &mut Steps<L>,
) -> Result<Shard<N>, NoMemory>
    requires { window.now.before ≡ own.gone }
    ensures behind { IfOk result (ComesBehind N.design N.plan window.now.through own) }
    ensures found { (other : ShardKept) → found ≡ Some other → HasDone window.now.through own other → (result ≡ Ok other) × (steps.new ≡ steps.old) }
    ensures ticks { IfOk result (λ behind. RisesOwn N.design N.plan (λ tally. shard_steps tally own) (λ tally. shard_steps tally behind) steps.old steps.new) }
{
    match behind_window(window, &own, found) {
        None => take_through(alloc, setup, window, room, own, steps),
        Some(other) => {
            found_behind(setup, window, &own, &other);
            other.stands();
            Ok(other)
        }
    }
}
