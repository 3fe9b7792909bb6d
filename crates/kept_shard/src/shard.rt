// A shard of faults whose samples are kept.

ghost use Rattle.std.specs.Prelude.{◌≡◌, ◌<◌, ◌≤◌, sum_by, [], All, IfOk, OnErr, OnOk, length, map, true};
ghost use Rattle.vf_base.specs.Base.{fault_number};
ghost use Rattle.copy_laws.specs.Windows.{RiseAtMostOwn};
ghost use Rattle.fault_strobes.specs.Said.{plan_by};
ghost use Rattle.own_gradings.specs.Numbers.{OwnStepsOf, RisesOwn};
ghost use Rattle.kept_shard.specs.Keeping.{KeepsAll, StandsKept, fresh_keeping, full_steps_at, kept_steps_of, numbers_of, open_in};

use crate::samples::{kept_fresh, swap_each};
use good_trace::Setup;
use kept_samples::Kept;
use run_trace::RunWindow;
use shard_windows::{Reached, ShardFault, ShardRoom, advance_all, fresh_faults};
use std::alloc::Global;
use std::marker::{Model, PhantomData};
use std::mem;
use std::sync::ledger::Ledger;
use v_design::World;
use vf_base::{FaultId, NoMemory, Steps};

/// Faults of the world `N` that go beside the good first run from window to window, and whose samples are kept. Contracts see through how many slots of the good first run they have
/// gone, and what is kept of each.
pub struct KeptShard<N: World> {
    /// So many slots of the good first run.
    gone: u64,
    reached: Reached,
    /// Between windows their samples stand in what is kept.
    faults: Vec<ShardFault>,
    kept: Vec<Kept>,
    world: PhantomData<N>,
}

// Written out, so that its parts are let go of here alone.
impl<N: World> Drop for KeptShard<N> {
    fn drop(self) {
        let KeptShard {
            gone: _,
            reached: _,
            faults: _,
            kept: _,
            world: _,
        } = self;
    }
}

impl<N: World> Model for KeptShard<N> {
    ghost use Rattle.kept_shard.specs.Keeping.{KeepingShard};
    ghost use Rattle.kept_shard.specs.Kept.{IsKeeping};

    ghost Value = { KeepingShard };

    ghost view = { λ s. record { gone = s.gone; kept = s.kept.items } };

    ghost invariant = { λ s. IsKeeping N.design N.plan s.gone s.reached s.faults.items s.kept.items };
}

impl<N: World> KeptShard<N> {
    /// A shard of some listed faults, which have the given places in the plan, before the first slot.
    ///
    /// # Errors
    ///
    /// Want of memory.
    pub fn new(
        alloc: Global,
        setup: &Setup<'_, N>,
        faults: &[FaultId],
    ) -> Result<KeptShard<N>, NoMemory>
        requires { All (λ number. number < length N.plan.faults) (map fault_number faults.now) }
        ensures { IfOk result (λ shard. shard ≡ fresh_keeping (map fault_number faults.now)) }
    {
        beside_laws::faults_go_on();
        let design = setup.design();
        let plan = setup.plan();
        let fresh = fresh_faults(alloc, faults, true)?;
        let kept = kept_fresh(alloc, faults)?;
        Ok(KeptShard {
            gone: 0,
            reached: Reached { passed: 0, time: 0 },
            faults: fresh,
            kept,
            world: PhantomData,
        })
    }

    /// Takes the shard through the next window of the good first run. `steps` ticks at most once for each own step of its faulty machines in between.
    ///
    /// # Errors
    ///
    /// Want of memory. The shard has no faults then.
    pub fn advance<'d, L: Ledger>(
        &mut self,
        alloc: Global,
        setup: &Setup<'d, N>,
        window: &RunWindow<N>,
        room: &mut ShardRoom<'d, N>,
        steps: &mut Steps<L>,
    ) -> Result<(), NoMemory>
        requires { window.now.before ≡ self.old.gone }
        ensures gone { OnOk result (self.new.gone ≡ window.now.through) }
        ensures numbers { OnOk result (numbers_of self.new.kept ≡ numbers_of self.old.kept) }
        // Of each fault whose machine hasn't stopped, the own steps in the slots of the window.
        ensures own { OnOk result (RiseAtMostOwn N.design (plan_by true N.plan) self.old.gone self.new.gone (open_in N.plan self.old.kept) steps.old steps.new) }
        ensures ticks { OnOk result (RisesOwn N.design N.plan (λ tally. kept_steps_of tally self.old) (λ tally. kept_steps_of tally self.new) steps.old steps.new) }
        ensures err { OnErr result (self.new ≡ record self.old { kept = [] }) }
    {
        own_gradings::own_steps_rise();
        let trace = window.window();
        let _first = trace.begins();
        let mut faults = mem::replace(&mut self.faults, Vec::new(alloc));
        let mut kept = mem::replace(&mut self.kept, Vec::new(alloc));
        swap_each(alloc, &mut faults, &mut kept);
        let reached = advance_all(alloc, setup, window, self.reached, room, &mut faults, steps)?;
        swap_each(alloc, &mut faults, &mut kept);
        self.gone = trace.ends();
        self.reached = reached;
        self.faults = faults;
        self.kept = kept;
        Ok(())
    }

    /// Through how many slots of the good first run the shard has gone.
    pub fn at(&self) -> u64
        ensures { result ≡ self.now.gone }
    {
        self.gone
    }

    /// What is kept of its faults, in order.
    pub fn kept(&self) -> &[Kept]
        ensures { result.now ≡ self.now.kept }
    {
        &self.kept
    }

    /// The same, without the shard.
    pub fn into_kept(self) -> Vec<Kept>
        ensures { result.items ≡ self.kept }
    {
        let KeptShard {
            gone: _,
            reached: _,
            faults: _,
            kept,
            world: _,
        } = self;
        kept
    }

    /// What is kept of each fault of a shard is its full grade as far as it goes up to the time of the slots that the shard has gone through; once the good first run is through it is
    /// the whole one; and so far its faults have taken no more own steps than they take in all. The function does nothing when it runs; its contract is the law.
    pub fn stands(&self)
        ensures kept { StandsKept N.design N.plan self.now }
        ensures whole { KeepsAll N.design N.plan self.now }
        ensures steps { (tally : OwnStepsOf N.design N.plan) → kept_steps_of tally self.now ≤ sum_by (full_steps_at tally) (numbers_of self.now.kept) }
    {
        beside_laws::good_run_goes_on();
        fault_strobes::strobed_gradings_go_on();
        fault_strobes::full_grades_reach();
        own_gradings::own_steps_rise();
        let _count = self.faults.len();
    }
}
