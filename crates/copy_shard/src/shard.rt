// A shard of faults.

ghost use Rattle.std.specs.Prelude.{◌≡◌, ◌≢◌, ◌<◌, ◌≤◌, ◌++◌, sum_by, [], All, Contains, IfNone, IfOk, IfSome, OnErr, OnOk, length, map, slice_get};
ghost use Rattle.std.specs.List.{AllZip, list_any};
ghost use Rattle.std.specs.Option.{option_to_list};
ghost use Rattle.vf_base.specs.Base.{fault_number};
ghost use Rattle.copy_laws.specs.Windows.{good_slots};
ghost use Rattle.fault_shards.specs.Found.{IsFinding, found_faults};
ghost use Rattle.copy_laws.specs.Windows.{RiseAtMostOwn};
ghost use Rattle.own_gradings.specs.Numbers.{OwnStepsOf, RisesOwn};
ghost use Rattle.copy_shard.specs.Kept.{IsShard, fault_kept};
ghost use Rattle.copy_shard.specs.Copied.{IsSameShard, differences_of_each};
ghost use Rattle.copy_shard.specs.Shards.{FaultKept, StandsBeside, StaysEnded, finding_of, fault_steps_at, findings_of, fresh_shard, goes_on, open_in, places_of, shard_steps};

use crate::copied::copied_faults;
use copy_state::FaultCopy;
use good_trace::Setup;
use run_trace::RunWindow;
use shard_windows::{Reached, ShardFault, ShardRoom, advance_all, fresh_faults, some_open};
use std::alloc::Global;
use std::marker::{Model, PhantomData};
use std::mem;
use std::sync::ledger::Ledger;
use v_design::World;
use vf_base::{FaultId, Finding, NoMemory, Steps};

/// Faults of the world `N` that go beside the good first run from window to window. Contracts see through how many slots of the good first run they have gone, and of
/// each fault its copy and its end.
pub struct Shard<N: World> {
    /// So many slots of the good first run.
    gone: u64,
    reached: Reached,
    numbers: Vec<FaultId>,
    faults: Vec<ShardFault>,
    world: PhantomData<N>,
}

// Written out, so that its parts are let go of here alone.
impl<N: World> Drop for Shard<N> {
    fn drop(self) {
        let Shard {
            gone: _,
            reached: _,
            numbers: _,
            faults: _,
            world: _,
        } = self;
    }
}

impl<N: World> Model for Shard<N> {
    ghost use Rattle.std.specs.Prelude.{map};
    ghost use Rattle.copy_shard.specs.Kept.{IsShard, fault_kept};
    ghost use Rattle.copy_shard.specs.Shards.{ShardKept};

    ghost Value = { ShardKept };

    ghost view = { λ s. record { gone = s.gone; faults = map fault_kept s.faults.items } };

    ghost invariant = { λ s. IsShard N.design N.plan s.gone s.reached s.numbers.items s.faults.items };
}

/// What a shard is made of: how far it has come, the numbers of its faults, and these.
#[derive(Drop)]
pub(crate) struct ShardParts {
    pub(crate) reached: Reached,
    pub(crate) numbers: Vec<FaultId>,
    pub(crate) faults: Vec<ShardFault>,
}

/// Puts the finding on a fault behind others, if its grading ended.
fn push_finding(own: &ShardFault, found: &mut Vec<Finding>) -> Result<(), NoMemory>
    ensures { OnOk result (found.new.items ≡ found.old.items ++ option_to_list (finding_of (fault_kept own.now))) }
{
    match own.end {
        None => Ok(()),
        Some(end) => {
            let fault = own.copy.fault();
            found.push(Finding { fault, end })?;
            Ok(())
        }
    }
}

/// The same of each of some faults whose grading ended, in order.
fn push_each(faults: &[ShardFault], found: &mut Vec<Finding>) -> Result<(), NoMemory>
    ensures { OnOk result (found.new.items ≡ found.old.items ++ findings_of (map fault_kept faults.now)) }
{
    'faults: for own in faults {
        push_finding(own, found)?;
    }
    Ok(())
}

/// The place of a fault among some of a shard, if it is one of them.
fn place_of(faults: &[ShardFault], fault: FaultId) -> Option<usize>
    ensures found { IfSome result (λ place. slice_get (places_of (map fault_kept faults.now)) place ≡ Some (fault_number fault)) }
    ensures none { IfNone result (All (λ number. number ≢ fault_number fault) (places_of (map fault_kept faults.now))) }
{
    'faults: for (place, own) in faults.iter().enumerate() {
        if own.copy.fault().0 == fault.0 {
            return Some(place);
        }
    }
    None
}

impl<N: World> Shard<N> {
    /// A shard of some listed faults, which have the given places in the plan, before the first slot.
    ///
    /// # Errors
    ///
    /// Want of memory.
    pub fn new(
        alloc: Global,
        setup: &Setup<'_, N>,
        faults: &[FaultId],
    ) -> Result<Shard<N>, NoMemory>
        requires { All (λ number. number < length N.plan.faults) (map fault_number faults.now) }
        ensures { IfOk result (λ shard. shard ≡ fresh_shard (map fault_number faults.now)) }
    {
        beside_laws::faults_go_on();
        let design = setup.design();
        let numbers = Vec::from_slice(alloc, faults)?;
        let fresh = fresh_faults(alloc, faults, false)?;
        Ok(Shard {
            gone: 0,
            reached: Reached { passed: 0, time: 0 },
            numbers,
            faults: fresh,
            world: PhantomData,
        })
    }

    /// A shard that has gone through so many slots of the good first run, by its parts.
    pub(crate) fn from_parts(gone: u64, parts: ShardParts) -> Shard<N>
        requires { IsShard N.design N.plan gone parts.reached parts.numbers.items parts.faults.items }
        ensures { result ≡ record { gone = gone; faults = map fault_kept parts.faults.items } }
    {
        Shard {
            gone,
            reached: parts.reached,
            numbers: parts.numbers,
            faults: parts.faults,
            world: PhantomData,
        }
    }

    /// Its parts.
    pub(crate) fn into_parts(self) -> ShardParts
        ensures seen { map fault_kept result.faults.items ≡ self.faults }
        ensures stands { IsShard N.design N.plan self.gone result.reached result.numbers.items result.faults.items }
    {
        let Shard {
            gone: _,
            reached,
            numbers,
            faults,
            world: _,
        } = self;
        ShardParts {
            reached,
            numbers,
            faults,
        }
    }

    /// Takes the shard through the next window of the good first run. `steps` ticks at most once for each own step of its faulty machines in between.
    ///
    /// # Errors
    ///
    /// Want of memory. The shard has no faults then.
    pub fn advance<'d, L: Ledger>(
        &mut self,
        alloc: Global,
        setup: &Setup<'d, N>,
        window: &RunWindow<N>,
        room: &mut ShardRoom<'d, N>,
        steps: &mut Steps<L>,
    ) -> Result<(), NoMemory>
        requires { window.now.before ≡ self.old.gone }
        ensures gone { OnOk result (self.new.gone ≡ window.now.through) }
        ensures places { OnOk result (places_of self.new.faults ≡ places_of self.old.faults) }
        ensures ended { OnOk result (AllZip StaysEnded self.old.faults self.new.faults) }
        ensures stands { OnOk result (StandsBeside N.design N.plan self.new) }
        // Of each fault whose grading hasn't ended, the own steps in the slots of the window, through the end of its grading.
        ensures own { OnOk result (RiseAtMostOwn N.design N.plan self.old.gone self.new.gone (open_in N.plan self.old.faults) steps.old steps.new) }
        ensures ticks { OnOk result (RisesOwn N.design N.plan (λ tally. shard_steps tally self.old) (λ tally. shard_steps tally self.new) steps.old steps.new) }
        ensures err { OnErr result (self.new ≡ record self.old { faults = [] }) }
    {
        own_gradings::own_steps_rise();
        let design = setup.design();
        let numbers = mem::replace(&mut self.numbers, Vec::new(alloc));
        let mut faults = mem::replace(&mut self.faults, Vec::new(alloc));
        let reached = advance_all(alloc, setup, window, self.reached, room, &mut faults, steps)?;
        let trace = window.window();
        let _first = trace.begins();
        self.gone = trace.ends();
        self.reached = reached;
        self.numbers = numbers;
        self.faults = faults;
        Ok(())
    }

    /// Through how many slots of the good first run the shard has gone.
    pub fn at(&self) -> u64
        ensures { result ≡ self.now.gone }
    {
        self.gone
    }

    /// The places of its faults in the plan, in order.
    pub fn faults(&self) -> &[FaultId]
        ensures { map fault_number result.now ≡ places_of self.now.faults }
    {
        &self.numbers
    }

    /// Puts the findings on the faults whose gradings ended behind others, in the order of the faults.
    ///
    /// # Errors
    ///
    /// Want of memory.
    pub fn push_findings(&self, found: &mut Vec<Finding>) -> Result<(), NoMemory>
        ensures { OnOk result (found.new.items ≡ found.old.items ++ findings_of self.now.faults) }
    {
        push_each(&self.faults, found)
    }

    /// The findings on the faults whose gradings ended, in the order of the faults.
    ///
    /// # Errors
    ///
    /// Want of memory.
    pub fn findings(&self, alloc: Global) -> Result<Vec<Finding>, NoMemory>
        ensures { IfOk result (λ found. found.items ≡ findings_of self.now.faults) }
    {
        let mut found = Vec::new(alloc);
        self.push_findings(&mut found)?;
        Ok(found)
    }

    /// The copy of a fault; none where it isn't one of the shard's.
    pub fn copy_of(&self, fault: FaultId) -> Option<&FaultCopy>
        ensures copy { IfSome result (λ copy. (copy.now.fault ≡ fault_number fault) × Contains (map (λ (kept : FaultKept). kept.copy) self.now.faults) copy.now) }
        ensures none { IfNone result (All (λ number. number ≢ fault_number fault) (places_of self.now.faults)) }
    {
        match place_of(&self.faults, fault) {
            None => None,
            Some(place) => Some(&self.faults[place].copy),
        }
    }

    /// Whether the grading of one of its faults goes on.
    pub fn goes_on(&self) -> bool
        ensures { result ≡ list_any goes_on self.now.faults }
    {
        some_open(&self.faults)
    }

    /// The same shard once more: it has the same faults, of each of which the same is kept, behind as many slots. So it was found as much of them, its copies stand for
    /// the same differences, and they stand beside the good first run as those of this shard do.
    ///
    /// # Errors
    ///
    /// Want of memory.
    pub fn copy(&self, alloc: Global) -> Result<Shard<N>, NoMemory>
        ensures same { IfOk result (IsSameShard self.now) }
        ensures places { IfOk result (λ copy. places_of copy.faults ≡ places_of self.now.faults) }
        ensures found { IfOk result (λ copy. findings_of copy.faults ≡ findings_of self.now.faults) }
        ensures differences { IfOk result (λ copy. differences_of_each N.design copy.faults ≡ differences_of_each N.design self.now.faults) }
        ensures stands { IfOk result (StandsBeside N.design N.plan) }
        ensures steps { IfOk result (λ copy. (tally : OwnStepsOf N.design N.plan) → shard_steps tally copy ≡ shard_steps tally self.now) }
    {
        let numbers = Vec::from_slice(alloc, &self.numbers)?;
        let faults = copied_faults(alloc, &self.faults)?;
        Ok(Shard {
            gone: self.gone,
            reached: self.reached,
            numbers,
            faults,
            world: PhantomData,
        })
    }

    /// Each fault of a shard stands as a fault does behind so many slots of the good first run, so what was found is its grade; once that run is through, something was
    /// found of each; and so far its faults have taken no more own steps than they take in all. The function does nothing when it runs; its contract is the law.
    pub fn stands(&self)
        ensures stands { StandsBeside N.design N.plan self.now }
        ensures graded { All (IsFinding N.design N.plan) (findings_of self.now.faults) }
        ensures complete { length (good_slots N.design N.plan) ≡ self.now.gone → found_faults (findings_of self.now.faults) ≡ places_of self.now.faults }
        ensures steps { (tally : OwnStepsOf N.design N.plan) → shard_steps tally self.now ≤ sum_by (fault_steps_at tally) (places_of self.now.faults) }
    {
        own_gradings::own_steps_rise();
        let _count = self.faults.len();
    }
}
