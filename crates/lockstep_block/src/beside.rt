// What the good machine's moments show, and a block of the faulty machine's own beside them.

ghost use Rattle.std.specs.Prelude.{◌≡◌, ◌≤◌, ℕ, List, true, drop, length, map, IfOk, IfSome, OnOk};
ghost use Rattle.std.specs.Option.{option_map};
ghost use Rattle.vf_base.specs.Base.{object_number, process_number};
ghost use Rattle.v_design.specs.Designs.{faulty_machine, good_machine};
ghost use Rattle.v_design.specs.OwnSteps.{ProcessRun};
ghost use Rattle.v_design.specs.Plain.{fault_of};
ghost use Rattle.v_design.specs.PlainDesigns.{design_of};
ghost use Rattle.v_design.specs.States.{State};
ghost use Rattle.faulty_block.specs.block_events.Runners.{IsWhole, machine_of, state_of};
ghost use Rattle.faulty_block.specs.Runs.{MayRun, RanBlock, StepsWithin};
ghost use Rattle.faulty_block.specs.block_runner.Beside.{AreFew, MayGoBeside, TellsBeside};
ghost use Rattle.faulty_block.specs.block_runner.Ends.{TicksTried};
ghost use Rattle.good_moment.specs.moment_laws.Shown.{ShowsState};
ghost use Rattle.faulty_block.specs.moment_shown.Shown.{Shows};
ghost use Rattle.faulty_block.specs.lockstep_room.Rooms.{AreCounts};
ghost use Rattle.lockstep_block.specs.Beside.{ComparesBeside, MayCompareBeside, MayPutBackTo, acts_beside};

use block_told::BlockTold;
use faulty_block::{
    Beside, Counts, GoodPhase, LockstepCopy, Runner, ShownBlock, ShownMoment, compare_block,
    put_back, run_faulty,
};
use good_moment::GoodMoment;
use good_runs::TriedStep;
use good_trace::Setup;
use lockstep_steps::Standing;
use process_code::ProcState;
use std::alloc::Global;
use std::sync::ledger::Ledger;
use v_design::{Fault, World};
use vf_base::{NoMemory, ProcId, Steps};

/// Where the processes of a state stand that is shown.
#[derive(Clone, Copy)]
pub(crate) struct ShownProcesses<'a> {
    pub(crate) good: ShownMoment<'a>,
}

impl<'a> Standing for ShownProcesses<'a> {
    ghost use Rattle.v_design.specs.PlainDesigns.{design_of};
    ghost use Rattle.faulty_block.specs.moment_shown.Shown.{Shows};

    ghost design = { λ own. design_of own.good.design.now };

    ghost shows = { λ own. Shows own.good };

    fn state_of(&self, process: ProcId) -> Option<&ProcState> {
        if process.0 as usize >= self.good.standing.states.len() {
            return None;
        }
        Some(self.good.process_state(process))
    }
}

/// What a moment shows.
pub(crate) fn show<'a, N: World>(
    setup: &'a Setup<'_, N>,
    moment: &'a GoodMoment<N>,
) -> ShownMoment<'a>
    ensures design { design_of result.design.now ≡ N.design }
    ensures shows { (state : State) → ShowsState N.design state moment.now → Shows result state }
{
    ShownMoment {
        design: setup.design(),
        values: moment.values(),
        standing: moment.standing(),
    }
}

/// What the block did that a moment passed last.
fn show_block<N: World>(moment: &GoodMoment<N>) -> ShownBlock<'_>
    ensures changed { map object_number result.changed.now ≡ moment.now.changed }
    ensures acted { map process_number result.acted.now ≡ moment.now.acted }
    ensures lane { option_map process_number result.lane ≡ moment.now.lane }
{
    ShownBlock {
        changed: moment.changed(),
        acted: moment.acted(),
        lane: moment.lane_stepped(),
    }
}

/// The runner becomes the faulty machine of a fault with what is kept of it, and runs its next block, beside the good machine's block, which a moment passed last, and its runs of the phase. It is
/// given up where it takes more process and lane steps than so many; `told` tells it, and `beside` the processes whose runs ended in it. `steps` ticks once for each step that comes to `tried`.
pub(crate) fn run_beside<N: World, L: Ledger>(
    runner: &mut Runner<'_>,
    told: &mut BlockTold,
    behind: &GoodMoment<N>,
    own: &LockstepCopy,
    fault: Fault,
    most: u32,
    goods: &GoodPhase<'_>,
    beside: &mut Beside,
    tried: &mut Vec<TriedStep>,
    steps: &mut Steps<L>,
) -> Result<Option<u32>, NoMemory>
    requires whole { IsWhole runner.old }
    requires run { MayRun (acts_beside behind.now) own.now runner.old }
    requires goods { MayGoBeside (machine_of runner.old) (state_of runner.old) goods.now }
    requires few { AreFew (machine_of runner.old) goods.now most }
    ensures whole { OnOk result (IsWhole runner.new) }
    ensures machine { OnOk result (machine_of runner.new ≡ faulty_machine (machine_of runner.old).design (fault_of fault)) }
    ensures few { IfOk result (λ ran. IfSome ran (λ taken. taken ≤ most)) }
    ensures ran { IfOk result (λ ran. IfSome ran (λ taken. (of : MayRun (acts_beside behind.now) own.now runner.old) (runs : ℕ → List ProcessRun) (numbers : ℕ → ℕ) →
        TellsBeside (machine_of runner.old) (state_of runner.old) runs numbers goods.now →
        RanBlock (faulty_machine (machine_of runner.old).design (fault_of fault)) (acts_beside behind.now) of.put.faulty (state_of runner.old) runs numbers goods.now.phase taken runner.new told.new
        (map process_number beside.new.ended.items) (drop (length tried.old.items) tried.new.items))) }
    ensures ticks { OnOk result (TicksTried tried.old.items tried.new.items steps.old steps.new) }
    ensures most { OnOk result ((of : MayRun (acts_beside behind.now) own.now runner.old) (runs : ℕ → List ProcessRun) (numbers : ℕ → ℕ) →
        TellsBeside (machine_of runner.old) (state_of runner.old) runs numbers goods.now →
        StepsWithin (faulty_machine (machine_of runner.old).design (fault_of fault)) of.put.faulty runs numbers goods.now.phase most (drop (length tried.old.items) tried.new.items)) }
{
    let block = show_block(behind);
    let ran = run_faulty(
        runner, told, own, fault, &block, most, goods, beside, tried, steps,
    )?;
    Ok(ran)
}

/// A block of the faulty machine's own, which the runner took, is compared with the good machine's block, which a moment passed last. The answer is whether lockstep goes on; else nothing
/// is known of what is kept.
pub(crate) fn compare_beside<N: World>(
    alloc: Global,
    setup: &Setup<'_, N>,
    runner: &Runner,
    behind: &GoodMoment<N>,
    told: &BlockTold,
    counts: Counts,
    own: &mut LockstepCopy,
) -> Result<bool, NoMemory>
    requires whole { IsWhole runner.now }
    requires counts { AreCounts N.design counts }
    requires compare { MayCompareBeside N.design (machine_of runner.now) behind.now }
    ensures compares { IfOk result (λ goes. goes ≡ true → (good : State) → ShowsState N.design good behind.now →
        ComparesBeside good (state_of runner.now) behind.now told.now own.old own.new) }
    ensures fault { IfOk result (λ goes. goes ≡ true → own.new.copy.fault ≡ own.old.copy.fault) }
    ensures states { IfOk result (λ goes. goes ≡ true → own.new.copy.states ≡ own.old.copy.states) }
{
    let _codes = setup.codes();
    let good = show(setup, behind);
    let block = show_block(behind);
    let goes = compare_block(alloc, runner, &good, &block, told, counts, own)?;
    Ok(goes)
}

/// A runner that is the faulty machine behind a block of its own, which was compared with the good machine's, becomes the good machine before the block.
pub(crate) fn put_back_to<N: World>(
    setup: &Setup<'_, N>,
    runner: &mut Runner<'_>,
    before: &GoodMoment<N>,
    behind: &GoodMoment<N>,
    told: &BlockTold,
    counts: Counts,
    own: &LockstepCopy,
) -> Result<(), NoMemory>
    requires whole { IsWhole runner.old }
    requires counts { AreCounts N.design counts }
    requires back { MayPutBackTo N.design runner.old before.now behind.now told.now own.now }
    ensures machine { OnOk result (machine_of runner.new ≡ good_machine N.design) }
    ensures state { OnOk result ((of : MayPutBackTo N.design runner.old before.now behind.now told.now own.now) → state_of runner.new ≡ of.good) }
    ensures whole { OnOk result (IsWhole runner.new) }
{
    let _codes = setup.codes();
    let good = show(setup, before);
    let block = show_block(behind);
    put_back(runner, &good, &block, told, counts, own)?;
    Ok(())
}
