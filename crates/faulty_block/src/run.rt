// A block of a faulty machine.

ghost use Rattle.std.specs.Prelude.{◌≡◌, ◌≤◌, ℕ, List, drop, length, map, IfOk, IfSome, OnOk};
ghost use Rattle.vf_base.specs.Base.{process_number};
ghost use Rattle.v_design.specs.Designs.{faulty_machine};
ghost use Rattle.v_design.specs.OwnSteps.{ProcessRun};
ghost use Rattle.v_design.specs.Plain.{fault_of};
ghost use Rattle.block_compare.specs.block_events.Runners.{IsWhole, machine_of, state_of};
ghost use Rattle.block_runner.specs.Beside.{AreFew, MayGoBeside, TellsBeside};
ghost use Rattle.block_runner.specs.Ends.{TicksTried};
ghost use Rattle.block_runner.specs.declared.blocks.BlockEnd.TheVariants.{Ran};
ghost use Rattle.faulty_block.specs.Runs.{MayRun, RanBlock, StepsWithin, acts_in};

use block_compare::{LockstepCopy, Runner, ShownBlock, put_in};
use block_runner::{Beside, BlockEnd, GoodPhase, run_block};
use block_told::BlockTold;
use good_runs::TriedStep;
use std::sync::ledger::Ledger;
use v_design::Fault;
use vf_base::{NoMemory, Steps};

/// How many process and lane steps a block took, if it was run to its end in so many at most.
fn steps_within(end: BlockEnd, told: &BlockTold, most: u32) -> Option<u32>
    ensures end { IfSome result (λ taken. end ≡ Ran) }
    ensures steps { IfSome result (λ taken. told.now.steps ≡ taken) }
    ensures few { IfSome result (λ taken. taken ≤ most) }
{
    let BlockEnd::Ran = end else {
        return None;
    };
    if u64::from(most) < told.steps {
        return None;
    }
    let taken = told.steps as u32;
    Some(taken)
}

/// A runner in the good machine's state becomes the faulty machine of a fault with what is kept of it, and runs its next block, beside the good machine's block that is shown and its runs of the
/// phase. The answer is how many process and lane steps it took, if it was run to its end in so many at most; `told` tells it, and `beside` which processes ended their runs in it. Of the updates that
/// are kept those alone are put in that the good block's processes have: no event sees the others. A step of a run that goes as the good machine's is brought on as that was, and isn't ticked; each
/// other one is put to `tried`, and `steps` ticks once for it, whether the block was run to its end or not.
///
/// # Errors
///
/// Want of memory. The runner isn't to be used again then.
pub fn run_faulty<L: Ledger>(
    runner: &mut Runner<'_>,
    told: &mut BlockTold,
    own: &LockstepCopy,
    fault: Fault,
    block: &ShownBlock,
    most: u32,
    goods: &GoodPhase<'_>,
    beside: &mut Beside,
    tried: &mut Vec<TriedStep>,
    steps: &mut Steps<L>,
) -> Result<Option<u32>, NoMemory>
    requires whole { IsWhole runner.old }
    requires run { MayRun (acts_in block.now) own.now runner.old }
    requires goods { MayGoBeside (machine_of runner.old) (state_of runner.old) goods.now }
    requires few { AreFew (machine_of runner.old) goods.now most }
    ensures whole { OnOk result (IsWhole runner.new) }
    ensures machine { OnOk result (machine_of runner.new ≡ faulty_machine (machine_of runner.old).design (fault_of fault)) }
    ensures few { IfOk result (λ ran. IfSome ran (λ taken. taken ≤ most)) }
    ensures ran { IfOk result (λ ran. IfSome ran (λ taken. (of : MayRun (acts_in block.now) own.now runner.old) (runs : ℕ → List ProcessRun) (numbers : ℕ → ℕ) →
        TellsBeside (machine_of runner.old) (state_of runner.old) runs numbers goods.now →
        RanBlock (faulty_machine (machine_of runner.old).design (fault_of fault)) (acts_in block.now) of.put.faulty (state_of runner.old) runs numbers goods.now.phase taken runner.new told.new
        (map process_number beside.new.ended.items) (drop (length tried.old.items) tried.new.items))) }
    ensures ticks { OnOk result (TicksTried tried.old.items tried.new.items steps.old steps.new) }
    ensures most { OnOk result ((of : MayRun (acts_in block.now) own.now runner.old) (runs : ℕ → List ProcessRun) (numbers : ℕ → ℕ) →
        TellsBeside (machine_of runner.old) (state_of runner.old) runs numbers goods.now →
        StepsWithin (faulty_machine (machine_of runner.old).design (fault_of fault)) of.put.faulty runs numbers goods.now.phase most (drop (length tried.old.items) tried.new.items)) }
{
    copy_laws::own_runs();
    lockstep_laws::lockstep_is_beside();
    unseen_writes::writes_are_unseen();
    put_in(runner, own, fault, block.acted, block.lane)?;
    let end = run_block(runner, told, most, goods, beside, tried, steps)?;
    Ok(steps_within(end, told, most))
}
