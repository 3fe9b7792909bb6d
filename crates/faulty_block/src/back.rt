// Back to the good state before a block.

ghost use Rattle.std.specs.Prelude.{◌≡◌, OnOk};
ghost use Rattle.v_design.specs.Designs.{good_machine};
ghost use Rattle.block_compare.specs.block_events.Runners.{IsWhole, machine_of, state_of};
ghost use Rattle.block_compare.specs.lockstep_room.Rooms.{AreCounts};
ghost use Rattle.faulty_block.specs.Back.{MayPutBack};

use block_compare::{Counts, LockstepCopy, Runner, ShownBlock, ShownMoment, bring, take_out};
use block_told::BlockTold;
use vf_base::NoMemory;

/// A runner that is a faulty machine behind a block of its own, which was compared with the good machine's, becomes the good machine before the block, in the state that is
/// shown: what either block changed, and the objects of which a value is kept behind them, come to be as they were in the good machine.
///
/// # Errors
///
/// Want of memory. The runner isn't to be used again then.
pub fn put_back(
    runner: &mut Runner<'_>,
    before: &ShownMoment,
    block: &ShownBlock,
    told: &BlockTold,
    counts: Counts,
    own: &LockstepCopy,
) -> Result<(), NoMemory>
    requires whole { IsWhole runner.old }
    requires counts { AreCounts (machine_of runner.old).design counts }
    requires back { MayPutBack runner.old before.now block.now told.now own.now }
    ensures machine { OnOk result (machine_of runner.new ≡ good_machine (machine_of runner.old).design) }
    ensures state { OnOk result ((of : MayPutBack runner.old before.now block.now told.now own.now) → state_of runner.new ≡ of.good) }
    ensures whole { OnOk result (IsWhole runner.new) }
{
    bring(
        runner,
        before,
        counts,
        told.changed.as_slice(),
        block.acted,
        block.lane,
    )?;
    bring(runner, before, counts, block.changed, &[], None)?;
    take_out(runner, before, own);
    Ok(())
}
