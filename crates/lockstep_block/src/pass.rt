// The room from one block to the next.

ghost use Rattle.std.specs.Prelude.{◌≡◌, ◌<◌, OnOk};
ghost use Rattle.faulty_block.specs.lockstep_room.Rooms.{AreCounts};
ghost use Rattle.lockstep_steps.specs.lockstep_slots.Places.{behind_events};
ghost use Rattle.v_design.specs.Designs.{good_machine};
ghost use Rattle.faulty_block.specs.block_events.Runners.{IsWhole, machine_of};
ghost use Rattle.lockstep_block.specs.Rooms.{CanFollow, IsRunnerAt, MayStandThere};

use crate::beside::show;
use faulty_block::{Counts, Runner, follow, stand};
use good_moment::GoodMoment;
use good_trace::Setup;
use v_design::World;
use vf_base::NoMemory;

/// The runner follows the good machine over the block that the later moment tells, and comes behind it.
///
/// # Errors
///
/// Want of memory. The runner isn't to be used again then.
pub fn follow_block<N: World>(
    setup: &Setup<'_, N>,
    runner: &mut Runner<'_>,
    behind: &GoodMoment<N>,
    counts: Counts,
) -> Result<(), NoMemory>
    requires counts { AreCounts N.design counts }
    requires here { CanFollow N.design N.plan runner.old behind.now }
    ensures { OnOk result ((of : CanFollow N.design N.plan runner.old behind.now) → IsRunnerAt N.design (behind_events of.block of.rest of.place) runner.new) }
{
    copy_laws::own_runs();
    lockstep_laws::phases_fit();
    moments_stand::moments_stand();
    let _codes = setup.codes();
    let shown = show(setup, behind);
    follow(
        runner,
        &shown,
        counts,
        behind.changed(),
        behind.acted(),
        behind.lane_stepped(),
    )?;
    Ok(())
}

/// The runner comes into the good machine's state at a moment, which is at a time in steps, whatever its state was before.
///
/// # Errors
///
/// Want of memory. The runner isn't to be used again then.
pub fn stand_at<N: World>(
    setup: &Setup<'_, N>,
    runner: &mut Runner<'_>,
    good: &GoodMoment<N>,
    time: u64,
    counts: Counts,
) -> Result<(), NoMemory>
    requires whole { IsWhole runner.old }
    requires design { machine_of runner.old ≡ good_machine N.design }
    requires counts { AreCounts N.design counts }
    requires good { MayStandThere N.design N.plan time good.now }
    ensures { OnOk result ((of : MayStandThere N.design N.plan time good.now) → IsRunnerAt N.design of.place runner.new) }
{
    lockstep_laws::phases_fit();
    let _codes = setup.codes();
    let shown = show(setup, good);
    stand(runner, &shown, time, counts)?;
    Ok(())
}
