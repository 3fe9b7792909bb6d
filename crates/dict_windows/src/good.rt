// What the strobes see of the good machine.

ghost use Rattle.std.specs.Prelude.{◌≡◌, OnOk};
ghost use Rattle.good_trace.specs.Slots.{end_of};
ghost use Rattle.dict_windows.specs.Good.{IsSeenBehind, raced_by};

use good_trace::{GoodEnd, Setup};
use kept_samples::Sample;
use kept_shard::{WindowStrobes, strobes_of};
use run_trace::RunWindow;
use std::alloc::Global;
use v_design::World;
use vf_base::NoMemory;

/// What the plan's strobes saw of the good machine in the windows so far, and whether the last of these ends with its race.
#[derive(Drop)]
pub(crate) struct GoodSeen {
    pub samples: Vec<Sample>,
    pub raced: bool,
}

/// Whether a window ends with the good machine's race.
fn is_raced(ending: GoodEnd) -> bool
    ensures { result ≡ raced_by (end_of ending) }
{
    match ending {
        GoodEnd::Open => false,
        GoodEnd::Through => false,
        GoodEnd::Raced(_) => true,
    }
}

/// What they saw before the first window: nothing.
pub(crate) fn nothing_seen<N: World>(alloc: Global, setup: &Setup<'_, N>) -> GoodSeen
    ensures { IsSeenBehind N.design N.plan 0 result }
{
    beside_laws::good_run_goes_on();
    let _design = setup.design();
    GoodSeen {
        samples: Vec::new(alloc),
        raced: false,
    }
}

/// Puts what they see of the good machine in the next window behind it.
pub(crate) fn see_window<N: World>(
    alloc: Global,
    setup: &Setup<'_, N>,
    window: &RunWindow<N>,
    seen: &mut GoodSeen,
) -> Result<(), NoMemory>
    requires { IsSeenBehind N.design N.plan window.now.before seen.old }
    ensures { OnOk result (IsSeenBehind N.design N.plan window.now.through seen.new) }
{
    let _plan = setup.plan();
    let strobes = strobes_of(alloc, setup, window.window(), seen.samples.len())?;
    let WindowStrobes {
        samples,
        ending,
        ..
    } = strobes;
    let mut samples = samples;
    seen.samples.append(&mut samples)?;
    seen.raced = is_raced(ending);
    Ok(())
}
