// The slots of a window that may be gone through in lockstep.

ghost use Rattle.std.specs.Prelude.{◌≡◌, ◌+◌, ◌<◌, ◌≤◌, length};
ghost use Rattle.copy_laws.specs.Windows.{good_slots};
ghost use Rattle.lockstep_due.specs.window_strobes.Strobes.{AreStrobesOf};
ghost use Rattle.copy_lockstep.specs.Stops.{NoStopThrough};

use good_trace::{GoodEnd, Setup, TraceWindow};
use lockstep_due::WindowStrobes;
use v_design::World;

/// The slot of a window up to which a fault may be passed over its slots: behind each of those before it another one comes.
pub(crate) fn end_of_passing<N: World>(setup: &Setup<'_, N>, window: &TraceWindow<N>) -> u32
    ensures within { window.now.before + result ≤ window.now.through }
    ensures more { window.now.before + result < length (good_slots N.design N.plan) }
    ensures most { window.now.through ≤ window.now.before + result + 1 }
    ensures all { window.now.through < length (good_slots N.design N.plan) → window.now.before + result ≡ window.now.through }
{
    beside_laws::good_run_goes_on();
    beside_laws::windows_end();
    let design = setup.design();
    let _first = window.begins();
    let slots = window.slots();
    match window.ending() {
        GoodEnd::Open => slots,
        GoodEnd::Through => slots - 1,
        GoodEnd::Raced(_) => slots - 1,
    }
}

/// The slot of a window up to which its slots may be gone through in lockstep: none of those before it is the good machine's stop. The strobes are the window's.
pub fn end_of_lockstep<N: World>(
    setup: &Setup<'_, N>,
    window: &TraceWindow<N>,
    strobes: &WindowStrobes,
) -> u32
    requires { AreStrobesOf N.design N.plan window.now.before window.now.through strobes.now }
    ensures within { window.now.before + result ≤ window.now.through }
    ensures fine { NoStopThrough N.design N.plan (window.now.before + result) }
{
    let _first = window.begins();
    let slots = window.slots();
    match strobes.ending {
        GoodEnd::Open => slots,
        GoodEnd::Through => slots,
        GoodEnd::Raced(_) => slots - 1,
    }
}
