// Whether a window leaves a copy alone.

ghost use Rattle.std.specs.Prelude.{◌≡◌, ◌+◌, ◌<◌, ◌≤◌};
ghost use Rattle.v_design.specs.Plain.{fault_of, site_of};
ghost use Rattle.good_trace.specs.Slots.{end_of};
ghost use Rattle.copy_skip.specs.Limits.{AreThere, SiteIsThere};
ghost use Rattle.copy_pass.specs.Alone.{IsAlone, fine_slots};

use copy_skip::next_touched;
use copy_state::FaultCopy;
use good_trace::{GoodEnd, Setup, TraceWindow};
use v_design::{Fault, World};

/// How many slots of a window of so many come before the good machine's race, if the last one has a race.
pub(crate) fn fine_slots(ending: GoodEnd, count: u32) -> u32
    requires { 0 < count }
    ensures { result ≡ fine_slots (end_of ending) count }
{
    match ending {
        GoodEnd::Open => count,
        GoodEnd::Through => count,
        GoodEnd::Raced(_) => count - 1,
    }
}

/// Copies with more values than this are run: so many searches would cost more than a run.
const MOST_VALUES: usize = 256;

/// How many first slots of a window have no event that touches what a copy of a fault keeps, where this is values alone; none where it isn't.
pub(crate) fn slots_alone<N: World>(
    setup: &Setup<'_, N>,
    window: &TraceWindow<N>,
    fault: Fault,
    copy: &FaultCopy,
) -> u32
    requires objects { AreThere N.design copy.now.values }
    requires site { SiteIsThere N.design (site_of fault.site) }
    ensures within { window.now.before + result ≤ window.now.through }
    ensures alone { 0 < result → IsAlone N.design N.plan (fault_of fault) window.now.before (window.now.before + result) copy.now }
{
    let _first = window.begins();
    if copy.size() > MOST_VALUES {
        return 0;
    }
    next_touched(setup, window, copy, fault, 0)
}
