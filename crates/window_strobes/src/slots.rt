// The slots of a window up to a time.

ghost use Rattle.std.specs.Prelude.{◌+◌, ◌≤◌};
ghost use Rattle.window_strobes.specs.Slots.{BeginsBy, ComesTo};

use good_trace::TraceWindow;
use v_design::World;

/// How many slots of a window begin by a time, in steps, where so many are known to.
pub(crate) fn slots_by<N: World>(window: &TraceWindow<N>, from: u32, time: u64) -> u32
    requires fits { window.now.before + from ≤ window.now.through }
    requires begun { BeginsBy N.design N.plan (window.now.before + from) time }
    ensures { ComesTo N.design N.plan window.now.before window.now.through time result }
{
    let count = window.slots();
    'slots: for slot in from..count {
        if time < window.slot_time(slot) {
            return slot;
        }
    }
    count
}
