// The next slot that may touch a copy.

ghost use Rattle.std.specs.Prelude.{◌≡◌, ℕ, ◌+◌, ◌<◌, ◌≤◌, [], length, true, false};
ghost use Rattle.v_design.specs.Plain.{fault_of, site_of};
ghost use Rattle.trace_window.specs.Moments.{window_events};
ghost use Rattle.copy_state.specs.Kept.{differences_of};
ghost use Rattle.quiet_index.specs.PassOver.{SlotsLeaveAlone};
ghost use Rattle.copy_skip.specs.Limits.{SiteIsThere, AreThere};

use crate::limits::{site_limit, values_limit};
use copy_state::FaultCopy;
use good_trace::{Setup, TraceWindow};
use v_design::{Fault, World};
use vf_base::ProcId;

/// Whether a copy keeps the state or the updates of some process.
fn keeps_processes(copy: &FaultCopy) -> bool
    ensures none { result ≡ false → (copy.now.states ≡ []) × (copy.now.updates ≡ []) }
{
    copy.next_state(ProcId(0)).is_some() || copy.next_updates(ProcId(0)).is_some()
}

/// The slot from which on, from a given one, some event doesn't come before a moment; behind the last slot where all come before it. Slots are numbered as in the window.
fn slot_through<N: World>(window: &TraceWindow<N>, slot: u32, limit: u32) -> u32
    requires slot { window.now.before + slot ≤ window.now.through }
    ensures since { slot ≤ result }
    ensures within { window.now.before + result ≤ window.now.through }
    ensures before { slot < result → length (window_events N.design N.plan window.now.before (window.now.before + result)) ≤ limit }
{
    let count = window.slots();
    let mut through = slot;
    'slots: while through < count {
        let end = window.first_moment(through + 1);
        if limit < end {
            return through;
        }
        through += 1;
    }
    through
}

/// The first slot of a window, from a given one on, that may touch a copy of a fault; behind the last slot where none may. Slots are numbered as in the window. All
/// slots from the given one to before the answer leave the copy alone. Where the copy keeps something of a process the answer is the given slot.
pub fn next_touched<N: World>(
    setup: &Setup<'_, N>,
    window: &TraceWindow<N>,
    copy: &FaultCopy,
    fault: Fault,
    slot: u32,
) -> u32
    requires slot { window.now.before + slot ≤ window.now.through }
    requires objects { AreThere N.design copy.now.values }
    requires site { SiteIsThere N.design (site_of fault.site) }
    ensures since { slot ≤ result }
    ensures within { window.now.before + result ≤ window.now.through }
    ensures values { slot < result → (copy.now.states ≡ []) × (copy.now.updates ≡ []) }
    ensures alone { SlotsLeaveAlone N.design N.plan (fault_of fault) (differences_of setup.now.codes copy.now) (window.now.before + slot) (window.now.before + result) }
{
    if keeps_processes(copy) {
        return slot;
    }
    let first = window.first_moment(slot);
    let own = values_limit(setup, window, copy, first, window.moments());
    let limit = site_limit(window, fault, first, own);
    slot_through(window, slot, limit)
}
