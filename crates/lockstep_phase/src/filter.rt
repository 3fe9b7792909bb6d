// The filter of a phase, asked of each fault.

ghost use Rattle.std.specs.List.{AllZip};
ghost use Rattle.lockstep_turn.specs.phase_faults.Beside.{AsksFilter};

use good_trace::Setup;
use lockstep_turn::{FaultBeside, FilterRoom, LockstepWindow, is_free};
use v_design::World;

/// Asks the race filter of a fault that still goes, behind a phase of a slot that ends with a moment.
fn ask_filter<N: World>(
    setup: &Setup<'_, N>,
    view: &LockstepWindow<'_, N>,
    room: &mut FilterRoom<'_, N>,
    each: &mut FaultBeside,
    slot: u32,
    end: u32,
)
    ensures { AsksFilter N.design N.plan view.now.window.now.before view.now.window.now.through end each.old each.new }
{
    let goes = each.goes;
    if !goes {
        return;
    }
    let free = is_free(setup, view.window, &each.one.notes, room, slot, end);
    each.goes = free;
}

/// The same of all of some faults.
pub(crate) fn ask_all<N: World>(
    setup: &Setup<'_, N>,
    view: &LockstepWindow<'_, N>,
    room: &mut FilterRoom<'_, N>,
    faults: &mut Vec<FaultBeside>,
    slot: u32,
    end: u32,
)
    ensures { AllZip (AsksFilter N.design N.plan view.now.window.now.before view.now.window.now.through end) faults.old.items faults.new.items }
{
    'faults: for place in 0..faults.len() {
        let each = &mut faults[place];
        ask_filter(setup, view, room, each, slot, end);
    }
}
