// The faults of a shard before a slot.

ghost use Rattle.std.specs.Prelude.{◌≡◌, ◌+◌, ◌<◌, ◌≤◌, None, Some, IfOk, OnOk, slice_get};
ghost use Rattle.std.specs.List.{AllZip};
ghost use Rattle.v_design.specs.Plain.{fault_of};
ghost use Rattle.copy_lockstep.specs.Stops.{NoStopThrough};
ghost use Rattle.copy_lockstep.specs.copy_window.ShardFaults.{SameFault};
ghost use Rattle.copy_lockstep.specs.window_faults.Steps.{StaysFault};
ghost use Rattle.copy_lockstep.specs.window_faults.Within.{AreWithin, IsWithin};
ghost use Rattle.shard_slots.specs.Slots.{EntersIf, HaveEntered};

use crate::entrants::{Entrants, push_found};
use crate::let_go::let_go_ended;
use copy_lockstep::{
    Entered, Entering, FaultAt, FaultBeside, LockstepWindow, Reached, ShardFault, enter,
    listed_fault,
};
use good_trace::Setup;
use std::alloc::Global;
use v_design::{Fault, World};
use vf_base::NoMemory;

/// A fault before a slot to which it has come: it is passed over the slot and further ones, its grading ends, or it enters the slot in lockstep, if it may.
fn enter_open<N: World>(
    alloc: Global,
    setup: &Setup<'_, N>,
    view: &LockstepWindow<'_, N>,
    fault: Fault,
    own: &mut ShardFault,
    at: &mut FaultAt,
    last: u32,
) -> Result<Option<FaultBeside>, NoMemory>
    requires some { 0 < view.now.window.now.before }
    requires slot { view.now.window.now.before + at.old.slot < view.now.window.now.through }
    requires last { view.now.window.now.before + last ≤ view.now.window.now.through }
    requires fine { NoStopThrough N.design N.plan (view.now.window.now.before + last) }
    requires listed { slice_get N.plan.faults own.old.copy.fault ≡ Some (fault_of fault) }
    requires none { own.old.end ≡ None }
    requires within { IsWithin N.design N.plan view.now.window.now.before view.now.window.now.through own.old at.old }
    ensures enters { IfOk result (EntersIf N.design N.plan view.now.window.now.before view.now.window.now.through at.old.slot own.new at.new) }
    ensures place { OnOk result (SameFault own.old own.new) }
    ensures further { OnOk result (at.old.slot ≤ at.new.slot) }
{
    beside_laws::faults_go_on();
    let design = setup.design();
    // The window has more slots than that, and their number fits.
    let _all = view.window.slots();
    let reached = Reached {
        slot: at.slot,
        passed: at.passed,
    };
    let entered = enter(alloc, setup, view, fault, own, reached, last)?;
    match entered {
        Entered::Passed(further) => {
            at.slot = further.slot;
            at.passed = further.passed;
            Ok(None)
        }
        Entered::Ended => {
            let_go_ended(alloc, own);
            at.slot += 1;
            Ok(None)
        }
        Entered::Whole => Ok(None),
        Entered::On(entering) => {
            let Entering {
                one,
                passed,
                possible,
            } = entering;
            at.seen = passed;
            at.possible = possible;
            Ok(Some(FaultBeside {
                fault,
                one,
                until: 0,
                goes: true,
            }))
        }
    }
}

/// A fault before a slot to which it has come, or which it passed.
fn enter_one<N: World>(
    alloc: Global,
    setup: &Setup<'_, N>,
    view: &LockstepWindow<'_, N>,
    own: &mut ShardFault,
    at: &mut FaultAt,
    slot: u32,
    last: u32,
) -> Result<Option<FaultBeside>, NoMemory>
    requires some { 0 < view.now.window.now.before }
    requires slot { view.now.window.now.before + slot < view.now.window.now.through }
    requires last { view.now.window.now.before + last ≤ view.now.window.now.through }
    requires fine { NoStopThrough N.design N.plan (view.now.window.now.before + last) }
    requires within { IsWithin N.design N.plan view.now.window.now.before view.now.window.now.through own.old at.old }
    requires come { own.old.end ≡ None → slot ≤ at.old.slot }
    ensures enters { IfOk result (EntersIf N.design N.plan view.now.window.now.before view.now.window.now.through slot own.new at.new) }
    ensures stays { OnOk result (StaysFault own.old own.new) }
{
    let design = setup.design();
    let fault = listed_fault(setup, &own.copy);
    if own.end.is_some() {
        return Ok(None);
    }
    if slot < at.slot {
        return Ok(None);
    }
    let found = enter_open(alloc, setup, view, fault, own, at, last)?;
    Ok(found)
}

/// The faults of a shard before a slot.
///
/// # Errors
///
/// Want of memory.
pub(crate) fn enter_each<N: World>(
    alloc: Global,
    setup: &Setup<'_, N>,
    view: &LockstepWindow<'_, N>,
    faults: &mut Vec<ShardFault>,
    ats: &mut Vec<FaultAt>,
    slot: u32,
    last: u32,
) -> Result<Entrants, NoMemory>
    requires some { 0 < view.now.window.now.before }
    requires slot { view.now.window.now.before + slot < view.now.window.now.through }
    requires last { view.now.window.now.before + last ≤ view.now.window.now.through }
    requires fine { NoStopThrough N.design N.plan (view.now.window.now.before + last) }
    requires within { AreWithin N.design N.plan view.now.window.now.before view.now.window.now.through slot faults.old.items ats.old.items }
    ensures entered { IfOk result (λ entrants. HaveEntered N.design N.plan view.now.window.now.before view.now.window.now.through slot faults.new.items ats.new.items
        entrants.entered.items entrants.besides.items) }
    ensures faults { OnOk result (AllZip StaysFault faults.old.items faults.new.items) }
{
    let mut entered = Vec::with_capacity(alloc, faults.len())?;
    let mut besides = Vec::new(alloc);
    'faults: for place in 0..faults.len() {
        let own = &mut faults[place];
        let at = &mut ats[place];
        let found = enter_one(alloc, setup, view, own, at, slot, last)?;
        push_found(&mut entered, &mut besides, found)?;
    }
    Ok(Entrants { entered, besides })
}
