// Up to which moment events leave alone what is kept.

ghost use Rattle.std.specs.Prelude.{◌≡◌, ◌<◌, ◌≤◌, true, length, map, IfOk};
ghost use Rattle.std.specs.List.{AllZip, fold};
ghost use Rattle.vf_base.specs.Lists.{AllHold, has};
ghost use Rattle.v_design.specs.Plain.{site_of};
ghost use Rattle.trace_window.specs.Moments.{window_events};
ghost use Rattle.slot_laws.specs.copy_skip.Limits.{AreThere, SiteIsThere};
ghost use Rattle.slot_laws.specs.block_skip.Blocks.{AreProcesses, LeftAlone};
ghost use Rattle.phase_faults.specs.Beside.{HasSite, IsThereIf, LooksAhead, sooner, stop_of};

use crate::beside::FaultBeside;
use crate::view::LockstepWindow;
use good_trace::Setup;
use next_touches::NextTouches;
use slot_laws::LockstepCopy;
use std::alloc::Global;
use v_design::{Fault, World};
use vf_base::NoMemory;

/// The moment up to which all events from a moment on leave alone what is kept of a fault, if not the beginning of a block before; at most the end of the phase.
fn untouched_until<N: World>(
    setup: &Setup<'_, N>,
    view: &LockstepWindow<'_, N>,
    touches: &mut NextTouches<N>,
    fault: Fault,
    own: &LockstepCopy,
    moment: u32,
    end: u32,
) -> u32
    requires objects { AreThere N.design own.now.copy.values }
    requires site { SiteIsThere N.design (site_of fault.site) }
    requires processes { AreProcesses N.design own.now.copy.updates }
    requires order { moment ≤ end }
    requires end { moment < end → end ≤ length (window_events N.design N.plan view.now.window.now.before view.now.window.now.through) }
    ensures low { moment ≤ result }
    ensures high { result ≤ end }
    ensures begins { moment < result → result < end → has view.now.blocks.now.moments result ≡ true }
    ensures alone { LeftAlone N.design (site_of fault.site) own.now.copy (window_events N.design N.plan view.now.window.now.before view.now.window.now.through) moment result }
{
    if moment == end {
        return moment;
    }
    let limit = touches.copy_limit(setup, view.window, &own.copy, fault, moment, end);
    if limit == end {
        return limit;
    }
    let Some(block) = view.blocks.block_at(limit) else {
        return moment;
    };
    let begins = view.blocks.moments()[block];
    if begins <= moment {
        return moment;
    }
    begins
}

/// Looks ahead from a moment on for a fault that still goes. What `touches` knows of the window is used, and more is put to it.
pub fn look_ahead<N: World>(
    setup: &Setup<'_, N>,
    view: &LockstepWindow<'_, N>,
    touches: &mut NextTouches<N>,
    each: &mut FaultBeside,
    moment: u32,
    end: u32,
)
    requires site { HasSite N.design each.old }
    requires kept { IsThereIf N.design each.old }
    requires order { moment ≤ end }
    requires end { moment < end → end ≤ length (window_events N.design N.plan view.now.window.now.before view.now.window.now.through) }
    ensures { LooksAhead N.design N.plan view.now.window.now.before view.now.window.now.through view.now.blocks.now.moments moment end each.old each.new }
{
    let goes = each.goes;
    if !goes {
        return;
    }
    let until = untouched_until(setup, view, touches, each.fault, &each.one.own, moment, end);
    each.until = until;
}

/// The same for all of some faults.
pub fn look_ahead_all<N: World>(
    setup: &Setup<'_, N>,
    view: &LockstepWindow<'_, N>,
    touches: &mut NextTouches<N>,
    faults: &mut Vec<FaultBeside>,
    moment: u32,
    end: u32,
)
    requires sites { AllHold (HasSite N.design) faults.old.items }
    requires kept { AllHold (IsThereIf N.design) faults.old.items }
    requires order { moment ≤ end }
    requires end { moment < end → end ≤ length (window_events N.design N.plan view.now.window.now.before view.now.window.now.through) }
    ensures { AllZip (LooksAhead N.design N.plan view.now.window.now.before view.now.window.now.through view.now.blocks.now.moments moment end) faults.old.items faults.new.items }
{
    'faults: for place in 0..faults.len() {
        let each = &mut faults[place];
        look_ahead(setup, view, touches, each, moment, end);
    }
}

/// The stop of a fault in a phase that ends with a moment; one that goes no longer has none before the end.
pub fn stop_of(each: &FaultBeside, end: u32) -> u32
    ensures { result ≡ stop_of end each.now }
{
    let goes = each.goes;
    let until = each.until;
    if !goes {
        return end;
    }
    until
}

/// The stops of some faults, one after the other: what is looked for in all of them at each block stands close together so.
///
/// # Errors
///
/// Want of memory.
pub fn stops_of(alloc: Global, faults: &[FaultBeside], end: u32) -> Result<Vec<u32>, NoMemory>
    ensures { IfOk result (λ stops. stops.items ≡ map (stop_of end) faults.now) }
{
    let mut stops = Vec::with_capacity(alloc, faults.len())?;
    'faults: for each in faults {
        let stop = stop_of(each, end);
        stops.push(stop)?;
    }
    Ok(stops)
}

/// The least of some stops, at most the end of the phase.
pub fn least_stop(stops: &[u32], end: u32) -> u32
    ensures { result ≡ fold sooner end stops.now }
{
    let mut least = end;
    'stops: for stop in stops {
        let next = *stop;
        least = next.min(least);
    }
    least
}
