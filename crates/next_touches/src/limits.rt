// Moments before which no event touches a copy, by what is remembered.

ghost use Rattle.std.specs.Prelude.{◌<◌, ◌≤◌, length, map};
ghost use Rattle.vf_base.specs.Base.{object_number, process_number};
ghost use Rattle.v_design.specs.Plain.{site_of};
ghost use Rattle.copy_laws.specs.Differences.{Ascend};
ghost use Rattle.copy_state.specs.Listed.{entry_of};
ghost use Rattle.trace_window.specs.Acted.{stepped_at};
ghost use Rattle.trace_window.specs.Moments.{window_events};
ghost use Rattle.block_skip.specs.Blocks.{AreProcesses, LeftAlone, StepsLeftAlone};
ghost use Rattle.copy_skip.specs.Limits.{AreLeftAlone, AreThere, IsLeftAlone, NoneBetween, SiteIsThere};
ghost use Rattle.next_touches.specs.Touches.{AreLeftBy, AreStepsBy, KnowsTouches};

use crate::search::{object_limit, step_limit};
use crate::stretch::{Stretch, has_moment};
use crate::table::{TouchTable, take_up};
use copy_skip::site_limit;
use copy_state::{Entry, FaultCopy};
use four_value::Vec4;
use good_trace::{Setup, TraceWindow};
use v_design::{Fault, World};
use vf_base::{ObjectId, ProcId};

/// A moment up to which all events of a window from another on leave an object alone, as a search finds it; it is remembered.
#[inline(never)]
fn found_until<N: World>(
    setup: &Setup<'_, N>,
    window: &TraceWindow<N>,
    objects: &mut Vec<Stretch>,
    object: ObjectId,
    first: u32,
) -> u32
    requires there { object_number object < length N.design.objects }
    requires known { AreLeftBy N.design (window_events N.design N.plan window.now.before window.now.through) objects.old.items }
    ensures alone { IsLeftAlone N.design (window_events N.design N.plan window.now.before window.now.through) (object_number object) first result }
    ensures known { AreLeftBy N.design (window_events N.design N.plan window.now.before window.now.through) objects.new.items }
{
    let until = object_limit(setup, window, object, first);
    objects[object.0 as usize] = Stretch { from: first, until };
    until
}

/// The same moment, which is searched for where it isn't remembered.
// The loops over what is kept call it for each value, and most are remembered.
#[inline(always)]
fn object_until<N: World>(
    setup: &Setup<'_, N>,
    window: &TraceWindow<N>,
    objects: &mut Vec<Stretch>,
    object: ObjectId,
    first: u32,
) -> u32
    requires there { object_number object < length N.design.objects }
    requires known { AreLeftBy N.design (window_events N.design N.plan window.now.before window.now.through) objects.old.items }
    ensures alone { IsLeftAlone N.design (window_events N.design N.plan window.now.before window.now.through) (object_number object) first result }
    ensures known { AreLeftBy N.design (window_events N.design N.plan window.now.before window.now.through) objects.new.items }
{
    let known = objects[object.0 as usize];
    if has_moment(known, first) {
        return known.until;
    }
    found_until(setup, window, objects, object, first)
}

/// The limit, or a lesser moment, before which all events from a first one on leave all objects alone of which a value is listed.
fn listed_limit<N: World>(
    setup: &Setup<'_, N>,
    window: &TraceWindow<N>,
    objects: &mut Vec<Stretch>,
    listed: &[Entry<Vec4>],
    first: u32,
    limit: u32,
) -> u32
    requires there { AreThere N.design (map entry_of listed.now) }
    requires ascend { Ascend (map entry_of listed.now) }
    requires known { AreLeftBy N.design (window_events N.design N.plan window.now.before window.now.through) objects.old.items }
    ensures low { result ≤ limit }
    ensures alone { AreLeftAlone N.design (window_events N.design N.plan window.now.before window.now.through) (map entry_of listed.now) (length N.design.objects) first result }
    ensures known { AreLeftBy N.design (window_events N.design N.plan window.now.before window.now.through) objects.new.items }
{
    let mut least = limit;
    'objects: for own in listed {
        let until = object_until(setup, window, objects, ObjectId(own.number), first);
        least = least.min(until);
    }
    least
}

/// The same of all objects of which a copy keeps a value, as one after the other is found.
fn found_limit<N: World>(
    setup: &Setup<'_, N>,
    window: &TraceWindow<N>,
    objects: &mut Vec<Stretch>,
    copy: &FaultCopy,
    first: u32,
    limit: u32,
) -> u32
    requires there { AreThere N.design copy.now.values }
    requires known { AreLeftBy N.design (window_events N.design N.plan window.now.before window.now.through) objects.old.items }
    ensures low { result ≤ limit }
    ensures alone { AreLeftAlone N.design (window_events N.design N.plan window.now.before window.now.through) copy.now.values (length N.design.objects) first result }
    ensures known { AreLeftBy N.design (window_events N.design N.plan window.now.before window.now.through) objects.new.items }
{
    copy.ascending();
    let design = setup.design();
    let mut least = limit;
    let mut next = copy.next_held(ObjectId(0), 0);
    'objects: while let Some(held) = next {
        let until = object_until(setup, window, objects, held.object, first);
        least = least.min(until);
        next = copy.next_held(ObjectId(held.object.0 + 1), held.hint);
    }
    least
}

/// The limit, or a lesser moment, before which all events from a first one on leave all objects alone of which a copy keeps a value.
fn values_limit<N: World>(
    setup: &Setup<'_, N>,
    window: &TraceWindow<N>,
    objects: &mut Vec<Stretch>,
    copy: &FaultCopy,
    first: u32,
    limit: u32,
) -> u32
    requires there { AreThere N.design copy.now.values }
    requires known { AreLeftBy N.design (window_events N.design N.plan window.now.before window.now.through) objects.old.items }
    ensures low { result ≤ limit }
    ensures alone { AreLeftAlone N.design (window_events N.design N.plan window.now.before window.now.through) copy.now.values (length N.design.objects) first result }
    ensures known { AreLeftBy N.design (window_events N.design N.plan window.now.before window.now.through) objects.new.items }
{
    copy.ascending();
    match copy.listed() {
        Some(listed) => listed_limit(setup, window, objects, listed, first, limit),
        None => found_limit(setup, window, objects, copy, first, limit),
    }
}

/// A moment up to which neither a process nor its lane takes a step from another on; it is remembered.
fn step_until<N: World>(
    window: &TraceWindow<N>,
    processes: &mut Vec<Stretch>,
    process: ProcId,
    first: u32,
) -> u32
    requires there { process_number process < length N.design.processes }
    requires known { AreStepsBy N.design (window_events N.design N.plan window.now.before window.now.through) processes.old.items }
    ensures steps { NoneBetween (stepped_at (window_events N.design N.plan window.now.before window.now.through) (process_number process)) first result }
    ensures known { AreStepsBy N.design (window_events N.design N.plan window.now.before window.now.through) processes.new.items }
{
    let place = process.0 as usize;
    let known = processes[place];
    if has_moment(known, first) {
        return known.until;
    }
    let until = step_limit(window, process, first);
    processes[place] = Stretch { from: first, until };
    until
}

/// The limit, or a lesser moment, before which no process of which a copy keeps updates takes a step from a first one on, itself or its lane.
fn updates_limit<N: World>(
    setup: &Setup<'_, N>,
    window: &TraceWindow<N>,
    processes: &mut Vec<Stretch>,
    copy: &FaultCopy,
    first: u32,
    limit: u32,
) -> u32
    requires there { AreProcesses N.design copy.now.updates }
    requires known { AreStepsBy N.design (window_events N.design N.plan window.now.before window.now.through) processes.old.items }
    ensures low { result ≤ limit }
    ensures steps { StepsLeftAlone (window_events N.design N.plan window.now.before window.now.through) copy.now.updates (length N.design.processes) first result }
    ensures known { AreStepsBy N.design (window_events N.design N.plan window.now.before window.now.through) processes.new.items }
{
    copy.ascending();
    let design = setup.design();
    let mut least = limit;
    let mut next = copy.next_updates(ProcId(0));
    'processes: while let Some(process) = next {
        let until = step_until(window, processes, process, first);
        least = least.min(until);
        next = copy.next_updates(ProcId(process.0 + 1));
    }
    least
}

/// The limit, or a lesser moment, before which all events of a window from a first one on leave a copy of a fault alone.
pub(crate) fn copy_limit<N: World>(
    setup: &Setup<'_, N>,
    window: &TraceWindow<N>,
    table: &mut TouchTable,
    copy: &FaultCopy,
    fault: Fault,
    first: u32,
    limit: u32,
) -> u32
    requires knows { KnowsTouches N.design N.plan table.old }
    requires objects { AreThere N.design copy.now.values }
    requires site { SiteIsThere N.design (site_of fault.site) }
    requires processes { AreProcesses N.design copy.now.updates }
    requires within { limit ≤ length (window_events N.design N.plan window.now.before window.now.through) }
    ensures low { result ≤ limit }
    ensures alone { LeftAlone N.design (site_of fault.site) copy.now (window_events N.design N.plan window.now.before window.now.through) first result }
    ensures knows { KnowsTouches N.design N.plan table.new }
{
    take_up(table, window);
    let values = values_limit(setup, window, &mut table.objects, copy, first, limit);
    let site = site_limit(window, fault, first, values);
    updates_limit(setup, window, &mut table.processes, copy, first, site)
}
