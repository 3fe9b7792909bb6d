// What a window has once it is closed.

ghost use Rattle.std.specs.Prelude.{◌≡◌, ◌-◌, ◌^◌, ◌<◌, ◌≤◌, All, length, IfOk, OnOk, OnErr};
ghost use Rattle.std.specs.List.Sorted.{IsNonDecreasingBy};
ghost use Rattle.trace_window.specs.Gathered.{BeginsAt, IsSameList};
ghost use Rattle.window_runs.specs.RunsByProcess.{run_process, run_phase};
ghost use Rattle.good_trace.specs.Closing.{FitsClosed, FitsBetween, IsClosed};
ghost use Rattle.good_trace.specs.Events.{GathersSome};

use crate::between::BetweenSlots;
use crate::events::{Events, close_events, put_values_behind};
use crate::pushed::{PushedSlots, last_time};
use std::alloc::Global;
use trace_window::Sizes;
use vf_base::NoMemory;
use window_runs::{RunIndex, states_after, updates_after};

/// What a window has of the events and the runs of its slots, and what stands behind the last of them.
#[derive(Drop)]
pub struct Closed {
    pub events: Events,
    pub index: RunIndex,
    pub later: BetweenSlots,
}

/// What a window has of the slots that were pushed, which have so many phases, in the memory of another one's. `before` is what stands before the first of them. Their
/// events aren't in the list any more then.
///
/// # Errors
///
/// Want of memory, or no further number of a change. The slots are as before then.
pub(crate) fn close_slots(
    alloc: Global,
    sizes: Sizes,
    used: Closed,
    before: &BetweenSlots,
    slots: &mut PushedSlots,
    phases: u32,
) -> Result<Closed, NoMemory>
    requires used { FitsClosed sizes used }
    requires before { FitsBetween sizes before.now }
    requires objects { sizes.objects ≤ 65536 }
    requires processes { sizes.processes ≤ 65536 }
    requires some { 0 < length slots.old.table.times.items }
    requires gathered { GathersSome sizes slots.old.list }
    requires within { All (λ run. run_process run < sizes.processes) slots.old.table.runs.items }
    requires rise { IsNonDecreasingBy run_phase slots.old.table.runs.items }
    requires few { length slots.old.table.runs.items < 2 ^ 32 - 1 }
    ensures closed { IfOk result (λ closed. IsClosed sizes phases before.now slots.old closed) }
    ensures table { slots.new.table ≡ slots.old.table }
    ensures none { OnOk result (BeginsAt 0 slots.new.list) }
    ensures stays { OnErr result (IsSameList slots.old.list slots.new.list) }
{
    let Closed {
        events: used_events,
        mut index,
        mut later,
    } = used;
    let time = last_time(&slots.table.times);
    let runs = slots.table.runs.as_slice();
    index.refill(runs, &mut slots.own.touches)?;
    states_after(alloc, &before.states, runs, &index, &mut later.states)?;
    updates_after(
        alloc,
        &before.updates,
        runs,
        &index,
        phases,
        time,
        &mut later.updates,
    )?;
    let events = close_events(sizes, used_events, &mut slots.list, &mut slots.own)?;
    put_values_behind(&before.values, &events, &mut later.values);
    Ok(Closed {
        events,
        index,
        later,
    })
}
