// What the events of a window write and touch, by object, and who acts in them, by node and by process.

ghost use Rattle.std.specs.Prelude.{◌≡◌, ℕ, ◌<◌, ◌≤◌, List, [], IfOk, OnOk, OnErr, get_or, length};
ghost use Rattle.std.specs.List.{between};
ghost use Rattle.v_design.specs.Accesses.{ObjectAccess};
ghost use Rattle.v_design.specs.States.{Event};
ghost use Rattle.trace_window.specs.Gathered.{BeginsAt, IsSameList};
ghost use Rattle.trace_window.specs.Writes.{latest};
ghost use Rattle.good_trace.specs.Events.{IsGathered, GathersSome, HasSizes, AreEvents};

use four_value::Vec4;
use std::alloc::Global;
use trace_window::{Change, Changes, EventList, Sizes};
use vf_base::{NoMemory, ObjectId};
use window_index::WindowIndex;

/// How many events a window has; for each object its changes and its touches, for each node its evaluations, and for each process its steps.
#[derive(Drop)]
pub struct Events {
    pub count: u32,
    pub changes: Changes,
    pub touches: WindowIndex,
    pub evaluations: WindowIndex,
    pub steps: WindowIndex,
}

/// No events, of a design of these sizes.
pub(crate) fn no_events(alloc: Global, sizes: Sizes) -> Result<Events, NoMemory>
    ensures { IfOk result (λ events. HasSizes sizes events) }
{
    let changes = Changes::new(alloc, sizes.objects)?;
    let touches = WindowIndex::new(alloc, sizes.objects)?;
    let evaluations = WindowIndex::new(alloc, sizes.nodes)?;
    let steps = WindowIndex::new(alloc, sizes.processes)?;
    Ok(Events {
        count: 0,
        changes,
        touches,
        evaluations,
        steps,
    })
}

/// The events of a list by object, by node and by process, in the memory of others. None are left in the list; the memory of `own` is used.
///
/// # Errors
///
/// Want of memory, or more changes than numbers for them. The list is as before then.
pub(crate) fn close_events(
    sizes: Sizes,
    used: Events,
    list: &mut EventList,
    own: &mut EventList,
) -> Result<Events, NoMemory>
    requires sizes { HasSizes sizes used }
    requires gathered { GathersSome sizes list.old }
    ensures events { IfOk result (λ events. (accesses : List (List ObjectAccess)) (acted : List Event) → IsGathered sizes accesses acted list.old → AreEvents sizes accesses acted events) }
    ensures none { OnOk result (BeginsAt 0 list.new) }
    ensures stays { OnErr result (IsSameList list.old list.new) }
{
    let Events {
        changes: used_changes,
        mut touches,
        mut evaluations,
        mut steps,
        ..
    } = used;
    touches.refill(&list.touches)?;
    evaluations.refill(&list.evaluations)?;
    steps.refill(&list.steps)?;
    // This takes the changes out of the list, so nothing that may fail comes behind it.
    let changes = used_changes.refill(&mut list.changes, &mut own.touches, &mut own.evaluations)?;
    let count = list.moment;
    list.restart(0);
    Ok(Events {
        count,
        changes,
        touches,
        evaluations,
        steps,
    })
}

/// Puts what the objects hold behind the last event, where they begin with some values, in place of as many others.
pub(crate) fn put_values_behind(values: &[Vec4], events: &Events, later: &mut Vec<Vec4>)
    requires count { events.now.changes.count ≡ length values.now }
    requires few { length values.now ≤ 65536 }
    requires room { length later.old.items ≡ length values.now }
    ensures count { length later.new.items ≡ length values.now }
    ensures values { (object : ℕ) → object < length values.now →
        get_or later.new.items object [] ≡ latest (get_or values.now object []) object events.now.count events.now.changes.writes }
{
    'objects: for (number, first) in values.iter().enumerate() {
        let object = ObjectId(number as u32);
        later[number] = events.changes.value_at(*first, object, events.count);
    }
}

/// The changes from a place among some to before another.
pub(crate) fn changes_between(changes: &[Change], first: usize, end: usize) -> &[Change]
    requires order { first ≤ end }
    requires within { end ≤ length changes.now }
    ensures { result.now ≡ between first end changes.now }
{
    &changes[first..end]
}
