// The regions that are to come, by time: each list is kept as the turn will hand it out.

ghost use Rattle.std.specs.Prelude.{◌≡◌, ℕ, ◌+◌, ◌<◌, ◌≤◌, List, [], ◌∷◌, ◌++◌, length, map, insert, OnOk, OnErr, IfOk, cond, Some};
ghost use Rattle.std.specs.BTreeMap.{get};
ghost use Rattle.std.specs.Ordering.{nat_cmp};
ghost use Rattle.vf_base.specs.Base.{process_number};
ghost use Rattle.event_queue.specs.Arranged.{Ascends, lane_number, update_at, with_process, with_update, list_or_none, ListsAt, ListsAsBefore, IsFirstTime};
ghost use Rattle.v_design.specs.States.{least_of};

use std::alloc::Global;
use std::collections::BTreeMap;
use std::mem;
use v_design::Update;
use vf_base::{NoMemory, ProcId, Seq};

/// The processes that wake, by time.
pub type Sleepers = BTreeMap<u64, Seq<ProcId>>;

/// The updates that are due, by time, in lanes.
pub type Lanes = BTreeMap<u64, Seq<(ProcId, Seq<Update>)>>;

/// Puts an element into a list, before the one at a place.
pub fn insert_at<T: Drop>(
    alloc: Global,
    list: &mut Seq<T>,
    place: usize,
    element: T,
) -> Result<(), NoMemory>
    requires { place ≤ length list.old }
    ensures ok { OnOk result (list.new ≡ insert list.old place element) }
    ensures err { OnErr result (list.new ≡ list.old) }
{
    let mut elements = mem::replace(list, Seq::from_vec(Vec::new(alloc))).into_vec();
    let inserted = elements.insert(place, element);
    *list = Seq::from_vec(elements);
    inserted?;
    Ok(())
}

/// Puts a process into a list that ascends.
pub fn put_process(alloc: Global, list: &mut Seq<ProcId>, process: ProcId) -> Result<(), NoMemory>
    requires { Ascends (map process_number list.old) }
    ensures ok { OnOk result (list.new ≡ with_process process list.old) }
    ensures err { OnErr result (list.new ≡ list.old) }
{
    let place = list.as_slice().partition_point(|other| other.0 < process.0);
    insert_at(alloc, list, place, process)
}

/// Puts an update at the end of its process's lane, among lanes that ascend.
pub fn put_update(
    alloc: Global,
    lanes: &mut Seq<(ProcId, Seq<Update>)>,
    process: ProcId,
    update: Update,
) -> Result<(), NoMemory>
    requires { Ascends (map lane_number lanes.old) }
    ensures ok { OnOk result (lanes.new ≡ with_update process update lanes.old) }
    ensures err { OnErr result (lanes.new ≡ lanes.old) }
{
    let place = lanes
        .as_slice()
        .partition_point(|lane| lane.0.0 < process.0);
    let mut list = mem::replace(lanes, Seq::from_vec(Vec::new(alloc))).into_vec();
    let put = put_update_at(alloc, &mut list, place, process, update);
    *lanes = Seq::from_vec(list);
    put
}

/// Puts an update at the end of the lane at a place, or as a new lane before that place where it is another process's.
fn put_update_at(
    alloc: Global,
    lanes: &mut Vec<(ProcId, Seq<Update>)>,
    place: usize,
    process: ProcId,
    update: Update,
) -> Result<(), NoMemory>
    requires { place ≤ length lanes.old.items }
    ensures ok { OnOk result (lanes.new.items ≡ update_at place process update lanes.old.items) }
    ensures err { OnErr result (lanes.new.items ≡ lanes.old.items) }
{
    if place < lanes.len() && lanes[place].0 == process {
        let lane = &mut lanes[place];
        let end = lane.1.as_slice().len();
        return insert_at(alloc, &mut lane.1, end, update);
    }
    let mut updates = Vec::new(alloc);
    updates.push(update)?;
    lanes.insert(place, (process, Seq::from_vec(updates)))?;
    Ok(())
}

/// Lets a process wake at a time.
pub fn add_sleeper(
    alloc: Global,
    sleepers: &mut Sleepers,
    time: u64,
    process: ProcId,
) -> Result<(), NoMemory>
    requires { Ascends (map process_number (list_or_none (get nat_cmp sleepers.old time))) }
    ensures ok { OnOk result (ListsAt time (with_process process (list_or_none (get nat_cmp sleepers.old time))) sleepers.old sleepers.new) }
    ensures err { OnErr result (ListsAsBefore sleepers.old sleepers.new) }
{
    match sleepers.get_mut(&time) {
        Some(list) => put_process(alloc, list, process),
        None => {
            let mut list = Vec::new(alloc);
            list.push(process)?;
            sleepers.insert(time, Seq::from_vec(list))?;
            Ok(())
        }
    }
}

/// Lets an update of a process be due at a time.
pub fn add_update(
    alloc: Global,
    lanes: &mut Lanes,
    time: u64,
    process: ProcId,
    update: &Update,
) -> Result<(), NoMemory>
    requires { Ascends (map lane_number (list_or_none (get nat_cmp lanes.old time))) }
    ensures ok { OnOk result (ListsAt time (with_update process update.now (list_or_none (get nat_cmp lanes.old time))) lanes.old lanes.new) }
    ensures err { OnErr result (ListsAsBefore lanes.old lanes.new) }
{
    match lanes.get_mut(&time) {
        Some(list) => put_update(alloc, list, process, *update),
        None => {
            let lane = first_lane(alloc, process, *update)?;
            lanes.insert(time, lane)?;
            Ok(())
        }
    }
}

/// One lane with one update.
fn first_lane(
    alloc: Global,
    process: ProcId,
    update: Update,
) -> Result<Seq<(ProcId, Seq<Update>)>, NoMemory>
    ensures { IfOk result (λ lanes. lanes ≡ (process, update ∷ []) ∷ []) }
{
    let mut updates = Vec::new(alloc);
    updates.push(update)?;
    let mut lanes = Vec::new(alloc);
    lanes.push((process, Seq::from_vec(updates)))?;
    Ok(Seq::from_vec(lanes))
}

/// The least time at which a map has something.
pub fn first_time<V>(map: &BTreeMap<u64, V>) -> Option<u64>
    ensures { IsFirstTime map.now result }
{
    match map.first_key_value() {
        Some((time, _)) => Some(*time),
        None => None,
    }
}

/// The lesser of two times, each of which may be missing.
pub fn earlier(one: Option<u64>, other: Option<u64>) -> Option<u64>
    ensures { result ≡ least_of one other }
{
    match (one, other) {
        (None, other) => other,
        (Some(time), None) => Some(time),
        (Some(time), Some(other)) => Some(time.min(other)),
    }
}
