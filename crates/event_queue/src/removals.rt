// What is taken out of the regions that are to come.

ghost use Rattle.std.specs.Prelude.{◌≡◌, ℕ, List, map};
ghost use Rattle.std.specs.BTreeMap.{get};
ghost use Rattle.std.specs.Ordering.{nat_cmp};
ghost use Rattle.vf_base.specs.Base.{process_number};
ghost use Rattle.v_design.specs.Plain.{due_of};
ghost use Rattle.event_queue.specs.Arranged.{Ascends, lane_number, list_or_none, IsPlaceOf, without_process, without_lane, ChangesAt, RemovesAt, RemovesLanes};

use crate::calendar::{Lanes, Sleepers};
use std::alloc::Global;
use std::collections::BTreeMap;
use std::mem;
use v_design::{Due, Update};
use vf_base::{ProcId, Seq};

/// Takes the process at a place out of a list that ascends, where it is a given one. The place is that of the first that isn't below it.
fn remove_process_at(processes: &mut Vec<ProcId>, place: usize, process: ProcId)
    requires ascends { Ascends (map process_number processes.old.items) }
    requires place { IsPlaceOf process_number process.0 processes.old.items place }
    ensures { processes.new.items ≡ without_process process processes.old.items }
{
    if place < processes.len() && processes[place] == process {
        let _ = processes.remove(place);
    }
}

/// Takes a process out of a list that ascends, if it is there.
pub fn remove_process(alloc: Global, list: &mut Seq<ProcId>, process: ProcId)
    requires { Ascends (map process_number list.old) }
    ensures { list.new ≡ without_process process list.old }
{
    let place = list.as_slice().partition_point(|other| other.0 < process.0);
    let mut processes = mem::replace(list, Seq::from_vec(Vec::new(alloc))).into_vec();
    remove_process_at(&mut processes, place, process);
    *list = Seq::from_vec(processes);
}

/// Takes the lane at a place out of lanes that ascend, where it is a given process's. The place is that of the first that isn't below it.
fn remove_lane_of(lanes: &mut Vec<(ProcId, Seq<Update>)>, place: usize, process: ProcId)
    requires ascends { Ascends (map lane_number lanes.old.items) }
    requires place { IsPlaceOf lane_number process.0 lanes.old.items place }
    ensures { lanes.new.items ≡ without_lane process lanes.old.items }
{
    if place < lanes.len() && lanes[place].0 == process {
        let _ = lanes.remove(place);
    }
}

/// Takes the lane of a process out of lanes that ascend, if it is there.
fn remove_lane(alloc: Global, lanes: &mut Seq<(ProcId, Seq<Update>)>, process: ProcId)
    requires { Ascends (map lane_number lanes.old) }
    ensures { lanes.new ≡ without_lane process lanes.old }
{
    let place = lanes
        .as_slice()
        .partition_point(|lane| lane.0.0 < process.0);
    let mut list = mem::replace(lanes, Seq::from_vec(Vec::new(alloc))).into_vec();
    remove_lane_of(&mut list, place, process);
    *lanes = Seq::from_vec(list);
}

/// Takes a process out of the list of those that wake at a time. The list stays, though it may be empty.
fn shorten_sleepers(alloc: Global, sleepers: &mut Sleepers, time: u64, process: ProcId)
    requires { Ascends (map process_number (list_or_none (get nat_cmp sleepers.old time))) }
    ensures { ChangesAt time (without_process process) sleepers.old sleepers.new }
{
    if let Some(list) = sleepers.get_mut(&time) {
        remove_process(alloc, list, process);
    }
}

/// Takes the lane of a process out of those of a time. The list stays, though it may be empty.
fn shorten_lanes(alloc: Global, lanes: &mut Lanes, time: u64, process: ProcId)
    requires { Ascends (map lane_number (list_or_none (get nat_cmp lanes.old time))) }
    ensures { ChangesAt time (without_lane process) lanes.old lanes.new }
{
    if let Some(list) = lanes.get_mut(&time) {
        remove_lane(alloc, list, process);
    }
}

/// Lets a time have no list where its list is empty.
fn drop_empty<T: Drop>(map: &mut BTreeMap<u64, Seq<T>>, time: u64)
    ensures { RemovesAt time (λ (list : List T). list) map.old map.new }
{
    let Some(list) = map.get(&time) else {
        return;
    };
    if list.as_slice().is_empty() {
        let _ = map.remove(&time);
    }
}

/// Lets a process no longer wake at a time.
pub fn remove_sleeper(alloc: Global, sleepers: &mut Sleepers, time: u64, process: ProcId)
    requires { Ascends (map process_number (list_or_none (get nat_cmp sleepers.old time))) }
    ensures { RemovesAt time (without_process process) sleepers.old sleepers.new }
{
    shorten_sleepers(alloc, sleepers, time, process);
    drop_empty(sleepers, time);
}

/// Lets no update of a process be due at a time.
fn remove_lane_at(alloc: Global, lanes: &mut Lanes, time: u64, process: ProcId)
    requires { Ascends (map lane_number (list_or_none (get nat_cmp lanes.old time))) }
    ensures { RemovesAt time (without_lane process) lanes.old lanes.new }
{
    shorten_lanes(alloc, lanes, time, process);
    drop_empty(lanes, time);
}

/// Lets no update of a process be due at the times of some updates.
pub fn remove_lanes(alloc: Global, lanes: &mut Lanes, process: ProcId, updates: &[Due])
    requires { (time : ℕ) → Ascends (map lane_number (list_or_none (get nat_cmp lanes.old time))) }
    ensures { RemovesLanes process (map due_of updates.now) lanes.old lanes.new }
{
    'updates: for due in updates {
        remove_lane_at(alloc, lanes, due.time, process);
    }
}
