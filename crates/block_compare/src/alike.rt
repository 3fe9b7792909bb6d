// Whether blocks of both machines go alike.

ghost use Rattle.std.specs.Prelude.{◌≡◌, ◌<◌, ◌||◌, ◌∷◌, [], ℕ, true, length, map};
ghost use Rattle.vf_base.specs.Base.{object_number, process_number};
ghost use Rattle.vf_base.specs.Lists.{has};
ghost use Rattle.v_design.specs.States.{State};
ghost use Rattle.runner_writes.specs.block_events.Runners.{IsWhole, machine_of, state_of};
ghost use Rattle.moment_shown.specs.lockstep_exchange.Putting.{lane_numbers};
ghost use Rattle.moment_shown.specs.Shown.{Shows};
ghost use Rattle.block_compare.specs.Comparing.{ActsAlike, DoesSame, GoAlike, IsShownOf, MayCompare};

use block_told::BlockTold;
use lockstep_room::Counts;
use moment_shown::{ShownBlock, ShownMoment};
use runner_writes::Runner;
use vf_base::{ObjectId, ProcId};

/// Whether a process is in a list.
fn has_process(list: &[ProcId], process: ProcId) -> bool
    ensures { result ≡ has (map process_number list.now) (process_number process) }
{
    'list: for place in 0..list.len() {
        if list[place].0 == process.0 {
            return true;
        }
    }
    false
}

/// Whether a process is in one of two lists.
fn is_in(process: ProcId, one: &[ProcId], other: &[ProcId]) -> bool
    ensures { result ≡ (has (map process_number one.now) (process_number process) || has (map process_number other.now) (process_number process)) }
{
    if has_process(one, process) {
        return true;
    }
    has_process(other, process)
}

/// Whether all of some processes are in one of two lists.
fn are_in(some: &[ProcId], one: &[ProcId], other: &[ProcId]) -> bool
    ensures { result ≡ true → (process : ℕ) → has (map process_number some.now) process ≡ true →
        (has (map process_number one.now) process || has (map process_number other.now) process) ≡ true }
{
    'processes: for place in 0..some.len() {
        if !is_in(some[place], one, other) {
            return false;
        }
    }
    true
}

/// Whether there is a process, and it is this one.
fn is_lane(lane: Option<ProcId>, process: ProcId) -> bool
    ensures { result ≡ true → lane_numbers lane ≡ process_number process ∷ [] }
{
    let Some(own) = lane else {
        return false;
    };
    own.0 == process.0
}

/// Whether both are the same process, or neither is one.
fn are_same(one: Option<ProcId>, other: Option<ProcId>) -> bool
    ensures { result ≡ true → lane_numbers one ≡ lane_numbers other }
{
    let Some(process) = one else {
        return other.is_none();
    };
    is_lane(other, process)
}

/// Whether a block of the faulty machine steps and wakes the same processes as the good machine's block, and steps the same lane.
fn acts_alike(block: &ShownBlock, told: &BlockTold) -> bool
    ensures { result ≡ true → ActsAlike block.now told.now }
{
    let stepped = told.stepped.as_slice();
    let ended = told.ended.as_slice();
    if !are_same(told.lane, block.lane) {
        return false;
    }
    if !are_in(block.acted, stepped, ended) {
        return false;
    }
    if !are_in(stepped, block.acted, &[]) {
        return false;
    }
    are_in(ended, block.acted, &[])
}

/// Whether all of some objects are among so many.
fn are_objects(objects: &[ObjectId], count: u32) -> bool
    ensures { result ≡ true → (object : ℕ) → has (map object_number objects.now) object ≡ true → object < count }
{
    'objects: for place in 0..objects.len() {
        if objects[place].0 >= count {
            return false;
        }
    }
    true
}

/// Whether a process does in the runner what it does in the good machine.
fn does_same(runner: &Runner, good: &ShownMoment, process: ProcId) -> bool
    requires whole { IsWhole runner.now }
    requires beside { IsShownOf (machine_of runner.now).design good.now }
    requires there { process_number process < length (machine_of runner.now).design.processes }
    ensures { result ≡ true → (state : State) → Shows good.now state → DoesSame state (state_of runner.now) (process_number process) }
{
    runner.stands_at(process, good.process_state(process))
}

/// Whether each of some processes does.
fn do_same(runner: &Runner, good: &ShownMoment, processes: &[ProcId]) -> bool
    requires whole { IsWhole runner.now }
    requires beside { IsShownOf (machine_of runner.now).design good.now }
    requires there { (process : ℕ) → has (map process_number processes.now) process ≡ true → process < length (machine_of runner.now).design.processes }
    ensures { result ≡ true → (state : State) → Shows good.now state → (process : ℕ) → has (map process_number processes.now) process ≡ true →
        DoesSame state (state_of runner.now) process }
{
    'processes: for place in 0..processes.len() {
        if !does_same(runner, good, processes[place]) {
            return false;
        }
    }
    true
}

/// Whether the process whose lane took a step does, if one did.
fn lane_does_same(runner: &Runner, good: &ShownMoment, lane: Option<ProcId>) -> bool
    requires whole { IsWhole runner.now }
    requires beside { IsShownOf (machine_of runner.now).design good.now }
    requires there { (process : ℕ) → has (lane_numbers lane) process ≡ true → process < length (machine_of runner.now).design.processes }
    ensures { result ≡ true → (state : State) → Shows good.now state → (process : ℕ) → has (lane_numbers lane) process ≡ true →
        DoesSame state (state_of runner.now) process }
{
    let Some(process) = lane else {
        return true;
    };
    does_same(runner, good, process)
}

/// Whether a block of the faulty machine steps and wakes the same processes as the good machine's, and steps the same lane, and all these do the same behind the blocks. The runner is the
/// faulty machine behind its block.
pub(crate) fn go_alike(
    runner: &Runner,
    good: &ShownMoment,
    block: &ShownBlock,
    told: &BlockTold,
    counts: Counts,
) -> bool
    requires whole { IsWhole runner.now }
    requires compare { MayCompare (machine_of runner.now) good.now block.now counts }
    ensures { result ≡ true → (state : State) → Shows good.now state → GoAlike (machine_of runner.now).design state (state_of runner.now) block.now told.now }
{
    if !acts_alike(block, told) {
        return false;
    }
    if !are_objects(block.changed, counts.objects) {
        return false;
    }
    if !are_objects(told.changed.as_slice(), counts.objects) {
        return false;
    }
    if !do_same(runner, good, block.acted) {
        return false;
    }
    lane_does_same(runner, good, block.lane)
}
