// What the writes of a phase reach.

ghost use Rattle.std.specs.Prelude.{◌≡◌, true, length, map};
ghost use Rattle.vf_base.specs.Base.{object_number};
ghost use Rattle.v_design.specs.PlainDesigns.{design_of};
ghost use Rattle.trace_window.specs.Writes.{written_of};
ghost use Rattle.phase_reach.specs.Reached.{AreReached, MomentsAreReached, PhaseIsReached, WritesAreReached};
ghost use Rattle.phase_reach.specs.Phases.{noted_phase};

use good_trace::{Setup, TraceWindow};
use lockstep_notes::object_count;
use race_notes::RaceNotes;
use reach_search::Reached;
use trace_window::Change;
use v_design::World;
use vf_base::ObjectId;

/// Finds what is reached from some objects. It answers whether all of them are there.
pub fn reach_all(reached: &mut Reached, objects: &[ObjectId], count: usize) -> bool
    requires { count ≡ length (design_of reached.old.design).objects }
    ensures design { reached.new.design ≡ reached.old.design }
    ensures all { result ≡ true → AreReached (design_of reached.old.design) (map object_number objects.now) reached.new }
{
    reached.clear();
    'objects: for place in 0..objects.len() {
        let object = objects[place];
        if object.0 as usize >= count {
            return false;
        }
        reached.add(object);
    }
    true
}

/// Finds what is reached from what changes write from one moment to before another. It answers whether all objects are there.
fn reach_written(
    reached: &mut Reached,
    changes: &[Change],
    first: u32,
    end: u32,
    count: usize,
) -> bool
    requires { count ≡ length (design_of reached.old.design).objects }
    ensures design { reached.new.design ≡ reached.old.design }
    ensures all { result ≡ true → WritesAreReached (design_of reached.old.design) first end (map written_of changes.now) reached.new }
{
    reached.clear();
    'changes: for place in 0..changes.len() {
        let change = changes[place];
        if change.moment < first {
            continue;
        }
        if end <= change.moment {
            continue;
        }
        if change.object.0 as usize >= count {
            return false;
        }
        reached.add(change.object);
    }
    true
}

/// Finds what is reached from what the good machine writes in a slot, from one moment to before another. It answers whether it is known then: the moments are the slot's.
pub fn reach_between<N: World>(
    setup: &Setup<'_, N>,
    window: &TraceWindow<N>,
    reached: &mut Reached,
    slot: u32,
    first: u32,
    end: u32,
) -> bool
    requires { design_of reached.old.design ≡ N.design }
    ensures design { reached.new.design ≡ reached.old.design }
    ensures all { result ≡ true → MomentsAreReached N.design N.plan window.now.before window.now.through first end reached.new }
{
    if window.slots() <= slot {
        return false;
    }
    if first < window.first_moment(slot) {
        return false;
    }
    if window.first_moment(slot + 1) < end {
        return false;
    }
    let count = object_count(setup);
    reach_written(reached, window.changes_in(slot), first, end, count)
}

/// Finds what is reached from what the good machine writes in a phase of a slot, up to a moment, if that is asked for. It answers whether it is known then.
pub fn reach_phase<N: World>(
    setup: &Setup<'_, N>,
    window: &TraceWindow<N>,
    notes: &RaceNotes,
    reached: &mut Reached,
    slot: u32,
    end: u32,
    asked: bool,
) -> bool
    requires { design_of reached.old.design ≡ N.design }
    ensures design { reached.new.design ≡ reached.old.design }
    ensures all { result ≡ true → PhaseIsReached (noted_phase N.design N.plan window.now notes.now end) reached.new }
{
    if !asked {
        return false;
    }
    reach_between(setup, window, reached, slot, notes.first(), end)
}
