// Accesses of the good machine's block, as a window and the state behind the block tell them.

ghost use Rattle.std.specs.Prelude.{◌≡◌, ◌<◌, ℕ, true, Some, length, map};
ghost use Rattle.vf_base.specs.Base.{object_number, process_number};
ghost use Rattle.v_design.specs.Designs.{good_machine};
ghost use Rattle.v_design.specs.Plain.{entry_of};
ghost use Rattle.causal_monitor.specs.Notes.{entry_on};
ghost use Rattle.copy_laws.specs.Filter.{IsIn};
ghost use Rattle.trace_window.specs.Acted.{stepped_at};
ghost use Rattle.trace_window.specs.Moments.{window_events};
ghost use Rattle.window_tests.specs.Between.{SomeMoment, read_at};
ghost use Rattle.block_told.specs.Tells.{noted_seen};
ghost use Rattle.lockstep_notes.specs.Likes.{HasLikeBetween, IsWaiting};

use crate::standing::Standing;
use causal_monitor::{Noted, WaitEdge};
use good_trace::{Setup, TraceWindow};
use v_design::{WaitEntry, World};
use vf_base::{AccessKind, ObjectId, ProcId};
use window_tests::{NoSpans, is_read};

/// How many objects the design has.
pub fn object_count<N: World>(setup: &Setup<'_, N>) -> usize
    ensures { result ≡ length N.design.objects }
{
    let design = setup.design();
    design.objects.as_slice().len()
}

/// Whether an event of a window between two moments reads an object.
fn reads_object<N: World>(
    setup: &Setup<'_, N>,
    window: &TraceWindow<N>,
    object: ObjectId,
    first: u32,
    end: u32,
) -> bool
    ensures { result ≡ true → SomeMoment (read_at (good_machine N.design) (window_events N.design N.plan window.now.before window.now.through) (object_number object)) first end }
{
    if object.0 as usize >= object_count(setup) {
        return false;
    }
    is_read(window, object, first, end, &NoSpans)
}

/// Whether a process or its lane takes a step between two moments of a window.
fn steps_between<N: World>(window: &TraceWindow<N>, process: ProcId, first: u32, end: u32) -> bool
    requires { process_number process < length N.design.processes }
    ensures { result ≡ true → SomeMoment (stepped_at (window_events N.design N.plan window.now.before window.now.through) (process_number process)) first end }
{
    match window.next_step(process, first) {
        Some(moment) => moment < end,
        None => false,
    }
}

/// Whether an entry of a wait is a run of bits of an object with an edge.
fn is_entry(entry: WaitEntry, object: ObjectId, edge: WaitEdge) -> bool
    ensures { result ≡ true → entry_on (object_number object) (Some edge) ≡ entry_of entry }
{
    entry.object.0 == object.0
        && entry.low == edge.low
        && entry.width == edge.width
        && entry.edge == edge.edge
}

/// Whether some entry of a wait is.
fn has_entry(entries: &[WaitEntry], object: ObjectId, edge: WaitEdge) -> bool
    ensures { result ≡ true → IsIn (entry_on (object_number object) (Some edge)) (map entry_of entries.now) }
{
    'entries: for place in 0..entries.len() {
        if is_entry(entries[place], object, edge) {
            return true;
        }
    }
    false
}

/// Whether a process takes a step between two moments of a window, itself or its lane, and waits in a state on the entry with which an access begins a wait.
fn is_waiting<N: World, S: Standing>(
    setup: &Setup<'_, N>,
    window: &TraceWindow<N>,
    behind: &S,
    access: &Noted,
    first: u32,
    end: u32,
) -> bool
    ensures { result ≡ true → IsWaiting N.design (window_events N.design N.plan window.now.before window.now.through) first end (S.design behind.now) (S.shows behind.now)
        (process_number access.now.access.process) (entry_on (object_number access.now.access.object) access.now.entry) }
{
    let process = access.access.process;
    let Some(edge) = access.entry else {
        return false;
    };
    let codes = setup.codes();
    if process.0 as usize >= codes.len() {
        return false;
    }
    if !steps_between(window, process, first, end) {
        return false;
    }
    let Some(state) = behind.state_of(process) else {
        return false;
    };
    has_entry(
        state.waits(&codes[process.0 as usize]),
        access.access.object,
        edge,
    )
}

/// Whether the good machine's block between two moments of a window, behind which the processes stand so, is known to have the like of an access; it is one of a lane, or no
/// lane takes a step in it.
pub(crate) fn has_like<N: World, S: Standing>(
    setup: &Setup<'_, N>,
    window: &TraceWindow<N>,
    behind: &S,
    access: &Noted,
    first: u32,
    end: u32,
    lane: bool,
) -> bool
    ensures { result ≡ true → HasLikeBetween N.design N.plan window.now.before window.now.through first end lane (S.design behind.now) (S.shows behind.now) (noted_seen access.now) }
{
    window_tests::stretches_are_told();
    lockstep_waits::waits_are_begun();
    match access.access.kind {
        AccessKind::Read => reads_object(setup, window, access.access.object, first, end),
        AccessKind::Await => {
            if lane {
                return false;
            }
            is_waiting(setup, window, behind, access, first, end)
        }
        _ => false,
    }
}
