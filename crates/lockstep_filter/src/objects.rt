// Objects of which no two accesses conflict, by the notes and by searches in a window.

ghost use Rattle.std.specs.Prelude.{◌≡◌, ◌⊎◌, ◌<◌, ℕ, true, length};
ghost use Rattle.vf_base.specs.Base.{object_number};
ghost use Rattle.vf_base.specs.Lists.{has};
ghost use Rattle.v_design.specs.Paths.{is_net, net_pieces};
ghost use Rattle.v_design.specs.PlainDesigns.{design_of};
ghost use Rattle.lockstep_waits.specs.Awaited.{AreAwaitedFlags};
ghost use Rattle.lockstep_filter.specs.Free.{IsUnreadNet, IsNeverWritten, IsTouchedOnce, IsMetAlone, IsMetSettled, IsTame, IsFreeHere};
ghost use Rattle.phase_reach.specs.Reached.{AreReached, PhaseIsReached};
ghost use Rattle.phase_reach.specs.Phases.{noted_phase};

use crate::spans::NotedSpans;
use good_trace::{Setup, TraceWindow};
use lockstep_waits::AwaitedObjects;
use phase_reach::{is_read, is_written, object_count, reach_between};
use race_notes::RaceNotes;
use reach_search::Reached;
use v_design::{Design, ObjectKind, World};
use vf_base::ObjectId;

/// Whether a kind is that of net pieces.
fn is_net_kind(kind: ObjectKind) -> bool
    ensures { result ≡ is_net kind }
{
    match kind {
        ObjectKind::Var => false,
        ObjectKind::Word => false,
        ObjectKind::Net => true,
    }
}

/// Whether an object is a net piece.
fn is_net_piece(design: &Design, object: ObjectId) -> bool
    requires { object_number object < length (design_of design.now).objects }
    ensures { result ≡ has (net_pieces (design_of design.now)) (object_number object) }
{
    let objects = design.objects.as_slice();
    is_net_kind(objects[object.0 as usize].kind)
}

/// Whether an object of the world is a net piece.
fn is_net_of<N: World>(setup: &Setup<'_, N>, object: ObjectId) -> bool
    requires { object_number object < length N.design.objects }
    ensures { result ≡ has (net_pieces N.design) (object_number object) }
{
    let design = setup.design();
    is_net_piece(design, object)
}

/// Whether an object is a net piece on which no process waits, and which nothing in the phase reads.
pub(crate) fn is_unread_net<N: World>(
    setup: &Setup<'_, N>,
    window: &TraceWindow<N>,
    notes: &RaceNotes,
    awaited: &AwaitedObjects,
    object: ObjectId,
    end: u32,
) -> bool
    requires object { object_number object < length N.design.objects }
    requires awaited { AreAwaitedFlags N.design awaited.now }
    ensures { result ≡ true → IsUnreadNet (noted_phase N.design N.plan window.now notes.now end) (object_number object) }
{
    if !is_net_of(setup, object) {
        return false;
    }
    if awaited.has(object) {
        return false;
    }
    if notes.note_of(object).read {
        return false;
    }
    !is_read(window, object, notes.first(), end, &NotedSpans { notes })
}

/// Whether nothing in the phase writes an object.
fn is_never_written<N: World>(
    window: &TraceWindow<N>,
    notes: &RaceNotes,
    object: ObjectId,
    end: u32,
) -> bool
    requires { object_number object < length N.design.objects }
    ensures { result ≡ true → IsNeverWritten (noted_phase N.design N.plan window.now notes.now end) (object_number object) }
{
    if notes.note_of(object).written {
        return false;
    }
    !is_written(window, object, notes.first(), end, &NotedSpans { notes })
}

/// Whether own blocks read or write an object once at most, the stretches of the phase don't, and no process waits on it.
fn is_touched_once<N: World>(
    window: &TraceWindow<N>,
    notes: &RaceNotes,
    awaited: &AwaitedObjects,
    object: ObjectId,
    end: u32,
) -> bool
    requires object { object_number object < length N.design.objects }
    requires awaited { AreAwaitedFlags N.design awaited.now }
    ensures { result ≡ true → IsTouchedOnce (noted_phase N.design N.plan window.now notes.now end) (object_number object) }
{
    if awaited.has(object) {
        return false;
    }
    if notes.note_of(object).again {
        return false;
    }
    let spans = NotedSpans { notes };
    if is_written(window, object, notes.first(), end, &spans) {
        return false;
    }
    !is_read(window, object, notes.first(), end, &spans)
}

/// Whether own blocks do with an object only what the good machine's blocks beside them do, and from the first one on nothing writes it.
fn is_met_alone<N: World>(
    window: &TraceWindow<N>,
    notes: &RaceNotes,
    object: ObjectId,
    end: u32,
) -> bool
    requires { object_number object < length N.design.objects }
    ensures { result ≡ true → IsMetAlone (noted_phase N.design N.plan window.now notes.now end) (object_number object) }
{
    let note = notes.note_of(object);
    if note.suspect {
        return false;
    }
    if note.written {
        return false;
    }
    let Some(since) = note.since else {
        return false;
    };
    !is_written(window, object, since, end, &NotedSpans { notes })
}

/// Whether one of the three holds.
fn is_quiet<N: World>(
    window: &TraceWindow<N>,
    notes: &RaceNotes,
    awaited: &AwaitedObjects,
    object: ObjectId,
    end: u32,
) -> bool
    requires object { object_number object < length N.design.objects }
    requires awaited { AreAwaitedFlags N.design awaited.now }
    ensures { let phase = noted_phase N.design N.plan window.now notes.now end in
        result ≡ true → IsNeverWritten phase (object_number object) ⊎ (IsTouchedOnce phase (object_number object) ⊎ IsMetAlone phase (object_number object)) }
{
    if is_never_written(window, notes, object, end) {
        return true;
    }
    if is_touched_once(window, notes, awaited, object, end) {
        return true;
    }
    is_met_alone(window, notes, object, end)
}

/// Whether an object is no net piece, or one that nothing in the phase reaches; what the good machine's writes reach may be unknown.
fn is_tame<N: World>(
    setup: &Setup<'_, N>,
    window: &TraceWindow<N>,
    notes: &RaceNotes,
    own: &Reached,
    phase: &Reached,
    known: bool,
    object: ObjectId,
    end: u32,
) -> bool
    requires object { object_number object < length N.design.objects }
    requires own_design { design_of own.now.design ≡ N.design }
    requires phase_design { design_of phase.now.design ≡ N.design }
    requires own { AreReached N.design notes.now.changed own.now }
    requires phase { known ≡ true → PhaseIsReached (noted_phase N.design N.plan window.now notes.now end) phase.now }
    ensures { result ≡ true → IsTame (noted_phase N.design N.plan window.now notes.now end) (object_number object) }
{
    if !is_net_of(setup, object) {
        return true;
    }
    if !known {
        return false;
    }
    if own.contains(object) {
        return false;
    }
    !phase.contains(object)
}

/// Whether own blocks do with an object only what the good machine's blocks beside them do, and from the first one on nothing writes it or reaches it.
fn is_met_settled<N: World>(
    setup: &Setup<'_, N>,
    window: &TraceWindow<N>,
    notes: &RaceNotes,
    own: &Reached,
    late: &mut Reached,
    slot: u32,
    object: ObjectId,
    end: u32,
) -> bool
    requires object { object_number object < length N.design.objects }
    requires own_design { design_of own.now.design ≡ N.design }
    requires late_design { design_of late.old.design ≡ N.design }
    requires own { AreReached N.design notes.now.changed own.now }
    ensures design { late.new.design ≡ late.old.design }
    ensures settled { result ≡ true → IsMetSettled (noted_phase N.design N.plan window.now notes.now end) (object_number object) }
{
    let Some(since) = notes.note_of(object).since else {
        return false;
    };
    if own.contains(object) {
        return false;
    }
    if !is_met_alone(window, notes, object, end) {
        return false;
    }
    if !reach_between(setup, window, late, slot, since, end) {
        return false;
    }
    !late.contains(object)
}

/// Whether an object is a net piece that own writes reach: all of these are known to be unread.
fn is_reached_net<N: World>(
    setup: &Setup<'_, N>,
    window: &TraceWindow<N>,
    notes: &RaceNotes,
    own: &Reached,
    object: ObjectId,
    end: u32,
) -> bool
    requires object { object_number object < length N.design.objects }
    requires own_design { design_of own.now.design ≡ N.design }
    requires unread { (other : ℕ) → has own.now.objects other ≡ true → has (net_pieces N.design) other ≡ true → IsUnreadNet (noted_phase N.design N.plan window.now notes.now end) other }
    ensures { result ≡ true → IsUnreadNet (noted_phase N.design N.plan window.now notes.now end) (object_number object) }
{
    if !is_net_of(setup, object) {
        return false;
    }
    own.contains(object)
}

/// Whether it is told that no two accesses of an object conflict in the phase, or none that are left. All net pieces that own writes reach are known to be unread.
fn is_object_free<N: World>(
    setup: &Setup<'_, N>,
    window: &TraceWindow<N>,
    notes: &RaceNotes,
    awaited: &AwaitedObjects,
    own: &Reached,
    phase: &Reached,
    late: &mut Reached,
    known: bool,
    slot: u32,
    object: ObjectId,
    end: u32,
) -> bool
    requires awaited { AreAwaitedFlags N.design awaited.now }
    requires own_design { design_of own.now.design ≡ N.design }
    requires phase_design { design_of phase.now.design ≡ N.design }
    requires late_design { design_of late.old.design ≡ N.design }
    requires own { AreReached N.design notes.now.changed own.now }
    requires unread { (other : ℕ) → has own.now.objects other ≡ true → has (net_pieces N.design) other ≡ true → IsUnreadNet (noted_phase N.design N.plan window.now notes.now end) other }
    requires phase { known ≡ true → PhaseIsReached (noted_phase N.design N.plan window.now notes.now end) phase.now }
    ensures design { late.new.design ≡ late.old.design }
    ensures free { result ≡ true → IsFreeHere (noted_phase N.design N.plan window.now notes.now end) (object_number object) }
{
    if object.0 as usize >= object_count(setup) {
        return false;
    }
    if is_reached_net(setup, window, notes, own, object, end) {
        return true;
    }
    if is_unread_net(setup, window, notes, awaited, object, end) {
        return true;
    }
    if is_tame(setup, window, notes, own, phase, known, object, end) {
        return is_quiet(window, notes, awaited, object, end);
    }
    is_met_settled(setup, window, notes, own, late, slot, object, end)
}

/// Whether all objects that are noted are free.
pub(crate) fn noted_are_free<N: World>(
    setup: &Setup<'_, N>,
    window: &TraceWindow<N>,
    notes: &RaceNotes,
    awaited: &AwaitedObjects,
    own: &Reached,
    phase: &Reached,
    late: &mut Reached,
    known: bool,
    slot: u32,
    end: u32,
) -> bool
    requires awaited { AreAwaitedFlags N.design awaited.now }
    requires own_design { design_of own.now.design ≡ N.design }
    requires phase_design { design_of phase.now.design ≡ N.design }
    requires late_design { design_of late.old.design ≡ N.design }
    requires own { AreReached N.design notes.now.changed own.now }
    requires unread { (other : ℕ) → has own.now.objects other ≡ true → has (net_pieces N.design) other ≡ true → IsUnreadNet (noted_phase N.design N.plan window.now notes.now end) other }
    requires phase { known ≡ true → PhaseIsReached (noted_phase N.design N.plan window.now notes.now end) phase.now }
    ensures design { late.new.design ≡ late.old.design }
    ensures free { result ≡ true → (object : ℕ) → has notes.now.noted object ≡ true → IsFreeHere (noted_phase N.design N.plan window.now notes.now end) object }
{
    let noted = notes.noted();
    'objects: for place in 0..noted.len() {
        let object = noted[place];
        if !is_object_free(
            setup, window, notes, awaited, own, phase, late, known, slot, object, end,
        ) {
            return false;
        }
    }
    true
}

/// Whether all net pieces that are reached from what own blocks wrote are unread.
pub(crate) fn reached_are_unread<N: World>(
    setup: &Setup<'_, N>,
    window: &TraceWindow<N>,
    notes: &RaceNotes,
    awaited: &AwaitedObjects,
    own: &Reached,
    end: u32,
) -> bool
    requires awaited { AreAwaitedFlags N.design awaited.now }
    ensures { result ≡ true → (object : ℕ) → has own.now.objects object ≡ true → has (net_pieces N.design) object ≡ true →
        IsUnreadNet (noted_phase N.design N.plan window.now notes.now end) object }
{
    let reached = own.as_slice();
    'objects: for place in 0..reached.len() {
        if !is_unread_if_net(setup, window, notes, awaited, reached[place], end) {
            return false;
        }
    }
    true
}

/// Whether an object is unread if it is a net piece.
fn is_unread_if_net<N: World>(
    setup: &Setup<'_, N>,
    window: &TraceWindow<N>,
    notes: &RaceNotes,
    awaited: &AwaitedObjects,
    object: ObjectId,
    end: u32,
) -> bool
    requires { AreAwaitedFlags N.design awaited.now }
    ensures { result ≡ true → has (net_pieces N.design) (object_number object) ≡ true → IsUnreadNet (noted_phase N.design N.plan window.now notes.now end) (object_number object) }
{
    if object.0 as usize >= object_count(setup) {
        return false;
    }
    if !is_net_of(setup, object) {
        return true;
    }
    is_unread_net(setup, window, notes, awaited, object, end)
}

/// Whether an object is known to be unread, or no net piece: all net pieces that own writes reach are unread.
fn is_known_unread<N: World>(
    setup: &Setup<'_, N>,
    window: &TraceWindow<N>,
    notes: &RaceNotes,
    awaited: &AwaitedObjects,
    own: &Reached,
    object: ObjectId,
    end: u32,
) -> bool
    requires awaited { AreAwaitedFlags N.design awaited.now }
    requires own_design { design_of own.now.design ≡ N.design }
{
    if object.0 as usize >= object_count(setup) {
        return false;
    }
    if own.contains(object) {
        return true;
    }
    is_unread_if_net(setup, window, notes, awaited, object, end)
}

/// Whether the wildness of some noted object is to be asked for: it is a net piece that isn't unread. All those that own writes reach are unread.
pub(crate) fn some_is_read<N: World>(
    setup: &Setup<'_, N>,
    window: &TraceWindow<N>,
    notes: &RaceNotes,
    awaited: &AwaitedObjects,
    own: &Reached,
    end: u32,
) -> bool
    requires awaited { AreAwaitedFlags N.design awaited.now }
    requires own_design { design_of own.now.design ≡ N.design }
{
    let noted = notes.noted();
    'objects: for place in 0..noted.len() {
        if !is_known_unread(setup, window, notes, awaited, own, noted[place], end) {
            return true;
        }
    }
    false
}
