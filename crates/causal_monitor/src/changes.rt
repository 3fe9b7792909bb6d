// The variables and memory words that a phase changes.

ghost use Rattle.std.specs.Prelude.{◌≡◌, ℕ, ◌+◌, ◌<◌, ◌++◌, [], ◌∷◌, List, map, length, vec_len, get_or, cond, nat_lt, slice_set};
ghost use Rattle.std.specs.Option.{option_map, option_to_list};
ghost use Rattle.std.specs.List.{All};
ghost use Rattle.vf_base.specs.Base.{object_number};
ghost use Rattle.vf_base.specs.Lists.{AllHold, has};
ghost use Rattle.four_value.specs.Values.{same_value};
ghost use Rattle.v_design.specs.Accesses.{Writing};
ghost use Rattle.v_design.specs.Paths.{net_pieces, is_net};
ghost use Rattle.v_design.specs.Logs.{change_of, changes_of, phase_changes};
ghost use Rattle.v_design.specs.PlainDesigns.{design_of};
ghost use Rattle.causal_monitor.specs.Notes.{IsNoted, HasValues, value_or_none, noted_access};
ghost use Rattle.causal_monitor.specs.Phases.{IsLogOf, NameObjects};
ghost use Rattle.causal_monitor.specs.Changes.{CountChanges};

use crate::log::PhaseLog;
use crate::noted::Noted;
use v_design::{Design, ObjectKind};
use vf_base::{AccessKind, ObjectId};

/// Whether a kind of objects is that of the net pieces.
fn is_net_kind(kind: ObjectKind) -> bool
    ensures { result ≡ is_net kind }
{
    match kind {
        ObjectKind::Var => false,
        ObjectKind::Word => false,
        ObjectKind::Net => true,
    }
}

/// Whether an object is a net piece.
pub(crate) fn is_net_piece(design: &Design, object: ObjectId) -> bool
    requires { object_number object < length (design_of design.now).objects }
    ensures { result ≡ has (net_pieces (design_of design.now)) (object_number object) }
{
    let objects = design.objects.as_slice();
    is_net_kind(objects[object.0 as usize].kind)
}

/// Whether the two values of a write are the same.
fn keeps_value(write: &Noted) -> bool
    requires { HasValues write.now.old write.now.new }
    ensures { result ≡ same_value (value_or_none write.now.old) (value_or_none write.now.new) }
{
    let Some(old) = write.old else {
        return true;
    };
    let Some(new) = write.new else {
        return true;
    };
    old.same(new)
}

/// The object that a write changes, if that is a variable or a memory word.
fn written_object(design: &Design, write: &Noted) -> Option<ObjectId>
    requires values { HasValues write.now.old write.now.new }
    requires object { object_number write.now.access.object < length (design_of design.now).objects }
    ensures { option_to_list (option_map object_number result) ≡ change_of (design_of design.now) (Writing (value_or_none write.now.old)
        (value_or_none write.now.new)) (object_number write.now.access.object) }
{
    if keeps_value(write) || is_net_piece(design, write.access.object) {
        None
    } else {
        Some(write.access.object)
    }
}

/// The variable or memory word that an access changes, if it does.
pub(crate) fn changed_object(design: &Design, noted: &Noted) -> Option<ObjectId>
    requires noted { IsNoted noted.now }
    requires object { object_number noted.now.access.object < length (design_of design.now).objects }
    ensures { option_to_list (option_map object_number result) ≡ change_of (design_of design.now) (noted_access noted.now).act (noted_access noted.now).object }
{
    match noted.access.kind {
        AccessKind::Read => None,
        AccessKind::Write => written_object(design, noted),
        AccessKind::Await => None,
        AccessKind::Ended => None,
        AccessKind::Held => None,
        AccessKind::Settle => None,
    }
}

/// Counts a change of an object, up to two.
fn count_change(object: ObjectId, counts: &mut Vec<u8>)
    requires { object_number object < vec_len counts.old }
    ensures counted { (changes : List ℕ) → CountChanges changes counts.old.items → CountChanges (changes ++ object_number object ∷ []) counts.new.items }
    ensures same { vec_len counts.new ≡ vec_len counts.old }
{
    let count = counts[object.0 as usize];
    if count < 2 {
        counts[object.0 as usize] = count + 1;
    }
}

/// Counts the change of an access, if it makes one.
fn count_access(design: &Design, noted: &Noted, counts: &mut Vec<u8>)
    requires noted { IsNoted noted.now }
    requires object { object_number noted.now.access.object < length (design_of design.now).objects }
    requires sized { vec_len counts.old ≡ length (design_of design.now).objects }
    ensures counted { (changes : List ℕ) → CountChanges changes counts.old.items →
        CountChanges (changes ++ change_of (design_of design.now) (noted_access noted.now).act (noted_access noted.now).object) counts.new.items }
    ensures same { vec_len counts.new ≡ vec_len counts.old }
{
    if let Some(object) = changed_object(design, noted) {
        count_change(object, counts);
    }
}

/// Counts the changes of an event.
fn count_event(design: &Design, accesses: &[Noted], counts: &mut Vec<u8>)
    requires noted { AllHold IsNoted accesses.now }
    requires objects { NameObjects (design_of design.now) (map noted_access accesses.now) }
    requires sized { vec_len counts.old ≡ length (design_of design.now).objects }
    ensures counted { (changes : List ℕ) → CountChanges changes counts.old.items → CountChanges (changes ++ changes_of (design_of design.now) (map noted_access accesses.now)) counts.new.items }
    ensures same { vec_len counts.new ≡ vec_len counts.old }
{
    'accesses: for noted in accesses {
        count_access(design, noted, counts);
    }
}

/// Counts the changes of a phase, from a table of zeros.
pub(crate) fn count_changes(design: &Design, log: &PhaseLog, counts: &mut Vec<u8>)
    requires log { IsLogOf (design_of design.now) log.now.log }
    requires sized { vec_len counts.old ≡ length (design_of design.now).objects }
    requires blank { CountChanges [] counts.old.items }
    ensures counted { CountChanges (phase_changes (design_of design.now) log.now.log) counts.new.items }
    ensures same { vec_len counts.new ≡ vec_len counts.old }
{
    'events: for event in 0..log.event_count() {
        count_event(design, log.accesses_of(event), counts);
    }
}
