// The entries of a wait: which changes they match, and their accesses.

ghost use Rattle.std.specs.Prelude.{◌≡◌, ◌<◌, ◌++◌, ◌+◌, [], ◌∷◌, length, map, filter, take, drop, OnOk};
ghost use Rattle.std.specs.List.{All};
ghost use Rattle.vf_base.specs.Base.{object_number};
ghost use Rattle.vf_base.specs.declared.finding.AccessKind.TheVariants as Kind;
ghost use Rattle.four_value.specs.Values.{IsWidth};
ghost use Rattle.vf_base.specs.Lists.{AllHold, first_place, has};
ghost use Rattle.v_design.specs.Paths.{net_pieces, is_net};
ghost use Rattle.v_design.specs.Plain.{entry_of};
ghost use Rattle.v_design.specs.PlainDesigns.{design_of};
ghost use Rattle.v_design.specs.States.{entry_matches};
ghost use Rattle.v_design.specs.Trees.{Entry};
ghost use Rattle.value_change.specs.Changes.{change_seen, matches_one};
ghost use Rattle.process_table.specs.Noted.{noted_entry, is_on_net};

use causal_monitor::{Noted, WaitEdge};
use four_value::{Vec4, edge_matches};
use v_design::{Design, ObjectKind, WaitEntry};
use value_change::Change;
use vf_base::{Access, AccessKind, NoMemory, ObjectId, ProcId};

/// Whether an entry of a wait matches a change.
fn matches_change(change: &Change, entry: &WaitEntry) -> bool
    requires { IsWidth entry.now.width }
    ensures { result ≡ entry_matches (object_number change.now.object) change.now.old change.now.new (entry_of entry.now) }
{
    if entry.object.0 != change.object.0 {
        return false;
    }
    edge_matches(
        change.old.part(entry.low, entry.width),
        change.new.part(entry.low, entry.width),
        entry.edge,
    )
}

/// Whether an entry of a wait matches one of some changes.
fn matches_some(changes: &[Change], entry: &WaitEntry) -> bool
    requires { IsWidth entry.now.width }
    ensures { result ≡ matches_one (map change_seen changes.now) (entry_of entry.now) }
{
    'changes: for change in changes {
        if matches_change(change, entry) {
            return true;
        }
    }
    false
}

/// The place of the first entry of a wait that matches one of some changes.
pub fn first_matching(changes: &[Change], entries: &[WaitEntry]) -> Option<usize>
    requires { AllHold (λ (entry : Entry). IsWidth entry.width) (map entry_of entries.now) }
    ensures { result ≡ first_place (matches_one (map change_seen changes.now)) (map entry_of entries.now) }
{
    'entries: for (place, entry) in entries.iter().enumerate() {
        if matches_some(changes, entry) {
            return Some(place);
        }
    }
    None
}

/// Puts the accesses of some entries of a process's wait behind those that are listed.
pub fn push_entries(
    kind: AccessKind,
    process: ProcId,
    line: u32,
    entries: &[WaitEntry],
    accesses: &mut Vec<Noted>,
) -> Result<(), NoMemory>
    ensures { OnOk result (accesses.new.items ≡ accesses.old.items ++ map (noted_entry kind process line) entries.now) }
{
    'entries: for entry in entries {
        let old: Option<Vec4> = None;
        let new: Option<Vec4> = None;
        let edge = WaitEdge {
            low: entry.low,
            width: entry.width,
            edge: entry.edge,
        };
        let access = Access {
            kind,
            object: entry.object,
            process,
            line,
        };
        accesses.push(Noted {
            access,
            old,
            new,
            entry: Some(edge),
        })?;
    }
    Ok(())
}

/// Puts the accesses of all entries of a process's wait but for one behind those that are listed.
pub fn push_others(
    process: ProcId,
    line: u32,
    entries: &[WaitEntry],
    place: usize,
    accesses: &mut Vec<Noted>,
) -> Result<(), NoMemory>
    requires { place < length entries.now }
    ensures { OnOk result (accesses.new.items ≡ accesses.old.items ++ map (noted_entry Kind.Ended process line) (take place entries.now ++ drop (place + 1) entries.now)) }
{
    push_entries(
        AccessKind::Ended,
        process,
        line,
        &entries[..place],
        accesses,
    )?;
    push_entries(
        AccessKind::Ended,
        process,
        line,
        &entries[place + 1..],
        accesses,
    )?;
    Ok(())
}

/// Whether objects of a kind are net pieces.
fn is_net_kind(kind: ObjectKind) -> bool
    ensures { result ≡ is_net kind }
{
    match kind {
        ObjectKind::Var => false,
        ObjectKind::Word => false,
        ObjectKind::Net => true,
    }
}

/// Whether an object is a net piece.
fn is_net_piece(design: &Design, object: ObjectId) -> bool
    requires { object_number object < length (design_of design.now).objects }
    ensures { result ≡ has (net_pieces (design_of design.now)) (object_number object) }
{
    let objects = design.objects.as_slice();
    is_net_kind(objects[object.0 as usize].kind)
}

/// Puts the access of an entry of a process's wait behind those that are listed, if it is on a net piece.
fn hold_entry(
    design: &Design,
    process: ProcId,
    line: u32,
    entry: &WaitEntry,
    accesses: &mut Vec<Noted>,
) -> Result<(), NoMemory>
    requires { object_number entry.now.object < length (design_of design.now).objects }
    ensures { OnOk result (accesses.new.items ≡ accesses.old.items ++ map (noted_entry Kind.Held process line) (filter (is_on_net (design_of design.now)) (entry.now ∷ []))) }
{
    if !is_net_piece(design, entry.object) {
        return Ok(());
    }
    push_entries(AccessKind::Held, process, line, &[*entry], accesses)?;
    Ok(())
}

/// Puts the accesses of the entries on net pieces of a process's wait behind those that are listed.
pub fn push_held(
    design: &Design,
    process: ProcId,
    line: u32,
    entries: &[WaitEntry],
    accesses: &mut Vec<Noted>,
) -> Result<(), NoMemory>
    requires { All (λ entry. object_number entry.object < length (design_of design.now).objects) entries.now }
    ensures { OnOk result (accesses.new.items ≡ accesses.old.items ++ map (noted_entry Kind.Held process line) (filter (is_on_net (design_of design.now)) entries.now)) }
{
    'entries: for entry in entries {
        hold_entry(design, process, line, entry, accesses)?;
    }
    Ok(())
}
