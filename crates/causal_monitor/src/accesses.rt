// The accesses of a phase in their order: the held entries, then event by event those that count, and the settlings that follow from them.

ghost use Rattle.std.specs.Prelude.{◌≡◌, ℕ, ◌<◌, ◌++◌, [], ◌∷◌, Some, None, true, map, filter, length, vec_len, IfOk, OnOk, cond};
ghost use Rattle.std.specs.List.{All};
ghost use Rattle.vf_base.specs.Base.{object_number};
ghost use Rattle.vf_base.specs.Lists.{AllHold, joined, has};
ghost use Rattle.v_design.specs.Logs.{counts, settles_of, change_of, changes_of, phase_changes, log_accesses, counted_accesses};
ghost use Rattle.v_design.specs.PlainDesigns.{design_of};
ghost use Rattle.causal_monitor.specs.Notes.{IsNoted, IsHeld, noted_access};
ghost use Rattle.causal_monitor.specs.Phases.{IsLogOf, NameObjects, accesses_at};
ghost use Rattle.causal_monitor.specs.Changes.{AreTotals, AreSettled};
ghost use Rattle.causal_monitor.specs.Counted.{IsNumbered, numbered_object, phase_access, numbered_at, held_at, settling_of, Adds};

use crate::changes::changed_object;
use crate::log::PhaseLog;
use crate::noted::Noted;
use crate::numbered::Numbered;
use crate::totals::is_wild_net;
use v_design::Design;
use vf_base::{Access, AccessKind, NoMemory, ObjectId};

/// What the accesses of a phase follow from: the design, the phase's log, the paths from its changes to each object, and the net pieces that each change settles.
#[derive(Clone, Copy)]
struct Source<'a> {
    design: &'a Design,
    log: &'a PhaseLog,
    totals: &'a Vec<u8>,
    settled: &'a Vec<Vec<ObjectId>>,
}

/// Adds the held entries.
fn push_held(design: &Design, held: &[Noted], list: &mut Vec<Numbered>) -> Result<(), NoMemory>
    requires held { AllHold IsHeld held.now }
    requires objects { NameObjects (design_of design.now) (map noted_access held.now) }
    ensures { IfOk result (λ _. (events : ℕ) → Adds (length (design_of design.now).objects) events list.old.items list.new.items (map held_at (map noted_access held.now))) }
{
    'entries: for noted in held {
        list.push(Numbered {
            event: None,
            noted: *noted,
        })?;
    }
    Ok(())
}

/// Whether an access counts: a write of a wild net piece doesn't.
fn is_counted(design: &Design, log: &PhaseLog, totals: &Vec<u8>, noted: &Noted) -> bool
    requires object { object_number noted.now.access.object < length (design_of design.now).objects }
    requires sized { vec_len totals.now ≡ length (design_of design.now).objects }
    requires totals { AreTotals (design_of design.now) (phase_changes (design_of design.now) log.now.log) totals.now.items }
    ensures { result ≡ counts (design_of design.now) (phase_changes (design_of design.now) log.now.log) (noted_access noted.now) }
{
    match noted.access.kind {
        AccessKind::Read => true,
        AccessKind::Write => !is_wild_net(design, log, totals, noted.access.object),
        AccessKind::Await => true,
        AccessKind::Ended => true,
        AccessKind::Held => true,
        AccessKind::Settle => true,
    }
}

/// Adds an access of an event, where it is wanted.
fn push_if(
    wanted: bool,
    event: u64,
    noted: &Noted,
    list: &mut Vec<Numbered>,
) -> Result<(), NoMemory>
    ensures { IfOk result (λ _. list.new.items ≡ list.old.items ++ cond wanted (record { event = Some event; noted = noted.now } ∷ []) []) }
{
    if wanted {
        list.push(Numbered {
            event: Some(event),
            noted: *noted,
        })?;
    }
    Ok(())
}

/// Adds the accesses of an event that count.
fn push_counted(
    design: &Design,
    log: &PhaseLog,
    totals: &Vec<u8>,
    event: u64,
    accesses: &[Noted],
    list: &mut Vec<Numbered>,
) -> Result<(), NoMemory>
    requires event { event < length log.now.log.events }
    requires noted { AllHold IsNoted accesses.now }
    requires objects { NameObjects (design_of design.now) (map noted_access accesses.now) }
    requires sized { vec_len totals.now ≡ length (design_of design.now).objects }
    requires totals { AreTotals (design_of design.now) (phase_changes (design_of design.now) log.now.log) totals.now.items }
    ensures { IfOk result (λ _. Adds (length (design_of design.now).objects) (length log.now.log.events) list.old.items list.new.items (map
        (numbered_at event) (filter (counts (design_of design.now) (phase_changes (design_of design.now) log.now.log)) (map noted_access accesses.now)))) }
{
    'accesses: for noted in accesses {
        let wanted = is_counted(design, log, totals, noted);
        push_if(wanted, event, noted, list)?;
    }
    Ok(())
}

/// The settling of a net piece, with the process and the line of the write that it follows.
fn settling(write: &Noted, net: ObjectId) -> Noted
    ensures access { noted_access result ≡ settling_of (noted_access write.now) (object_number net) }
    ensures kind { result.access.kind ≡ AccessKind.Settle }
    ensures object { result.access.object ≡ net }
{
    let access = Access {
        kind: AccessKind::Settle,
        object: net,
        process: write.access.process,
        line: write.access.line,
    };
    Noted {
        access,
        old: None,
        new: None,
        entry: None,
    }
}

/// Adds the settlings of some net pieces that follow from a write.
fn push_settlings(
    design: &Design,
    log: &PhaseLog,
    event: u64,
    write: &Noted,
    nets: &[ObjectId],
    list: &mut Vec<Numbered>,
) -> Result<(), NoMemory>
    requires event { event < length log.now.log.events }
    requires objects { All (λ net. object_number net < length (design_of design.now).objects) nets.now }
    ensures { IfOk result (λ _. Adds (length (design_of design.now).objects) (length log.now.log.events) list.old.items list.new.items (map
        (numbered_at event) (map (settling_of (noted_access write.now)) (map object_number nets.now)))) }
{
    'nets: for net in nets {
        list.push(Numbered {
            event: Some(event),
            noted: settling(write, *net),
        })?;
    }
    Ok(())
}

/// Adds the settlings that follow from an access.
fn push_settled(
    design: &Design,
    log: &PhaseLog,
    settled: &Vec<Vec<ObjectId>>,
    event: u64,
    noted: &Noted,
    list: &mut Vec<Numbered>,
) -> Result<(), NoMemory>
    requires event { event < length log.now.log.events }
    requires noted { IsNoted noted.now }
    requires object { object_number noted.now.access.object < length (design_of design.now).objects }
    requires sized { vec_len settled.now ≡ length (design_of design.now).objects }
    requires settled { AreSettled (design_of design.now) (phase_changes (design_of design.now) log.now.log) settled.now.items }
    requires changed { (object : ℕ) → has (change_of (design_of design.now) (noted_access noted.now).act (noted_access noted.now).object) object ≡ true →
        has (phase_changes (design_of design.now) log.now.log) object ≡ true }
    ensures { IfOk result (λ _. Adds (length (design_of design.now).objects) (length log.now.log.events) list.old.items list.new.items (map
        (numbered_at event) (settles_of (design_of design.now) (phase_changes (design_of design.now) log.now.log) (noted_access noted.now)))) }
{
    let Some(object) = changed_object(design, noted) else {
        return Ok(());
    };
    let nets = &settled[object.0 as usize];
    push_settlings(design, log, event, noted, nets, list)?;
    Ok(())
}

/// Adds the settlings that follow from the accesses of an event.
fn push_all_settled(
    design: &Design,
    log: &PhaseLog,
    settled: &Vec<Vec<ObjectId>>,
    event: u64,
    accesses: &[Noted],
    list: &mut Vec<Numbered>,
) -> Result<(), NoMemory>
    requires event { event < length log.now.log.events }
    requires noted { AllHold IsNoted accesses.now }
    requires objects { NameObjects (design_of design.now) (map noted_access accesses.now) }
    requires sized { vec_len settled.now ≡ length (design_of design.now).objects }
    requires settled { AreSettled (design_of design.now) (phase_changes (design_of design.now) log.now.log) settled.now.items }
    requires changed { (object : ℕ) → has (changes_of (design_of design.now) (map noted_access accesses.now)) object ≡ true → has (phase_changes (design_of design.now) log.now.log) object ≡ true }
    ensures { IfOk result (λ _. Adds (length (design_of design.now).objects) (length log.now.log.events) list.old.items list.new.items (map
        (numbered_at event) (joined (map (settles_of (design_of design.now) (phase_changes (design_of design.now) log.now.log)) (map noted_access accesses.now))))) }
{
    'accesses: for noted in accesses {
        push_settled(design, log, settled, event, noted, list)?;
    }
    Ok(())
}

/// Adds the accesses of an event.
fn push_event(source: &Source, event: u64, list: &mut Vec<Numbered>) -> Result<(), NoMemory>
    requires event { event < length source.now.log.now.log.events }
    requires log { IsLogOf (design_of source.now.design.now) source.now.log.now.log }
    requires totals_sized { vec_len source.now.totals.now ≡ length (design_of source.now.design.now).objects }
    requires totals { AreTotals (design_of source.now.design.now) (phase_changes (design_of source.now.design.now) source.now.log.now.log) source.now.totals.now.items }
    requires settled_sized { vec_len source.now.settled.now ≡ length (design_of source.now.design.now).objects }
    requires settled { AreSettled (design_of source.now.design.now) (phase_changes (design_of source.now.design.now) source.now.log.now.log) source.now.settled.now.items }
    ensures { IfOk result (λ _. Adds (length (design_of source.now.design.now).objects) (length source.now.log.now.log.events) list.old.items list.new.items
        (map (numbered_at event) (counted_accesses (design_of source.now.design.now) (phase_changes (design_of source.now.design.now) source.now.log.now.log)
        (accesses_at source.now.log.now.log event)))) }
{
    let accesses = source.log.accesses_of(event);
    push_counted(
        source.design,
        source.log,
        source.totals,
        event,
        accesses,
        list,
    )?;
    push_all_settled(
        source.design,
        source.log,
        source.settled,
        event,
        accesses,
        list,
    )?;
    Ok(())
}

/// The accesses of a phase in their order.
pub(crate) fn fill_numbered(
    design: &Design,
    log: &PhaseLog,
    totals: &Vec<u8>,
    settled: &Vec<Vec<ObjectId>>,
    list: &mut Vec<Numbered>,
) -> Result<(), NoMemory>
    requires log { IsLogOf (design_of design.now) log.now.log }
    requires totals_sized { vec_len totals.now ≡ length (design_of design.now).objects }
    requires totals { AreTotals (design_of design.now) (phase_changes (design_of design.now) log.now.log) totals.now.items }
    requires settled_sized { vec_len settled.now ≡ length (design_of design.now).objects }
    requires settled { AreSettled (design_of design.now) (phase_changes (design_of design.now) log.now.log) settled.now.items }
    ensures accesses { OnOk result (map phase_access list.new.items ≡ log_accesses (design_of design.now) log.now.log) }
    ensures numbered { OnOk result (All (IsNumbered (length log.now.log.events)) list.new.items) }
    ensures objects { OnOk result (All (λ numbered. numbered_object numbered < length (design_of design.now).objects) list.new.items) }
{
    let source = Source {
        design,
        log,
        totals,
        settled,
    };
    list.clear();
    push_held(design, log.held(), list)?;
    'events: for event in 0..log.event_count() {
        push_event(&source, event, list)?;
    }
    Ok(())
}
