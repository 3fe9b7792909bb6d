// Which two accesses of a phase conflict (IEEE 1364-2001, clause 5, leaves their order free).

ghost use Rattle.std.specs.Prelude.{◌≡◌, ℕ, length, vec_len};
ghost use Rattle.vf_base.specs.Base.{object_number};
ghost use Rattle.v_design.specs.States.{entry_matches};
ghost use Rattle.v_design.specs.Accesses.{Reading, Writing, Awaiting, Ending, Holding, Settling};
ghost use Rattle.v_design.specs.Logs.{acts_clash, orders_others, access_orders, conflict};
ghost use Rattle.causal_monitor.specs.Notes.{HasValues, HasEntry, value_or_none, entry_on, noted_access};
ghost use Rattle.causal_monitor.specs.Orders.{HasJumps};
ghost use Rattle.causal_monitor.specs.Counted.{IsComparable, IsNumbered, phase_access};

use crate::log::PhaseLog;
use crate::noted::Noted;
use crate::numbered::Numbered;
use crate::order::orders;
use four_value::edge_matches;
use vf_base::{AccessKind, ObjectId};

/// Whether a write of an object changes the bits that a wait looks at, with the wait's edge.
fn matches_entry(object: ObjectId, write: &Noted, wait: &Noted) -> bool
    requires values { HasValues write.now.old write.now.new }
    requires entry { HasEntry wait.now.entry }
    ensures { result ≡ entry_matches (object_number object) (value_or_none write.now.old) (value_or_none write.now.new) (entry_on (object_number wait.now.access.object) wait.now.entry) }
{
    let Some(old) = write.old else {
        return false;
    };
    let Some(new) = write.new else {
        return false;
    };
    let Some(entry) = wait.entry else {
        return false;
    };
    if wait.access.object.0 != object.0 {
        return false;
    }
    edge_matches(
        old.part(entry.low, entry.width),
        new.part(entry.low, entry.width),
        entry.edge,
    )
}

/// Whether a read may conflict with another access of its object.
fn read_clashes(second: &Noted) -> bool
    ensures { (object : ℕ) → result ≡ acts_clash object Reading (noted_access second.now).act }
{
    match second.access.kind {
        AccessKind::Read => false,
        AccessKind::Write => true,
        AccessKind::Await => false,
        AccessKind::Ended => false,
        AccessKind::Held => false,
        AccessKind::Settle => true,
    }
}

/// Whether a write may conflict with another access of its object: with each read and write, and with the waits that it would end.
fn write_clashes(first: &Noted, second: &Noted) -> bool
    requires values { HasValues first.now.old first.now.new }
    requires second { IsComparable second.now }
    ensures { result ≡ acts_clash (object_number first.now.access.object) (Writing (value_or_none first.now.old) (value_or_none first.now.new)) (noted_access second.now).act }
{
    match second.access.kind {
        AccessKind::Read => true,
        AccessKind::Write => true,
        AccessKind::Await => matches_entry(first.access.object, first, second),
        AccessKind::Ended => matches_entry(first.access.object, first, second),
        AccessKind::Held => false,
        AccessKind::Settle => false,
    }
}

/// Whether a wait that begins may conflict with another access of its object.
fn await_clashes(first: &Noted, second: &Noted) -> bool
    requires entry { HasEntry first.now.entry }
    requires second { IsComparable second.now }
    ensures { result ≡ acts_clash (object_number first.now.access.object) (Awaiting (entry_on (object_number first.now.access.object) first.now.entry)) (noted_access second.now).act }
{
    match second.access.kind {
        AccessKind::Read => false,
        AccessKind::Write => matches_entry(first.access.object, second, first),
        AccessKind::Await => false,
        AccessKind::Ended => false,
        AccessKind::Held => false,
        AccessKind::Settle => true,
    }
}

/// Whether another entry of a wait that ended may conflict with another access of its object.
fn ended_clashes(first: &Noted, second: &Noted) -> bool
    requires entry { HasEntry first.now.entry }
    requires second { IsComparable second.now }
    ensures { result ≡ acts_clash (object_number first.now.access.object) (Ending (entry_on (object_number first.now.access.object) first.now.entry)) (noted_access second.now).act }
{
    match second.access.kind {
        AccessKind::Read => false,
        AccessKind::Write => matches_entry(first.access.object, second, first),
        AccessKind::Await => false,
        AccessKind::Ended => false,
        AccessKind::Held => false,
        AccessKind::Settle => false,
    }
}

/// Whether a held entry may conflict with another access of its object.
fn held_clashes(first: &Noted, second: &Noted) -> bool
    ensures { result ≡ acts_clash (object_number first.now.access.object) (Holding (entry_on (object_number first.now.access.object) first.now.entry)) (noted_access second.now).act }
{
    match second.access.kind {
        AccessKind::Read => false,
        AccessKind::Write => false,
        AccessKind::Await => false,
        AccessKind::Ended => false,
        AccessKind::Held => false,
        AccessKind::Settle => true,
    }
}

/// Whether a settling of a net piece may conflict with another access of it.
fn settle_clashes(second: &Noted) -> bool
    ensures { (object : ℕ) → result ≡ acts_clash object Settling (noted_access second.now).act }
{
    match second.access.kind {
        AccessKind::Read => true,
        AccessKind::Write => false,
        AccessKind::Await => true,
        AccessKind::Ended => false,
        AccessKind::Held => true,
        AccessKind::Settle => false,
    }
}

/// Whether two accesses of one object are a pair that may conflict.
fn clash(first: &Noted, second: &Noted) -> bool
    requires first { IsComparable first.now }
    requires second { IsComparable second.now }
    ensures { result ≡ acts_clash (object_number first.now.access.object) (noted_access first.now).act (noted_access second.now).act }
{
    match first.access.kind {
        AccessKind::Read => read_clashes(second),
        AccessKind::Write => write_clashes(first, second),
        AccessKind::Await => await_clashes(first, second),
        AccessKind::Ended => ended_clashes(first, second),
        AccessKind::Held => held_clashes(first, second),
        AccessKind::Settle => settle_clashes(second),
    }
}

/// Whether an access orders others: a held entry and a settling don't.
fn orders_others(noted: &Noted) -> bool
    ensures { result ≡ orders_others (noted_access noted.now).act }
{
    match noted.access.kind {
        AccessKind::Read => true,
        AccessKind::Write => true,
        AccessKind::Await => true,
        AccessKind::Ended => true,
        AccessKind::Held => false,
        AccessKind::Settle => false,
    }
}

/// Whether one access orders another: the one orders others, both have events, and the one's event orders the other's.
pub(crate) fn access_orders(
    log: &PhaseLog,
    jumps: &Vec<u64>,
    first: &Numbered,
    second: &Numbered,
) -> bool
    requires jumps { HasJumps log.now.log jumps.now.items }
    requires second { IsNumbered (length log.now.log.events) second.now }
    ensures { result ≡ access_orders log.now.log (phase_access first.now) (phase_access second.now) }
{
    if !orders_others(&first.noted) {
        return false;
    }
    let Some(earlier) = first.event else {
        return false;
    };
    let Some(later) = second.event else {
        return false;
    };
    orders(log, jumps, earlier, later)
}

/// Whether two accesses of a phase conflict: they are of one object and a pair that may conflict, and neither orders the other.
pub(crate) fn conflict(
    log: &PhaseLog,
    jumps: &Vec<u64>,
    first: &Numbered,
    second: &Numbered,
) -> bool
    requires jumps { HasJumps log.now.log jumps.now.items }
    requires first { IsNumbered (length log.now.log.events) first.now }
    requires second { IsNumbered (length log.now.log.events) second.now }
    ensures { result ≡ conflict log.now.log (phase_access first.now) (phase_access second.now) }
{
    first.noted.access.object.0 == second.noted.access.object.0
        && clash(&first.noted, &second.noted)
        && !access_orders(log, jumps, first, second)
        && !access_orders(log, jumps, second, first)
}
