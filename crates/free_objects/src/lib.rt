//! Objects of which no two accesses conflict in a phase, by what its events do one by one (conflicts and causes by IEEE 1364-2001, clause 5).
//!
//! Where a phase of the faulty machine is filtered by `block_filter`, accesses of some objects are left to look at. Whoever counts these accesses knows that none conflict where nothing writes the
//! object, where one event or one run of a process alone accesses it, or where it is a net piece that is only written: `objects` has these laws. `accesses` tells what some events don't
//! access from what each stretch of them doesn't. Each function here does nothing when it runs; its contract is the law.
#![tactic(auto)]

ghost use Rattle.free_objects.specs.FreeObjects.{UnwrittenObjectsAreFree, SoleEventsAreFree, SoleRunsAreFree, UnreadNetsAreFree, WrittenNetsAreFree, LaterReadsAreFree};
ghost use Rattle.free_objects.specs.MetObjects.{MetReadsAreFree};
ghost use Rattle.free_objects.specs.Stretches.{StretchesJoin, AlikeStretchesDo};

/// What no event of two stretches does none of both does, and what none of the good machine's does none of those of the faulty machine does that do alike.
pub fn accesses()
    ensures join { StretchesJoin }
    ensures alike { AlikeStretchesDo }
{}

/// No two accesses of an object conflict where nothing writes it, where one event or one run of a process alone accesses it, or where it is a wild net piece that nothing reads or a net piece that
/// is only written. From some event on, none do where nothing writes the object from there on; so none of a met object are left where nothing writes it behind the first block that meets it.
pub fn objects()
    ensures unwritten { UnwrittenObjectsAreFree }
    ensures event { SoleEventsAreFree }
    ensures run { SoleRunsAreFree }
    ensures unread { UnreadNetsAreFree }
    ensures written { WrittenNetsAreFree }
    ensures later { LaterReadsAreFree }
    ensures met { MetReadsAreFree }
{}
