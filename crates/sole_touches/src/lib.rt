//! Objects on which no process may wait, by how often a phase reads or writes them (conflicts by IEEE 1364-2001, clause 5).
//!
//! Where nothing waits on an object all its accesses are reads and writes, which the tables of a window tell. A phase of a faulty machine in lockstep is counted by the good
//! machine's stretches and the faulty machine's own blocks (`accesses_are_counted`). An object that is read or written once at most is free, and so is a variable that one run of
//! a process alone reads and writes, and a net piece that nothing reads (`unawaited_objects`). Each function here does nothing when it runs; its contract is the law.
#![tactic(auto)]

ghost use Rattle.sole_touches.specs.Counts.{NoneAreCounted, CountsJoin, AlikeCounts, PairsAreCounted};
ghost use Rattle.sole_touches.specs.Unawaited.{WritesAloneTouch, UntouchedAreUnused, UnawaitedAreUnheld, SoleTouchesAreFree, SoleRunsTouchFree, UnreadNetsAreFree};

/// The accesses of some events that pass a test are counted stretch by stretch, and those of a phase in lockstep by the good machine's stretches and the faulty machine's own blocks.
pub fn accesses_are_counted()
    ensures none { NoneAreCounted }
    ensures join { CountsJoin }
    ensures alike { AlikeCounts }
    ensures pairs { PairsAreCounted }
{}

/// No event reads an object where each that reads or writes it writes it.
pub fn writers_dont_read()
    ensures { WritesAloneTouch }
{}

/// No two accesses of an object on which no process waits conflict where it is read or written once at most, where one run of a process alone reads and writes it, or where it is a net piece that
/// nothing reads; and where nothing reads or writes it nothing accesses it.
pub fn unawaited_objects()
    ensures unused { UntouchedAreUnused }
    ensures unheld { UnawaitedAreUnheld }
    ensures sole { SoleTouchesAreFree }
    ensures run { SoleRunsTouchFree }
    ensures unread { UnreadNetsAreFree }
{
    lockstep_waits::only_texts_wait();
    free_objects::objects();
}
