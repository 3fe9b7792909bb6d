//! Laws of the processes and nodes of a walk of which nothing is wrong (IEEE 1364-2001, clauses 6, 7 and 9).
//!
//! What a process reads and writes is sized for what its names mean, what it waits for is no wider than a vector may be, and its delays, bounds and counts have 32 bits, so
//! that a design can be made of it without a test. So it is with blocks that are nodes, and the values of assignments and gates have such bounds and counts (`specs/Texts`).
//! `specs/EntryLaws` speaks of event controls (clause 9.7.2), `specs/NarrowLaws` of expressions, `specs/NodeLaws` of the walk, and `specs/TextLaws` of statements. The
//! functions here do nothing when they run: their contracts are the laws.
#![tactic(auto)]

ghost use Rattle.sized_walks.specs.TextLaws.{ProcessesAreSized, NodesAreSized};

/// The processes of each walk of a text are sized for what their names mean.
pub fn processes_are_sized()
    ensures { ProcessesAreSized }
{}

/// So is what its nodes do.
pub fn nodes_are_sized()
    ensures { NodesAreSized }
{}
