//! What a run and its races name (IEEE 1364-2001, clause 5, leaves the order of events and of accesses free): each update that a process comes to write is of an object of
//! the design, and where the grade of a fault is a race of the good or the faulty machine, each of its two accesses names an object and a process of the design. Each
//! function here does nothing when it runs; its contract is the law.
#![tactic(auto)]

ghost use Rattle.race_laws.specs.Races.{RacesNameParts};
ghost use Rattle.race_laws.specs.Writes.{WritesStay, NextWritesAreOf};

/// What the processes of a run are still to write is of the design, from its start on and with whatever events and turns; so the update that a lane or a step writes next is.
pub fn writes_stay()
    ensures stay { WritesStay }
    ensures next { NextWritesAreOf }
{}

/// The two accesses of a race name objects and processes of the design, whatever the fault and the plan.
pub fn races_name_parts()
    ensures { RacesNameParts }
{
    order_laws::grades();
}
