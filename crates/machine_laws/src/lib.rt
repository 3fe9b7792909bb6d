//! The laws of the loop that runs one slot of the first order, and what the events of a machine tell of themselves (IEEE 1364-2001, clauses 5 and 9.7).
//!
//! Clause 5 leaves the order of events free; the first order takes the least node with work, else the least lane, else the least ready process. A loop that begins
//! with the slot's first state, takes the event of the least node, lane or process, makes a turn where none is possible, and stops where no turn within the slot is
//! left or over 100,000 process and lane steps were taken, makes the moves of the definition: the bound on all its moves is never met before, and its phases are at most its
//! steps and one more. At the end its state,
//! its phases and the first race of these are the slot's end and its outcome. A write of an update is told by the one change that it makes; a step of a process or of
//! its lane that writes is told by its write, since it leaves its process ready and all other waits as they were. Each function here does nothing when it runs; its
//! contract is the law.
#![tactic(auto)]

ghost use Rattle.machine_laws.specs.SlotLoop.{SlotsBegin, EventsGoOn, StretchesGoOn, NodesGoOn, LanesGoOn, StepsGoOn, TurnsGoOn, QuietSlotsEnd, HyperSlotsEnd, NextSlotsBegin, RacesGoOn, NotesGoOn};
ghost use Rattle.machine_laws.specs.SlotLoop.{PhasesAreFew, SlotPhasesAreFew, TurnsWake};
ghost use Rattle.machine_laws.specs.StepTells.{StepsTell};

/// The slot begins, and each event, each turn within the slot leads from one moment of the first order to the next.
pub fn slot_goes_on()
    ensures begin { SlotsBegin }
    ensures node { NodesGoOn }
    ensures lane { LanesGoOn }
    ensures step { StepsGoOn }
    ensures turn { TurnsGoOn }
{
    order_laws::slots();
    order_laws::nets();
}

/// Whatever event the first order takes leads to the next moment, and so does a stretch of them.
pub fn stretches_go_on()
    ensures event { EventsGoOn }
    ensures stretch { StretchesGoOn }
{
    order_laws::slots();
}

/// The slot ends, and what its loop has then is its outcome; the slot after it begins as the laws ask.
pub fn slot_ends()
    ensures quiet { QuietSlotsEnd }
    ensures hyper { HyperSlotsEnd }
    ensures next { NextSlotsBegin }
{
    order_laws::nets();
}

/// The race and the notes of the phases so far.
pub fn phases_go_on()
    ensures races { RacesGoOn }
    ensures notes { NotesGoOn }
{}

/// The phases of a slot that ended are few: a step of a process or of a lane follows each turn within the slot.
pub fn phases_are_few()
    ensures few { PhasesAreFew }
    ensures slots { SlotPhasesAreFew }
    ensures wake { TurnsWake }
{}

/// What process and lane steps tell.
pub fn steps_tell()
    ensures { StepsTell }
{}
