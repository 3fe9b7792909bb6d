//! The process runs of a slot as a machine notes them: the steps of each process's present run so far, and the ends of the runs that ended, in the order in which they
//! ended (IEEE 1364-2001, clauses 5 and 9).
//!
//! Who runs a machine notes each step of a process, with what it did and read and where the process stood before it: by `go_on` where the process is ready after it, by
//! `end` where it isn't, with the phase's number and where the process stands then. Contracts say, for every machine and all events so far, that a `RunRecord` stands
//! for the phases with one event more (`RecordsRuns`); other events, and turns between phases, need no call (`runs_go_on`). At the end of a slot that isn't hyperactive
//! the ends are those of all runs of its phases, whichever codes of the processes one has (`AreRunEnds`).
#![tactic(auto)]

ghost use Rattle.run_record.specs.RunRecords.{EventsNoteNothing, PhasesNoteNothing, SlotsBeginNotes, SlotsEndNotes};

mod record;

pub use record::RunRecord;

/// What holds of notes without a call: an event that is no process step and a turn leave them as they are, a slot begins with none, and at its end they are the ends
/// of all its runs. It does nothing when it runs; its contract is the law.
pub fn runs_go_on()
    ensures events { EventsNoteNothing }
    ensures phases { PhasesNoteNothing }
    ensures begin { SlotsBeginNotes }
    ensures end { SlotsEndNotes }
{
    copy_laws::own_runs();
    present_runs::present_runs_lead();
}
