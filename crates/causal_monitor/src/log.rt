// The log of a phase.

ghost use Rattle.std.specs.Prelude.{◌≡◌, ℕ, ◌+◌, ◌<◌, List, [], ◌∷◌, ◌++◌, map, length, OnOk, OnErr, IfOk};
ghost use Rattle.std.specs.Option.{ForSome};
ghost use Rattle.vf_base.specs.Lists.{AllHold};
ghost use Rattle.v_design.specs.Logs.{cause_at};
ghost use Rattle.causal_monitor.specs.Notes.{IsNoted, IsHeld, noted_access};
ghost use Rattle.causal_monitor.specs.Phases.{with_event, with_held, empty_log, accesses_at, CausesComeBefore};

use crate::noted::Noted;
use std::alloc::Global;
use std::marker::Model;
use vf_base::NoMemory;

/// An event: the number of the event that caused it, and where its accesses stand in order among those of all events, from a place to before another.
#[derive(Clone, Copy, Debug)]
struct Entry {
    cause: Option<u64>,
    start: usize,
    end: usize,
}

/// The log of a phase of a slot, which contracts see as the slot's time, the phase's number from 1, the held entries, and the events in order.
#[derive(Drop)]
pub struct PhaseLog {
    time: u64,
    phase: u32,
    held: Vec<Noted>,
    accesses: Vec<Noted>,
    events: Vec<Entry>,
}

impl Model for PhaseLog {
    ghost use Rattle.causal_monitor.specs.Phases.{PhaseOfSlot};

    ghost Value = { PhaseOfSlot };

    ghost use Rattle.causal_monitor.specs.Entries.{logged_phase, IsKept};

    ghost view = { λ l. record { time = l.time; phase = l.phase; log = logged_phase l.held.items l.accesses.items l.events.items } };

    ghost invariant = { λ l. IsKept l.held.items l.accesses.items l.events.items };
}

impl PhaseLog {
    /// The log of a phase of which nothing is noted yet.
    pub fn new(alloc: Global, time: u64, phase: u32) -> PhaseLog
        ensures { result ≡ empty_log time phase }
    {
        PhaseLog {
            time,
            phase,
            held: Vec::new(alloc),
            accesses: Vec::new(alloc),
            events: Vec::new(alloc),
        }
    }

    /// Becomes the log of another phase of which nothing is noted yet. The memory that the log has stays with it.
    pub fn restart(&mut self, time: u64, phase: u32)
        ensures { self.new ≡ empty_log time phase }
    {
        self.time = time;
        self.phase = phase;
        self.held.clear();
        self.accesses.clear();
        self.events.clear();
    }

    /// Notes an event with its cause and its accesses, and gives its number.
    pub fn note(&mut self, cause: Option<u64>, accesses: &[Noted]) -> Result<u64, NoMemory>
        requires earlier { ForSome cause (λ c. c < length self.old.log.events) }
        requires noted { AllHold IsNoted accesses.now }
        ensures number { IfOk result (λ number. number ≡ length self.old.log.events) }
        ensures ok { OnOk result (self.new ≡ with_event (record { cause = cause; accesses = map noted_access accesses.now }) self.old) }
        ensures err { OnErr result (self.new ≡ self.old) }
    {
        let number = self.events.len() as u64;
        let start = self.accesses.len();
        self.accesses.extend_from_slice(accesses)?;
        let end = self.accesses.len();
        self.events.push(Entry { cause, start, end })?;
        Ok(number)
    }

    /// Notes an entry on a net piece of a wait that the phase begins with.
    pub fn hold(&mut self, entry: Noted) -> Result<(), NoMemory>
        requires first { self.old.log.events ≡ [] }
        requires held { IsHeld entry }
        ensures ok { OnOk result (self.new ≡ with_held (noted_access entry) self.old) }
        ensures err { OnErr result (self.new ≡ self.old) }
    {
        self.held.extend_from_slice(&[entry])?;
        Ok(())
    }

    /// The cause of an event, by its number; `None` where it was noted without one.
    pub fn cause_of(&self, event: u64) -> Option<u64>
        requires { event < length self.now.log.events }
        ensures { result ≡ cause_at self.now.log event }
    {
        self.events[event as usize].cause
    }

    /// The time of the slot, in steps.
    pub fn time(&self) -> u64
        ensures { result ≡ self.now.time }
    {
        self.time
    }

    /// The number of the phase, from 1.
    pub fn phase(&self) -> u32
        ensures { result ≡ self.now.phase }
    {
        self.phase
    }

    /// The entries on net pieces of the waits that the phase began with.
    pub fn held(&self) -> &[Noted]
        ensures entries { map noted_access result.now ≡ self.now.log.held }
        ensures held { AllHold IsHeld result.now }
    {
        &self.held
    }

    /// How many events are noted; each comes after its cause.
    pub fn event_count(&self) -> u64
        ensures count { result ≡ length self.now.log.events }
        ensures earlier { CausesComeBefore self.now.log }
    {
        self.events.len() as u64
    }

    /// The accesses of an event that were noted, by its number.
    pub fn accesses_of(&self, event: u64) -> &[Noted]
        requires { event < length self.now.log.events }
        ensures accesses { map noted_access result.now ≡ accesses_at self.now.log event }
        ensures noted { AllHold IsNoted result.now }
    {
        let entry = self.events[event as usize];
        &self.accesses[entry.start..entry.end]
    }
}
