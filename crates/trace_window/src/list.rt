// What the events of a window write and touch, and who acts in them, gathered from the logs of its slots.

ghost use Rattle.std.specs.Prelude.{◌≡◌, ◌+◌, ◌++◌, [], ◌∷◌, map, IfOk, OnOk, OnErr};
ghost use Rattle.vf_base.specs.Lists.{AllHold};
ghost use Rattle.causal_monitor.specs.Notes.{IsNoted, noted_access};
ghost use Rattle.slot_record.specs.Records.{event_of};
ghost use Rattle.trace_window.specs.Listed.{phase_accesses, log_accesses, log_events, HasActors, IsActed};
ghost use Rattle.trace_window.specs.Kinds.{is_write, is_touch};
ghost use Rattle.trace_window.specs.Occurring.{below};
ghost use Rattle.trace_window.specs.Touched.{touches_in};
ghost use Rattle.trace_window.specs.Writes.{written_of, writes_in};

use crate::acted::{node_evaluated, process_stepped, push_number};
use crate::change::Change;
use crate::occurrences::push_below;
use crate::sizes::Sizes;
use causal_monitor::{Actor, Noted, PhaseLog, SlotLog};
use std::alloc::Global;
use vf_base::{AccessKind, NoMemory};
use window_index::Occurrence;

/// What the events of a window write and touch, in order, and who acts in them, and the moment of the next event.
#[derive(Drop)]
pub struct EventList {
    pub moment: u32,
    pub changes: Vec<Change>,
    /// The objects that the events read or write, each at the moment of its event.
    pub touches: Vec<Occurrence>,
    /// The nodes that are evaluated, and the processes that take steps, each at the moment of the event.
    pub evaluations: Vec<Occurrence>,
    pub steps: Vec<Occurrence>,
}

/// Whether an access of a kind is a write.
fn is_write(kind: AccessKind) -> bool
    ensures { result ≡ is_write kind }
{
    match kind {
        AccessKind::Read => false,
        AccessKind::Write => true,
        AccessKind::Await => false,
        AccessKind::Ended => false,
        AccessKind::Held => false,
        AccessKind::Settle => false,
    }
}

/// Whether an access of a kind is a read or a write.
fn is_touch(kind: AccessKind) -> bool
    ensures { result ≡ is_touch kind }
{
    match kind {
        AccessKind::Read => true,
        AccessKind::Write => true,
        AccessKind::Await => false,
        AccessKind::Ended => false,
        AccessKind::Held => false,
        AccessKind::Settle => false,
    }
}

/// Puts an access behind some changes, if it is a write.
fn push_write(changes: &mut Vec<Change>, moment: u32, noted: &Noted) -> Result<(), NoMemory>
    requires { IsNoted noted.now }
    ensures { OnOk result (map written_of changes.new.items ≡ map written_of changes.old.items ++ writes_in moment (noted_access noted.now ∷ [])) }
{
    let writes = is_write(noted.access.kind);
    if !writes {
        return Ok(());
    }
    let value = noted.new.unwrap();
    let object = noted.access.object;
    changes.push(Change {
        moment,
        object,
        value,
    })?;
    Ok(())
}

/// Puts an access behind some touches, if it is a read or a write of one of so many objects.
fn push_touch(
    touches: &mut Vec<Occurrence>,
    objects: u32,
    moment: u32,
    noted: &Noted,
) -> Result<(), NoMemory>
    ensures { OnOk result (touches.new.items ≡ touches.old.items ++ below objects (touches_in moment (noted_access noted.now ∷ []))) }
{
    let is_touched = is_touch(noted.access.kind);
    if !is_touched {
        return Ok(());
    }
    let number = noted.access.object.0;
    push_below(touches, objects, Occurrence { number, moment })?;
    Ok(())
}

/// Puts the writes among the accesses of an event behind some changes.
fn push_writes(changes: &mut Vec<Change>, moment: u32, accesses: &[Noted]) -> Result<(), NoMemory>
    requires { AllHold IsNoted accesses.now }
    ensures { OnOk result (map written_of changes.new.items ≡ map written_of changes.old.items ++ writes_in moment (map noted_access accesses.now)) }
{
    'accesses: for noted in accesses {
        push_write(changes, moment, noted)?;
    }
    Ok(())
}

/// Puts the reads and writes of so many objects among the accesses of an event behind some touches.
fn push_touches(
    touches: &mut Vec<Occurrence>,
    objects: u32,
    moment: u32,
    accesses: &[Noted],
) -> Result<(), NoMemory>
    ensures { OnOk result (touches.new.items ≡ touches.old.items ++ below objects (touches_in moment (map noted_access accesses.now))) }
{
    'accesses: for noted in accesses {
        push_touch(touches, objects, moment, noted)?;
    }
    Ok(())
}

/// The moment after another.
fn next_moment(moment: u32) -> Result<u32, NoMemory>
    ensures { IfOk result (λ next. next ≡ moment + 1) }
{
    match moment.checked_add(1) {
        None => Err(NoMemory),
        Some(next) => Ok(next),
    }
}

impl EventList {
    ghost use Rattle.trace_window.specs.Gathered.{Gathers, IsSameList, HasRoom, BeginsAt, Joins};

    /// The list of a window of no events.
    pub fn new(alloc: Global) -> EventList
        ensures { BeginsAt 0 result }
    {
        EventList {
            moment: 0,
            changes: Vec::new(alloc),
            touches: Vec::new(alloc),
            evaluations: Vec::new(alloc),
            steps: Vec::new(alloc),
        }
    }

    /// Lets go all events; the next one has a moment. The memory is used again.
    pub fn restart(&mut self, moment: u32)
        ensures { BeginsAt moment self.new }
    {
        self.moment = moment;
        self.changes.clear();
        self.touches.clear();
        self.evaluations.clear();
        self.steps.clear();
    }

    /// Puts an event at the end, in which somebody acts.
    fn note_event(&mut self, sizes: Sizes, accesses: &[Noted], actor: Actor) -> Result<(), NoMemory>
        requires { AllHold IsNoted accesses.now }
        ensures { OnOk result (Gathers sizes (map noted_access accesses.now ∷ []) (event_of actor ∷ []) self.old self.new) }
    {
        let moment = self.moment;
        let next = next_moment(moment)?;
        push_writes(&mut self.changes, moment, accesses)?;
        push_touches(&mut self.touches, sizes.objects, moment, accesses)?;
        let node = node_evaluated(actor);
        push_number(&mut self.evaluations, sizes.nodes, moment, node)?;
        let process = process_stepped(actor);
        push_number(&mut self.steps, sizes.processes, moment, process)?;
        self.moment = next;
        Ok(())
    }

    /// Puts the events of a phase at the end, in which these act.
    fn note_phase(&mut self, sizes: Sizes, log: &PhaseLog, actors: &[Actor]) -> Result<(), NoMemory>
        requires { HasActors log.now actors.now }
        ensures { OnOk result (Gathers sizes (phase_accesses log.now) (map event_of actors.now) self.old self.new) }
    {
        'events: for (event, actor) in actors.iter().enumerate() {
            self.note_event(sizes, log.accesses_of(event as u64), *actor)?;
        }
        Ok(())
    }

    /// Puts the events of a slot at the end.
    fn note_slot(&mut self, sizes: Sizes, log: &SlotLog) -> Result<(), NoMemory>
        requires { IsActed log.now }
        ensures { OnOk result (Gathers sizes (log_accesses log.now) (log_events log.now) self.old self.new) }
    {
        let phases = log.phases.as_slice();
        let actors = log.actors.as_slice();
        'phases: for (number, phase) in phases.iter().enumerate() {
            self.note_phase(sizes, phase, actors[number].as_slice())?;
        }
        Ok(())
    }

    /// Makes room for the events of another list.
    fn reserve(&mut self, more: &EventList) -> Result<(), NoMemory>
        ensures same { IsSameList self.old self.new }
        ensures room { OnOk result (HasRoom more.now self.new) }
    {
        self.changes.reserve(more.changes.len())?;
        self.touches.reserve(more.touches.len())?;
        self.evaluations.reserve(more.evaluations.len())?;
        self.steps.reserve(more.steps.len())?;
        Ok(())
    }

    /// Puts the events of another list, whose numbers go on from those of this one, at the end; none are left there.
    fn append(&mut self, more: &mut EventList) -> Result<(), NoMemory>
        ensures joins { OnOk result (Joins self.old more.old self.new) }
        ensures stays { OnErr result (IsSameList self.old self.new) }
    {
        self.reserve(more)?;
        // There is room for all of them now.
        self.changes.append(&mut more.changes)?;
        self.touches.append(&mut more.touches)?;
        self.evaluations.append(&mut more.evaluations)?;
        self.steps.append(&mut more.steps)?;
        self.moment = more.moment;
        Ok(())
    }

    /// Puts the events of a slot of a design of these sizes at the end. `slot` is a list whose memory is used for them.
    ///
    /// # Errors
    ///
    /// Want of memory, or no further number of a moment. The list is as before then.
    pub fn push_slot(
        &mut self,
        sizes: Sizes,
        log: &SlotLog,
        slot: &mut EventList,
    ) -> Result<(), NoMemory>
        requires { IsActed log.now }
        ensures gathers { OnOk result (Gathers sizes (log_accesses log.now) (log_events log.now) self.old self.new) }
        ensures stays { OnErr result (IsSameList self.old self.new) }
    {
        slot.restart(self.moment);
        slot.note_slot(sizes, log)?;
        self.append(slot)?;
        Ok(())
    }
}
