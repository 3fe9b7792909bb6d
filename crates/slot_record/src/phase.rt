// The record of a phase.

ghost use Rattle.std.specs.Prelude.{◌≡◌, ℕ, ◌<◌, ◌++◌, [], ◌∷◌, List, map, length, IfOk, OnOk, Some};
ghost use Rattle.std.specs.Option.{option_map};
ghost use Rattle.std.specs.List.{All};
ghost use Rattle.vf_base.specs.Base.{object_number, process_number, node_number, reported_pair};
ghost use Rattle.vf_base.specs.Lists.{AllHold};
ghost use Rattle.v_design.specs.Designs.{Machine};
ghost use Rattle.v_design.specs.States.{State, Event, Step, LaneStep, Evaluation, NetUpdate};
ghost use Rattle.v_design.specs.Grades.{race_of};
ghost use Rattle.v_design.specs.Logs.{least_pair};
ghost use Rattle.v_design.specs.PhaseLogs.{NotedEvent, noted_events, phase_race};
ghost use Rattle.v_design.specs.PlainDesigns.{design_of};
ghost use Rattle.causal_monitor.specs.Notes.{IsNoted, IsHeld, noted_access};
ghost use Rattle.causal_monitor.specs.Phases.{IsLogOf};
ghost use Rattle.event_causes.specs.Causes.{AreCausesOf};
ghost use Rattle.slot_record.specs.Records.{IsRecordOf, IsRecord, IsNodeRecord, SameRecord, Follows, BeginsRecord, RecordsStep};
ghost use Rattle.slot_record.specs.Records.{RecordsNode, RecordsEvaluation, RecordsUpdate, held_phase, write_of_change, process_count, object_count};
ghost use Rattle.slot_record.specs.SlotLogs.{Appends};

use causal_monitor::{Actor, CheckIndex, Noted, PhaseLog, SlotLog, Turn, check};
use event_causes::{Causes, Writer};
use net_graph::Graph;
use std::alloc::Global;
use std::mem;
use value_change::Change;
use vf_base::{Access, AccessKind, NoMemory, NodeId, ObjectId, Pair, ProcId, Seq};

/// The record of a phase: what tells the causes of its next events, its log, and who acted in each event.
///
/// It keeps what it needs memory for: the index of the phase's accesses, and what phases held that were logged and are given back, which later ones take.
#[derive(Drop)]
pub struct PhaseRecord {
    alloc: Global,
    causes: Causes,
    log: PhaseLog,
    actors: Vec<Actor>,
    accesses: Vec<Noted>,
    changed: Vec<ObjectId>,
    index: CheckIndex,
    spare_logs: Vec<PhaseLog>,
    spare_actors: Vec<Seq<Actor>>,
}

/// Makes a log that of a phase without events, with the entries that it holds from its beginning.
fn begin_log(log: &mut PhaseLog, time: u64, number: u32, held: &[Noted]) -> Result<(), NoMemory>
    requires { AllHold IsHeld held.now }
    ensures { OnOk result (log.new ≡ held_phase time number (map noted_access held.now)) }
{
    log.restart(time, number);
    'entries: for entry in held {
        log.hold(*entry)?;
    }
    Ok(())
}

/// A log for a phase to come, whatever it holds: a spare one, else a new one.
fn any_log(alloc: Global, spare: &mut Vec<PhaseLog>) -> PhaseLog {
    match spare.pop() {
        Some(log) => log,
        None => PhaseLog::new(alloc, 0, 0),
    }
}

/// Room for the actors of a phase to come, whatever it holds: that of a spare one, else new room.
fn any_actors(alloc: Global, spare: &mut Vec<Seq<Actor>>) -> Vec<Actor> {
    match spare.pop() {
        Some(actors) => actors.into_vec(),
        None => Vec::new(alloc),
    }
}

/// Moves the elements of a list to the end of others. The list keeps its memory.
fn move_all<T: Drop>(alloc: Global, list: &mut Seq<T>, others: &mut Vec<T>) -> Result<(), NoMemory>
    ensures { OnOk result (list.new ≡ []) }
{
    let mut elements = mem::replace(list, Seq::from_vec(Vec::new(alloc))).into_vec();
    others.append(&mut elements)?;
    *list = Seq::from_vec(elements);
    Ok(())
}

/// Removes the elements of a list, which keeps its memory.
fn remove_all<T: Drop>(alloc: Global, list: &mut Seq<T>)
    ensures { list.new ≡ [] }
{
    let mut elements = mem::replace(list, Seq::from_vec(Vec::new(alloc))).into_vec();
    elements.clear();
    *list = Seq::from_vec(elements);
}

/// The write of a change, with the process and the line of a writer.
fn write_of(writer: Writer, change: &Change) -> Noted
    requires { length change.now.old ≡ length change.now.new }
    ensures access { noted_access result ≡ write_of_change (process_number writer.process) writer.line change.now }
    ensures noted { IsNoted result }
{
    let access = Access {
        kind: AccessKind::Write,
        object: change.object,
        process: writer.process,
        line: writer.line,
    };
    Noted {
        access,
        old: Some(change.old),
        new: Some(change.new),
        entry: None,
    }
}

/// The writes of some changes, with the process and the line of a writer, and then the accesses of the waits that they ended.
fn fill_accesses(
    accesses: &mut Vec<Noted>,
    writer: Writer,
    changes: &[Change],
    ended: &[Noted],
) -> Result<(), NoMemory>
    requires widths { All (λ change. length change.old ≡ length change.new) changes.now }
    requires noted { AllHold IsNoted ended.now }
    ensures accesses { OnOk result (map noted_access accesses.new.items ≡ map (write_of_change (process_number writer.process) writer.line) changes.now ++ map noted_access ended.now) }
    ensures noted { OnOk result (AllHold IsNoted accesses.new.items) }
{
    accesses.clear();
    'changes: for change in changes {
        accesses.push(write_of(writer, change))?;
    }
    accesses.extend_from_slice(ended)?;
    Ok(())
}

/// The objects of some changes.
fn fill_objects(objects: &mut Vec<ObjectId>, changes: &[Change]) -> Result<(), NoMemory>
    ensures { OnOk result (objects.new.items ≡ map (λ change. change.object) changes.now) }
{
    objects.clear();
    'changes: for change in changes {
        objects.push(change.object)?;
    }
    Ok(())
}

/// Puts an element at the end of a list.
fn push_onto<T: Drop>(alloc: Global, list: &mut Seq<T>, element: T) -> Result<(), NoMemory>
    ensures { OnOk result (list.new ≡ list.old ++ element ∷ []) }
{
    let mut elements = mem::replace(list, Seq::from_vec(Vec::new(alloc))).into_vec();
    elements.push(element)?;
    *list = Seq::from_vec(elements);
    Ok(())
}

impl PhaseRecord {
    /// A record for the phases of a design's machine, before the first of them.
    ///
    /// # Errors
    ///
    /// Want of memory.
    pub fn new(alloc: Global, processes: usize, objects: usize) -> Result<PhaseRecord, NoMemory>
        ensures { IfOk result (λ kept. (machine : Machine) → length machine.design.processes ≡ processes → length machine.design.objects ≡ objects → AreCausesOf machine [] kept.causes) }
    {
        let causes = Causes::new(alloc, processes, objects)?;
        Ok(PhaseRecord {
            alloc,
            causes,
            log: PhaseLog::new(alloc, 0, 0),
            actors: Vec::new(alloc),
            accesses: Vec::new(alloc),
            changed: Vec::new(alloc),
            index: CheckIndex::new(alloc),
            spare_logs: Vec::new(alloc),
            spare_actors: Vec::new(alloc),
        })
    }

    /// Takes back what the phases of a slot's log hold, so that later phases use its memory again. The log is left without phases.
    ///
    /// # Errors
    ///
    /// Want of memory.
    pub fn take_back(&mut self, slot: &mut SlotLog) -> Result<(), NoMemory>
        ensures phases { OnOk result (slot.new.phases ≡ []) }
        ensures actors { OnOk result (slot.new.actors ≡ []) }
        ensures turns { OnOk result (slot.new.turns ≡ []) }
        ensures time { slot.new.time ≡ slot.old.time }
        ensures causes { self.new.causes ≡ self.old.causes }
    {
        move_all(self.alloc, &mut slot.phases, &mut self.spare_logs)?;
        move_all(self.alloc, &mut slot.actors, &mut self.spare_actors)?;
        remove_all(self.alloc, &mut slot.turns);
        Ok(())
    }

    /// A phase of a slot begins, at a time in steps, with its number from 1 and the entries on net pieces of the waits that it begins with.
    ///
    /// # Errors
    ///
    /// Want of memory.
    pub fn begin_phase(&mut self, time: u64, number: u32, held: &[Noted]) -> Result<(), NoMemory>
        requires held { AllHold IsHeld held.now }
        requires objects { All (λ noted. object_number noted.access.object < object_count self.old) held.now }
        ensures { OnOk result (BeginsRecord time number (map noted_access held.now) self.old self.new) }
    {
        begin_log(&mut self.log, time, number, held)?;
        self.causes.begin_phase();
        self.actors.clear();
        Ok(())
    }

    /// Notes a step of a process, with the line of its statement, its accesses, the objects that it changed and the processes whose waits it ended.
    ///
    /// # Errors
    ///
    /// Want of memory.
    pub fn note_step(
        &mut self,
        process: ProcId,
        line: u32,
        accesses: &[Noted],
        changed: &[ObjectId],
        ended: &[ProcId],
    ) -> Result<(), NoMemory>
        requires stands { IsRecord self.old }
        requires process { process_number process < process_count self.old }
        requires noted { AllHold IsNoted accesses.now }
        requires objects { All (λ noted. object_number noted.access.object < object_count self.old) accesses.now }
        requires changed { All (λ object. object_number object < object_count self.old) changed.now }
        requires ended { All (λ process. process_number process < process_count self.old) ended.now }
        ensures { OnOk result (RecordsStep (Step (process_number process)) line (map noted_access accesses.now) (map object_number changed.now) (map process_number ended.now) self.old self.new) }
    {
        let cause = self.causes.cause_of_step(process);
        self.log.note(cause, accesses)?;
        self.causes.note_step(process, line, changed, ended)?;
        self.actors.push(Actor::Step(process))?;
        Ok(())
    }

    /// Notes a step of a process's lane, with the line of the update's statement, its accesses, the objects that it changed and the processes whose waits it
    /// ended.
    ///
    /// # Errors
    ///
    /// Want of memory.
    pub fn note_lane(
        &mut self,
        process: ProcId,
        line: u32,
        accesses: &[Noted],
        changed: &[ObjectId],
        ended: &[ProcId],
    ) -> Result<(), NoMemory>
        requires stands { IsRecord self.old }
        requires process { process_number process < process_count self.old }
        requires noted { AllHold IsNoted accesses.now }
        requires objects { All (λ noted. object_number noted.access.object < object_count self.old) accesses.now }
        requires changed { All (λ object. object_number object < object_count self.old) changed.now }
        requires ended { All (λ process. process_number process < process_count self.old) ended.now }
        ensures { OnOk result (RecordsStep (LaneStep (process_number process)) line (map noted_access accesses.now) (map object_number changed.now) (map process_number ended.now) self.old self.new) }
    {
        let cause = self.causes.cause_of_lane(process);
        self.log.note(cause, accesses)?;
        self.causes.note_lane(process, line, changed, ended)?;
        self.actors.push(Actor::Lane(process))?;
        Ok(())
    }

    /// Notes an evaluation of a node and the update of its nets that comes after it, with the node's inputs, the changes of its nets in object order, the
    /// accesses of the waits that they ended, and the processes of these. The writes have the process and the line of the write that they follow.
    ///
    /// # Errors
    ///
    /// Want of memory.
    pub fn note_node(
        &mut self,
        node: NodeId,
        inputs: &[ObjectId],
        changes: &[Change],
        ended_accesses: &[Noted],
        ended: &[ProcId],
    ) -> Result<(), NoMemory>
        requires stands { IsNodeRecord (node_number node) (map object_number inputs.now) self.old }
        requires inputs { All (λ object. object_number object < object_count self.old) inputs.now }
        requires changed { All (λ change. object_number change.object < object_count self.old) changes.now }
        requires widths { All (λ change. length change.old ≡ length change.new) changes.now }
        requires noted { AllHold IsNoted ended_accesses.now }
        requires objects { All (λ noted. object_number noted.access.object < object_count self.old) ended_accesses.now }
        requires ended { All (λ process. process_number process < process_count self.old) ended.now }
        ensures { OnOk result (RecordsNode (node_number node) (map object_number inputs.now) changes.now (map noted_access ended_accesses.now) (map process_number ended.now) self.old self.new) }
    {
        let cause = self.causes.cause_of_node(inputs);
        self.note_evaluation(node, cause)?;
        self.note_update(node, cause, changes, ended_accesses, ended)?;
        Ok(())
    }

    /// Notes an evaluation of a node, with its cause.
    fn note_evaluation(&mut self, node: NodeId, cause: Option<u64>) -> Result<(), NoMemory>
        requires { Follows (Evaluation (node_number node)) cause self.old }
        ensures { OnOk result (RecordsEvaluation (node_number node) cause self.old self.new) }
    {
        self.log.note(cause, &[])?;
        self.causes.note_evaluation(cause)?;
        self.actors.push(Actor::Eval(node))?;
        Ok(())
    }

    /// Notes an update of a node's nets, with its cause, the changes in object order, the accesses of the waits that they ended, and the processes of these.
    fn note_update(
        &mut self,
        node: NodeId,
        cause: Option<u64>,
        changes: &[Change],
        ended_accesses: &[Noted],
        ended: &[ProcId],
    ) -> Result<(), NoMemory>
        requires follows { Follows (NetUpdate (node_number node)) cause self.old }
        requires changed { All (λ change. object_number change.object < object_count self.old) changes.now }
        requires widths { All (λ change. length change.old ≡ length change.new) changes.now }
        requires noted { AllHold IsNoted ended_accesses.now }
        requires objects { All (λ noted. object_number noted.access.object < object_count self.old) ended_accesses.now }
        requires ended { All (λ process. process_number process < process_count self.old) ended.now }
        ensures { OnOk result (RecordsUpdate (node_number node) cause changes.now (map noted_access ended_accesses.now) (map process_number ended.now) self.old self.new) }
    {
        let writer = self.causes.writer_of(cause);
        fill_accesses(&mut self.accesses, writer, changes, ended_accesses)?;
        fill_objects(&mut self.changed, changes)?;
        self.log.note(cause, &self.accesses)?;
        self.causes.note_update(cause, &self.changed, ended)?;
        self.actors.push(Actor::Move(node))?;
        Ok(())
    }

    /// The least pair of conflicting accesses of the phase as it is recorded, `None` exactly where it has no conflict. The record stays.
    ///
    /// # Errors
    ///
    /// Want of memory.
    pub fn conflict(&mut self, graph: &Graph) -> Result<Option<Pair>, NoMemory>
        requires { IsLogOf (design_of graph.now.design.now) self.old.log.log }
        ensures pair { IfOk result (λ pair. (machine : Machine) (number : ℕ) (begins : State) (events : List Event) →
            machine.design ≡ design_of graph.now.design.now → IsRecordOf machine number begins (noted_events machine begins events) self.old →
            option_map reported_pair pair ≡ option_map (race_of begins.time number) (phase_race machine begins events)) }
        ensures same { SameRecord self.old self.new }
    {
        self.index.fill(&self.log, graph)?;
        let pair = check(&self.log, graph, &mut self.index);
        Ok(pair)
    }

    /// Hands the phase to the log of its slot, with the turn before it.
    ///
    /// # Errors
    ///
    /// Want of memory.
    pub fn end_phase(&mut self, turn: Turn, slot: &mut SlotLog) -> Result<(), NoMemory>
        ensures appends { OnOk result (Appends self.old turn slot.old slot.new) }
        ensures causes { OnOk result (self.new.causes ≡ self.old.causes) }
    {
        let next = any_log(self.alloc, &mut self.spare_logs);
        let log = mem::replace(&mut self.log, next);
        let room = any_actors(self.alloc, &mut self.spare_actors);
        let actors = mem::replace(&mut self.actors, room);
        push_onto(self.alloc, &mut slot.phases, log)?;
        push_onto(self.alloc, &mut slot.actors, Seq::from_vec(actors))?;
        push_onto(self.alloc, &mut slot.turns, turn)?;
        Ok(())
    }
}
