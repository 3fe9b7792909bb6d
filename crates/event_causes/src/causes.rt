// The numbers of the latest events.

ghost use Rattle.std.specs.Prelude.{◌≡◌, ℕ, ◌+◌, ◌^◌, ◌<◌, ◌≤◌, [], List, map, length, vec_len, Some, slice_get, IfOk};
ghost use Rattle.std.specs.Option.{ForSome};
ghost use Rattle.vf_base.specs.Base.{object_number, process_number};
ghost use Rattle.std.specs.List.{All};
ghost use Rattle.v_design.specs.Designs.{Machine, FlatNode};
ghost use Rattle.v_design.specs.States.{Step, LaneStep, Evaluation, NetUpdate};
ghost use Rattle.v_design.specs.PhaseLogs.{NotedEvent, cause_of, noted_at};

use crate::marks::{later, mark_objects, mark_processes, place_of};
use std::alloc::Global;
use vf_base::{NoMemory, ObjectId, ProcId};

/// The process and the line of the statement whose write an event follows; 0 where it follows none.
#[derive(Clone, Copy, PartialEq, Eq, Debug)]
pub struct Writer {
    pub process: ProcId,
    pub line: u32,
}

/// The greatest number with which a phase may begin. A phase has an entry in memory for each of its events, so its numbers end before 2^64.
const MOST_BASE: u64 = 1 << 63;

/// By process and by object the number of the latest event that may cause what comes next, and by event of the phase its process and line.
///
/// Events are numbered from 1 through all phases, so that no table is gone through between two of them; past 2^63 the next phase begins with 1 again.
#[derive(Drop)]
pub struct Causes {
    base: u64,
    next: u64,
    steps: Vec<u64>,
    lanes: Vec<u64>,
    changes: Vec<u64>,
    writers: Vec<Writer>,
    ghost low: { base ≤ 2 ^ 63 },
    ghost counted: { next ≡ base + vec_len writers },
}

impl Causes {
    ghost use Rattle.event_causes.specs.Causes.{AreCausesOf, Notes, NotesEvaluation, NotesUpdate, Begins, HasSizes, SameSizes, writer_of, cause_writer};

    /// What tells the causes of a design's events, before the first of them.
    ///
    /// # Errors
    ///
    /// Want of memory.
    pub fn new(alloc: Global, processes: usize, objects: usize) -> Result<Causes, NoMemory>
        ensures sized { IfOk result (λ causes. HasSizes processes objects causes) }
        ensures causes { IfOk result (λ causes. (machine : Machine) → length machine.design.processes ≡ processes → length machine.design.objects ≡ objects → AreCausesOf machine [] causes) }
    {
        let steps = vec![in alloc; 0u64; processes]?;
        let lanes = vec![in alloc; 0u64; processes]?;
        let changes = vec![in alloc; 0u64; objects]?;
        Ok(Causes {
            base: 1,
            next: 1,
            steps,
            lanes,
            changes,
            writers: Vec::new(alloc),
        })
    }

    /// A phase begins, with no event yet.
    pub fn begin_phase(&mut self)
        ensures sized { SameSizes self.old self.new }
        ensures causes { (machine : Machine) (earlier : List NotedEvent) → AreCausesOf machine earlier self.old → AreCausesOf machine [] self.new }
    {
        self.writers.clear();
        if self.next > MOST_BASE {
            self.steps.fill(0);
            self.lanes.fill(0);
            self.changes.fill(0);
            self.base = 1;
            self.next = 1;
            return;
        }
        self.base = self.next;
    }

    /// The cause of the next step of a process, by its place in the phase from 0: its last step, or the event that ended its wait.
    pub fn cause_of_step(&self, process: ProcId) -> Option<u64>
        requires { process_number process < length self.now.steps.items }
        ensures { (machine : Machine) (earlier : List NotedEvent) → AreCausesOf machine earlier self.now → result ≡ cause_of machine earlier (Step (process_number process)) }
    {
        place_of(self.base, self.steps[process.0 as usize])
    }

    /// The cause of the next step of a process's lane: its last one.
    pub fn cause_of_lane(&self, process: ProcId) -> Option<u64>
        requires { process_number process < length self.now.lanes.items }
        ensures { (machine : Machine) (earlier : List NotedEvent) → AreCausesOf machine earlier self.now → result ≡ cause_of machine earlier (LaneStep (process_number process)) }
    {
        place_of(self.base, self.lanes[process.0 as usize])
    }

    /// The cause of the next evaluation or update of a node with these inputs: the latest change of one of them.
    pub fn cause_of_node(&self, inputs: &[ObjectId]) -> Option<u64>
        requires { All (λ object. object_number object < length self.now.changes.items) inputs.now }
        ensures evaluation { (machine : Machine) (earlier : List NotedEvent) (number : ℕ) (node : FlatNode) → AreCausesOf machine earlier self.now →
            slice_get machine.design.nodes number ≡ Some node → node.inputs ≡ map object_number inputs.now →
            result ≡ cause_of machine earlier (Evaluation number) }
        ensures update { (machine : Machine) (earlier : List NotedEvent) (number : ℕ) (node : FlatNode) → AreCausesOf machine earlier self.now →
            slice_get machine.design.nodes number ≡ Some node → node.inputs ≡ map object_number inputs.now →
            result ≡ cause_of machine earlier (NetUpdate number) }
    {
        let mut latest = 0;
        'inputs: for input in inputs {
            latest = later(latest, self.changes[input.0 as usize]);
        }
        place_of(self.base, latest)
    }

    /// The process and the line that a node's event follows: those of its cause, 0 where it has none.
    pub fn writer_of(&self, cause: Option<u64>) -> Writer
        requires { ForSome cause (λ place. place < length self.now.writers.items) }
        ensures { (machine : Machine) (earlier : List NotedEvent) → AreCausesOf machine earlier self.now → writer_of result ≡ cause_writer (noted_at earlier cause) }
    {
        match cause {
            None => Writer {
                process: ProcId(0),
                line: 0,
            },
            Some(place) => self.writers[place as usize],
        }
    }

    /// One event more, with its writer. It answers its number.
    fn begin_event(&mut self, writer: Writer) -> Result<u64, NoMemory>
        ensures begins { IfOk result (λ number. Begins writer number self.old self.new) }
        ensures sized { IfOk result (λ _. SameSizes self.old self.new) }
    {
        let number = self.next;
        self.writers.push(writer)?;
        self.next = number + 1;
        Ok(number)
    }

    /// Notes a step of a process, with the line of its statement, the objects that it changed and the processes whose waits it ended.
    ///
    /// # Errors
    ///
    /// Want of memory.
    pub fn note_step(
        &mut self,
        process: ProcId,
        line: u32,
        changed: &[ObjectId],
        ended: &[ProcId],
    ) -> Result<(), NoMemory>
        requires process { process_number process < length self.old.steps.items }
        requires changed { All (λ object. object_number object < length self.old.changes.items) changed.now }
        requires ended { All (λ process. process_number process < length self.old.steps.items) ended.now }
        ensures sized { IfOk result (λ _. SameSizes self.old self.new) }
        ensures notes { IfOk result (λ _. Notes (Step (process_number process)) (record { process = process_number process; line = line })
            (map object_number changed.now) (map process_number ended.now) self.old self.new) }
    {
        let number = self.begin_event(Writer { process, line })?;
        self.steps[process.0 as usize] = number;
        mark_processes(&mut self.steps, ended, number);
        mark_objects(&mut self.changes, changed, number);
        Ok(())
    }

    /// Notes a step of a process's lane, with the line of the update's statement, the objects that it changed and the processes whose waits it ended.
    ///
    /// # Errors
    ///
    /// Want of memory.
    pub fn note_lane(
        &mut self,
        process: ProcId,
        line: u32,
        changed: &[ObjectId],
        ended: &[ProcId],
    ) -> Result<(), NoMemory>
        requires process { process_number process < length self.old.lanes.items }
        requires changed { All (λ object. object_number object < length self.old.changes.items) changed.now }
        requires ended { All (λ process. process_number process < length self.old.steps.items) ended.now }
        ensures sized { IfOk result (λ _. SameSizes self.old self.new) }
        ensures notes { IfOk result (λ _. Notes (LaneStep (process_number process)) (record { process = process_number process; line = line })
            (map object_number changed.now) (map process_number ended.now) self.old self.new) }
    {
        let number = self.begin_event(Writer { process, line })?;
        self.lanes[process.0 as usize] = number;
        mark_processes(&mut self.steps, ended, number);
        mark_objects(&mut self.changes, changed, number);
        Ok(())
    }

    /// Notes an evaluation of a node, which changes no object, with its cause.
    ///
    /// # Errors
    ///
    /// Want of memory.
    pub fn note_evaluation(&mut self, cause: Option<u64>) -> Result<(), NoMemory>
        requires { ForSome cause (λ place. place < length self.old.writers.items) }
        ensures sized { IfOk result (λ _. SameSizes self.old self.new) }
        ensures notes { IfOk result (λ _. NotesEvaluation cause self.old self.new) }
    {
        let writer = self.writer_of(cause);
        self.begin_event(writer)?;
        Ok(())
    }

    /// Notes an update of a node's nets, with its cause, the net pieces that it changed and the processes whose waits it ended.
    ///
    /// # Errors
    ///
    /// Want of memory.
    pub fn note_update(
        &mut self,
        cause: Option<u64>,
        changed: &[ObjectId],
        ended: &[ProcId],
    ) -> Result<(), NoMemory>
        requires cause { ForSome cause (λ place. place < length self.old.writers.items) }
        requires changed { All (λ object. object_number object < length self.old.changes.items) changed.now }
        requires ended { All (λ process. process_number process < length self.old.steps.items) ended.now }
        ensures sized { IfOk result (λ _. SameSizes self.old self.new) }
        ensures notes { IfOk result (λ _. NotesUpdate cause (map object_number changed.now) (map process_number ended.now) self.old self.new) }
    {
        let writer = self.writer_of(cause);
        let number = self.begin_event(writer)?;
        mark_processes(&mut self.steps, ended, number);
        mark_objects(&mut self.changes, changed, number);
        Ok(())
    }
}
