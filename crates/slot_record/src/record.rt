// The record of a slot.

ghost use Rattle.std.specs.Prelude.{◌≡◌, ℕ, ◌+◌, ◌^◌, ◌<◌, List, [], map, length, IfOk, OnOk};
ghost use Rattle.std.specs.Option.{option_map};
ghost use Rattle.std.specs.List.{All};
ghost use Rattle.vf_base.specs.Base.{object_number, process_number, node_number, reported_pair};
ghost use Rattle.vf_base.specs.Lists.{AllHold};
ghost use Rattle.v_design.specs.Designs.{Machine};
ghost use Rattle.v_design.specs.States.{State, Event, Step, LaneStep};
ghost use Rattle.v_design.specs.Grades.{race_of};
ghost use Rattle.v_design.specs.PhaseLogs.{noted_events, phase_race};
ghost use Rattle.v_design.specs.PlainDesigns.{design_of};
ghost use Rattle.causal_monitor.specs.Notes.{IsNoted, IsHeld, noted_access};
ghost use Rattle.causal_monitor.specs.Phases.{IsLogOf};
ghost use Rattle.event_causes.specs.Causes.{AreCausesOf};
ghost use Rattle.machine_laws.specs.SlotLoop.{or_race};
ghost use Rattle.slot_record.specs.Records.{IsRecordOf, IsRecord, IsNodeRecord, SameRecord, process_count, object_count};
ghost use Rattle.slot_record.specs.SlotRecords.{IsEmptyLog, BeginsSlot, BeginsPhase, AddsStep, AddsNode, EndsPhase};

use crate::PhaseRecord;
use causal_monitor::{Noted, SlotLog, Turn};
use net_graph::Graph;
use std::alloc::Global;
use value_change::Change;
use vf_base::{NoMemory, NodeId, ObjectId, Pair, ProcId};

/// The record of a slot: its present phase with the turn before it and its number from 1, and the first race of the phases that ended.
#[derive(Drop)]
pub struct SlotRecord {
    phase: PhaseRecord,
    turn: Turn,
    number: u32,
    race: Option<Pair>,
}

/// The race that was found before, else that of a phase.
fn race_or(
    race: Option<Pair>,
    phase: &mut PhaseRecord,
    graph: &Graph,
) -> Result<Option<Pair>, NoMemory>
    requires { IsLogOf (design_of graph.now.design.now) phase.old.log.log }
    ensures race { IfOk result (λ found. (machine : Machine) (number : ℕ) (begins : State) (events : List Event) →
        machine.design ≡ design_of graph.now.design.now → IsRecordOf machine number begins (noted_events machine begins events) phase.old →
        option_map reported_pair found ≡ or_race (option_map reported_pair race) (option_map (race_of begins.time number) (phase_race machine begins events))) }
    ensures same { SameRecord phase.old phase.new }
{
    match race {
        Some(pair) => Ok(Some(pair)),
        None => {
            let found = phase.conflict(graph)?;
            Ok(found)
        }
    }
}

impl SlotRecord {
    /// A record for the slots of a design's machine, before the first of them.
    ///
    /// # Errors
    ///
    /// Want of memory.
    pub fn new(alloc: Global, processes: usize, objects: usize) -> Result<SlotRecord, NoMemory>
        ensures { IfOk result (λ kept. (machine : Machine) → length machine.design.processes ≡ processes → length machine.design.objects ≡ objects → AreCausesOf machine [] kept.phase.causes) }
    {
        let phase = PhaseRecord::new(alloc, processes, objects)?;
        Ok(SlotRecord {
            phase,
            turn: Turn::Start,
            number: 0,
            race: None,
        })
    }

    /// A slot begins, with no phase yet. `log` is left without phases; what the phases that it had hold is used again.
    ///
    /// # Errors
    ///
    /// Want of memory.
    pub fn begin_slot(&mut self, log: &mut SlotLog) -> Result<(), NoMemory>
        ensures begins { OnOk result (BeginsSlot self.old self.new) }
        ensures empty { OnOk result (IsEmptyLog log.new) }
        ensures number { OnOk result (self.new.number ≡ 0) }
    {
        self.phase.take_back(log)?;
        self.number = 0;
        self.race = None;
        Ok(())
    }

    /// A phase begins after a turn, at a time in steps, with the entries on net pieces of the waits that it begins with.
    ///
    /// # Errors
    ///
    /// Want of memory.
    pub fn begin_phase(&mut self, turn: Turn, time: u64, held: &[Noted]) -> Result<(), NoMemory>
        requires number { self.old.number + 1 < 2 ^ 32 }
        requires held { AllHold IsHeld held.now }
        requires objects { All (λ noted. object_number noted.access.object < object_count self.old.phase) held.now }
        ensures { OnOk result (BeginsPhase turn time (map noted_access held.now) self.old self.new) }
    {
        let number = self.number + 1;
        self.phase.begin_phase(time, number, held)?;
        self.turn = turn;
        self.number = number;
        Ok(())
    }

    /// Notes a step of a process in the present phase, with the line of its statement, its accesses, the objects that it changed and the processes whose
    /// waits it ended.
    ///
    /// # Errors
    ///
    /// Want of memory.
    pub fn note_step(
        &mut self,
        process: ProcId,
        line: u32,
        accesses: &[Noted],
        changed: &[ObjectId],
        ended: &[ProcId],
    ) -> Result<(), NoMemory>
        requires stands { IsRecord self.old.phase }
        requires process { process_number process < process_count self.old.phase }
        requires noted { AllHold IsNoted accesses.now }
        requires objects { All (λ noted. object_number noted.access.object < object_count self.old.phase) accesses.now }
        requires changed { All (λ object. object_number object < object_count self.old.phase) changed.now }
        requires ended { All (λ process. process_number process < process_count self.old.phase) ended.now }
        ensures { OnOk result (AddsStep (Step (process_number process)) line (map noted_access accesses.now) (map object_number changed.now) (map process_number ended.now) self.old self.new) }
    {
        machine_laws::phases_go_on();
        self.phase
            .note_step(process, line, accesses, changed, ended)?;
        Ok(())
    }

    /// Notes a step of a process's lane in the present phase, with the line of the update's statement, its accesses, the objects that it changed and the
    /// processes whose waits it ended.
    ///
    /// # Errors
    ///
    /// Want of memory.
    pub fn note_lane(
        &mut self,
        process: ProcId,
        line: u32,
        accesses: &[Noted],
        changed: &[ObjectId],
        ended: &[ProcId],
    ) -> Result<(), NoMemory>
        requires stands { IsRecord self.old.phase }
        requires process { process_number process < process_count self.old.phase }
        requires noted { AllHold IsNoted accesses.now }
        requires objects { All (λ noted. object_number noted.access.object < object_count self.old.phase) accesses.now }
        requires changed { All (λ object. object_number object < object_count self.old.phase) changed.now }
        requires ended { All (λ process. process_number process < process_count self.old.phase) ended.now }
        ensures { OnOk result (AddsStep (LaneStep (process_number process)) line (map noted_access accesses.now) (map object_number changed.now) (map process_number ended.now) self.old self.new) }
    {
        machine_laws::phases_go_on();
        self.phase
            .note_lane(process, line, accesses, changed, ended)?;
        Ok(())
    }

    /// Notes an evaluation of a node and the update of its nets that comes after it in the present phase, with the node's inputs, the changes of its nets in
    /// object order, the accesses of the waits that they ended, and the processes of these.
    ///
    /// # Errors
    ///
    /// Want of memory.
    pub fn note_node(
        &mut self,
        node: NodeId,
        inputs: &[ObjectId],
        changes: &[Change],
        ended_accesses: &[Noted],
        ended: &[ProcId],
    ) -> Result<(), NoMemory>
        requires stands { IsNodeRecord (node_number node) (map object_number inputs.now) self.old.phase }
        requires inputs { All (λ object. object_number object < object_count self.old.phase) inputs.now }
        requires changed { All (λ change. object_number change.object < object_count self.old.phase) changes.now }
        requires widths { All (λ change. length change.old ≡ length change.new) changes.now }
        requires noted { AllHold IsNoted ended_accesses.now }
        requires objects { All (λ noted. object_number noted.access.object < object_count self.old.phase) ended_accesses.now }
        requires ended { All (λ process. process_number process < process_count self.old.phase) ended.now }
        ensures { OnOk result (AddsNode (node_number node) (map object_number inputs.now) changes.now (map noted_access ended_accesses.now) (map process_number ended.now) self.old self.new) }
    {
        machine_laws::phases_go_on();
        self.phase
            .note_node(node, inputs, changes, ended_accesses, ended)?;
        Ok(())
    }

    /// The present phase ends: it is put at the end of the slot's log, and its race is kept where no phase before had one.
    ///
    /// # Errors
    ///
    /// Want of memory.
    pub fn end_phase(&mut self, graph: &Graph, log: &mut SlotLog) -> Result<(), NoMemory>
        requires { IsLogOf (design_of graph.now.design.now) self.old.phase.log.log }
        ensures { OnOk result (EndsPhase (design_of graph.now.design.now) self.old self.new log.old log.new) }
    {
        machine_laws::phases_go_on();
        let race = race_or(self.race, &mut self.phase, graph)?;
        self.phase.end_phase(self.turn, log)?;
        self.race = race;
        Ok(())
    }

    /// The number of the present phase, from 1; of the last one, where it has ended.
    pub fn number(&self) -> u32
        ensures { result ≡ self.now.number }
    {
        self.number
    }

    /// The least pair of conflicting accesses of the first phase that ended with one, `None` exactly where none did.
    pub fn race(&self) -> Option<Pair>
        ensures { result ≡ self.now.race }
    {
        self.race
    }
}
