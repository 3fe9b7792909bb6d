// A machine put into a given state between two slots, and where its processes stand.

ghost use Rattle.std.specs.Prelude.{◌≡◌, ◌<◌, ℕ, false, length, map, slice_set, option_map, [], OnOk};
ghost use Rattle.vf_base.specs.Base.{object_number, process_number};
ghost use Rattle.vf_base.specs.Lists.{change_at};
ghost use Rattle.v_design.specs.Designs.{width_in};
ghost use Rattle.v_design.specs.Plain.{due_of, fault_of};
ghost use Rattle.v_design.specs.States.{ProcessState, process_at, idle_process, turn_of};
ghost use Rattle.process_code.specs.Points.{activity_of};
ghost use Rattle.process_code.specs.StatesOf.{IsStateOf};
ghost use Rattle.process_code.specs.declared.code.Code.{Code};
ghost use Rattle.run_ends.specs.RunEnds.{IsCodeAt};
ghost use Rattle.process_table.specs.Puts.{StandsAt, process_at_state};
ghost use Rattle.machine.specs.declared.parts.Stage.{Stage};
ghost use Rattle.machine.specs.Standing.{IsStanding, IsCleared, StandsBetween, machine_kept, state_kept, notes_runs, begins_next, slot_after, cleared_state};

use crate::parts::{Machine, Stage};
use causal_monitor::{SlotLog, Turn};
use four_value::Vec4;
use machine_events::begin_phase;
use process_code::ProcState;
use v_design::{Due, Fault};
use vf_base::{NoMemory, ObjectId, ProcId};

impl<'d> Machine<'d> {
    /// The machine becomes that of the same design, good or under another fault, and may be put into a state at a time in steps: no node has work, each process is done, and no
    /// slot is left to it until it stands between two slots again. `log` is left without phases; the memory of what it held is used again.
    ///
    /// # Errors
    ///
    /// Want of memory.
    pub fn clear(
        &mut self,
        fault: Option<Fault>,
        time: u64,
        log: &mut SlotLog,
    ) -> Result<(), NoMemory>
        requires { IsStanding self.old }
        ensures machine { OnOk result (machine_kept self.new ≡ record (machine_kept self.old) { fault = option_map fault_of fault }) }
        ensures state { OnOk result (state_kept self.new ≡ cleared_state (machine_kept self.old).design time (state_kept self.old).values) }
        ensures cleared { OnOk result (IsCleared self.new) }
        ensures notes { OnOk result (notes_runs self.new ≡ notes_runs self.old) }
    {
        self.table.clear(time);
        self.nets.unmark_all();
        self.record.begin_slot(log)?;
        begin_phase(&self.table, &mut self.record, &mut self.told, Turn::Start)?;
        self.nets.set_fault(fault);
        self.stage = Stage::Over;
        Ok(())
    }

    /// An object holds a value. Nothing sees that as a change.
    pub fn put_value(&mut self, object: ObjectId, value: Vec4)
        requires cleared { IsCleared self.old }
        requires there { object_number object < length (state_kept self.old).values }
        requires width { length value ≡ width_in (machine_kept self.old).design (object_number object) }
        ensures machine { machine_kept self.new ≡ machine_kept self.old }
        ensures state { state_kept self.new ≡ record (state_kept self.old) { values = slice_set (state_kept self.old).values (object_number object) value } }
        ensures cleared { IsCleared self.new }
        ensures notes { notes_runs self.new ≡ notes_runs self.old }
    {
        self.nets.put(object, value);
    }

    /// A process comes to stand at a state, with some of its updates pending, in the order of their appends. The state may be one of any code of the process.
    ///
    /// # Errors
    ///
    /// Want of memory.
    pub fn put_process(
        &mut self,
        process: ProcId,
        state: ProcState,
        updates: &[Due],
    ) -> Result<(), NoMemory>
        requires cleared { IsCleared self.old }
        requires number { process_number process < length (state_kept self.old).processes }
        requires idle { process_at (state_kept self.old) (process_number process) ≡ idle_process }
        requires stands { (code : Code) → IsCodeAt (machine_kept self.old).design (process_number process) code →
            StandsAt (machine_kept self.old).design (state_kept self.old).time (process_number process) state (map due_of updates.now) code }
        ensures machine { OnOk result (machine_kept self.new ≡ machine_kept self.old) }
        ensures state { OnOk result ((code : Code) → IsCodeAt (machine_kept self.old).design (process_number process) code → state_kept self.new ≡ record (state_kept self.old) {
          processes = change_at (state_kept self.old).processes (process_number process) (λ (old : ProcessState). process_at_state code state (map due_of updates.now));
        }) }
        ensures cleared { OnOk result (IsCleared self.new) }
        ensures notes { OnOk result (notes_runs self.new ≡ notes_runs self.old) }
    {
        self.table.put(process, state, updates)?;
        Ok(())
    }

    /// A machine that was put into a state between two slots of its first run stands there: its next slot is the one that the state leads to.
    pub fn stand_between(&mut self)
        requires cleared { IsCleared self.old }
        requires state { StandsBetween (machine_kept self.old) (state_kept self.old) }
        requires notes { notes_runs self.old ≡ false }
        ensures machine { machine_kept self.new ≡ machine_kept self.old }
        ensures state { state_kept self.new ≡ state_kept self.old }
        ensures standing { IsStanding self.new }
        ensures next { begins_next self.new ≡ slot_after (state_kept self.old) (turn_of (state_kept self.old)) }
        ensures between { self.new.stage ≡ Stage.Between }
        ensures notes { notes_runs self.new ≡ notes_runs self.old }
    {
        self.stage = Stage::Between;
    }

    /// The present time, in steps: that of the slot that was run last, or the one at which the machine was put into a state.
    pub fn time(&self) -> u64
        ensures { result ≡ (state_kept self.now).time }
    {
        self.table.time()
    }

    /// Where a process stands: in each code of the process it is a state that does what the process does.
    pub fn state_of(&self, process: ProcId) -> &ProcState
        requires standing { IsStanding self.now }
        requires number { process_number process < length (state_kept self.now).processes }
        ensures state { (code : Code) → IsCodeAt (machine_kept self.now).design (process_number process) code → IsStateOf code result.now }
        ensures activity { (code : Code) → IsCodeAt (machine_kept self.now).design (process_number process) code →
            activity_of code result.now ≡ (process_at (state_kept self.now) (process_number process)).activity }
    {
        self.table.state_of(process)
    }

    /// The nonblocking updates of a process that are pending, in the order of their appends.
    pub fn updates_of(&self, process: ProcId) -> &[Due]
        requires standing { IsStanding self.now }
        requires number { process_number process < length (state_kept self.now).processes }
        ensures { map due_of result.now ≡ (process_at (state_kept self.now) (process_number process)).later }
    {
        self.table.updates_of(process)
    }

    /// A machine that stands after a slot that wasn't hyperactive stands in a state into which a machine may be put.
    pub fn stands_between(&self)
        requires standing { IsStanding self.now }
        requires between { self.now.stage ≡ Stage.Between }
        ensures { StandsBetween (machine_kept self.now) (state_kept self.now) }
    {
        self.table.processes_may_stand();
    }
}
