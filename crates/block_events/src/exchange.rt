// Parts of a runner's state are read and exchanged between two blocks.

ghost use Rattle.std.specs.Prelude.{◌≡◌, ◌≤◌, ◌<◌, ◌↔◌, IsTrue, ℕ, true, false, length, map, slice_set, IfOk, IfSome, OnOk};
ghost use Rattle.std.specs.Option.{option_map};
ghost use Rattle.vf_base.specs.Base.{object_number, process_number};
ghost use Rattle.vf_base.specs.Lists.{AllHold, change_at};
ghost use Rattle.v_design.specs.Accesses.{is_waiting};
ghost use Rattle.v_design.specs.Designs.{width_in};
ghost use Rattle.v_design.specs.Plain.{due_of, fault_of, update_of};
ghost use Rattle.v_design.specs.Runs.{turned_by};
ghost use Rattle.v_design.specs.States.{ProcessState, LaterUpdate, has_event, is_ready, process_at, some_in, step_of, turn_of};
ghost use Rattle.v_design.specs.Places.{PlacesDiffer};
ghost use Rattle.process_code.specs.Points.{activity_of};
ghost use Rattle.process_code.specs.StatesOf.{IsStateOf};
ghost use Rattle.process_code.specs.declared.code.Code.{Code};
ghost use Rattle.run_ends.specs.RunEnds.{IsCodeAt};
ghost use Rattle.process_table.specs.Deeds.{read_of, turn_kind};
ghost use Rattle.process_table.specs.Puts.{StandsAt};
ghost use Rattle.process_table.specs.Waited.{body_of};
ghost use Rattle.process_table.specs.Replaces.{process_readied, state_with, with_pending};
ghost use Rattle.block_events.specs.Runners.{IsWhole, machine_of, state_of};

use crate::runner::Runner;
use four_value::Vec4;
use process_code::ProcState;
use process_table::TableTurn;
use v_design::{Due, Fault, Update};
use vf_base::{NoMemory, ObjectId, ProcId};

impl<'d> Runner<'d> {
    /// The design is good or under another fault from now on. No value is forced by that.
    pub fn set_fault(&mut self, fault: Option<Fault>)
        requires { IsWhole self.old }
        ensures machine { machine_of self.new ≡ record (machine_of self.old) { fault = option_map fault_of fault } }
        ensures state { state_of self.new ≡ state_of self.old }
        ensures whole { IsWhole self.new }
    {
        self.nets.set_fault(fault);
    }

    /// An object holds a value. Nothing sees that as a change.
    pub fn put_value(&mut self, object: ObjectId, value: Vec4)
        requires whole { IsWhole self.old }
        requires there { object_number object < length (state_of self.old).values }
        requires width { length value ≡ width_in (machine_of self.old).design (object_number object) }
        ensures machine { machine_of self.new ≡ machine_of self.old }
        ensures state { state_of self.new ≡ record (state_of self.old) { values = slice_set (state_of self.old).values (object_number object) value } }
        ensures whole { IsWhole self.new }
    {
        self.nets.put(object, value);
    }

    /// A process comes to stand at a state, with these updates pending, in the order of their appends, and these in its lane, whatever it did before. The state may be
    /// one of any code of the process.
    ///
    /// # Errors
    ///
    /// Want of memory.
    pub fn put_process(
        &mut self,
        process: ProcId,
        state: &ProcState,
        later: &[Due],
        lane: &[Update],
    ) -> Result<(), NoMemory>
        requires whole { IsWhole self.old }
        requires number { process_number process < length (state_of self.old).processes }
        requires stands { (code : Code) → IsCodeAt (machine_of self.old).design (process_number process) code →
            StandsAt (machine_of self.old).design (state_of self.old).time (process_number process) state.now (map due_of later.now) code }
        ensures machine { OnOk result (machine_of self.new ≡ machine_of self.old) }
        ensures state { OnOk result ((code : Code) → IsCodeAt (machine_of self.old).design (process_number process) code → state_of self.new ≡ record (state_of self.old) {
          processes = change_at (state_of self.old).processes (process_number process) (λ (old : ProcessState). state_with code state.now (map due_of later.now)
              (map update_of lane.now));
        }) }
        ensures whole { OnOk result (IsWhole self.new) }
    {
        self.table.replace(process, state, later, lane)
    }

    /// A process has these updates pending, in the order of their appends, and these in its lane, in the place of its own. It does what it did.
    ///
    /// # Errors
    ///
    /// Want of memory.
    pub fn put_updates(
        &mut self,
        process: ProcId,
        later: &[Due],
        lane: &[Update],
    ) -> Result<(), NoMemory>
        requires whole { IsWhole self.old }
        requires number { process_number process < length (state_of self.old).processes }
        requires after { AllHold (λ (update : LaterUpdate). (state_of self.old).time ≤ update.time) (map due_of later.now) }
        ensures machine { OnOk result (machine_of self.new ≡ machine_of self.old) }
        ensures state { OnOk result (state_of self.new ≡ record (state_of self.old) {
          processes = change_at (state_of self.old).processes (process_number process) (with_pending (map due_of later.now) (map update_of lane.now));
        }) }
        ensures whole { OnOk result (IsWhole self.new) }
    {
        self.table.put_updates(process, later, lane)
    }

    /// A process that waits becomes ready.
    pub fn wake_process(&mut self, process: ProcId)
        requires whole { IsWhole self.old }
        requires waits { is_waiting (process_at (state_of self.old) (process_number process)).activity ≡ true }
        ensures machine { machine_of self.new ≡ machine_of self.old }
        ensures state { state_of self.new ≡ record (state_of self.old) { processes = change_at (state_of self.old).processes (process_number process) process_readied } }
        ensures whole { IsWhole self.new }
    {
        self.table.wake_one(process);
    }

    /// The updates of a process that are pending, in the order of their appends.
    pub fn updates_of(&self, process: ProcId) -> &[Due]
        requires whole { IsWhole self.now }
        requires number { process_number process < length (state_of self.now).processes }
        ensures { map due_of result.now ≡ (process_at (state_of self.now) (process_number process)).later }
    {
        self.table.updates_of(process)
    }

    /// The updates that are left in a process's lane, in the order in which they are written.
    pub fn lane_of(&self, process: ProcId) -> &[Update]
        requires whole { IsWhole self.now }
        requires number { process_number process < length (state_of self.now).processes }
        ensures { map update_of result.now ≡ (process_at (state_of self.now) (process_number process)).lane }
    {
        self.table.lane_of(process)
    }

    /// The state at whose point a process stands: it is one of each code of the process, and does what the process does.
    pub fn state_of(&self, process: ProcId) -> &ProcState
        requires whole { IsWhole self.now }
        requires number { process_number process < length (state_of self.now).processes }
        ensures state { (code : Code) → IsCodeAt (machine_of self.now).design (process_number process) code → IsStateOf code result.now }
        ensures activity { (code : Code) → IsCodeAt (machine_of self.now).design (process_number process) code →
            activity_of code result.now ≡ (process_at (state_of self.now) (process_number process)).activity }
    {
        self.table.state_of(process)
    }

    /// Whether a process stands at the point of a state, which may be one of any code of the process. Then the state does what the process does; and where no two
    /// statements of the process stand at one place, as in each design that keeps its rules, it is true exactly where it does.
    pub fn stands_at(&self, process: ProcId, state: &ProcState) -> bool
        requires whole { IsWhole self.now }
        requires number { process_number process < length (state_of self.now).processes }
        ensures activity { IsTrue result → (code : Code) → IsCodeAt (machine_of self.now).design (process_number process) code →
            (process_at (state_of self.now) (process_number process)).activity ≡ activity_of code state.now }
        ensures equal { (code : Code) → IsCodeAt (machine_of self.now).design (process_number process) code → PlacesDiffer (body_of (machine_of self.now).design
            (process_number process)) → IsStateOf code state.now → (IsTrue result ↔ (process_at (state_of self.now) (process_number process)).activity ≡ activity_of code state.now) }
    {
        self.table.stands_at(process, state)
    }

    /// The same state, as a copy.
    ///
    /// # Errors
    ///
    /// Want of memory.
    pub fn copy_state(&self, process: ProcId) -> Result<ProcState, NoMemory>
        requires whole { IsWhole self.now }
        requires number { process_number process < length (state_of self.now).processes }
        ensures state { IfOk result (λ copy. (code : Code) → IsCodeAt (machine_of self.now).design (process_number process) code → IsStateOf code copy) }
        ensures activity { IfOk result (λ copy. (code : Code) → IsCodeAt (machine_of self.now).design (process_number process) code →
            activity_of code copy ≡ (process_at (state_of self.now) (process_number process)).activity) }
    {
        self.table.copy_state(process)
    }

    /// Whether a process is ready.
    pub fn is_ready(&self, process: ProcId) -> bool
        requires { IsWhole self.now }
        ensures { result ≡ is_ready (process_at (state_of self.now) (process_number process)).activity }
    {
        self.table.is_ready(process)
    }

    /// How many processes there are.
    pub fn processes(&self) -> usize
        requires { IsWhole self.now }
        ensures { result ≡ length (machine_of self.now).design.processes }
    {
        self.table.processes()
    }

    /// What a process reads next, if it reads, is an object of the design.
    ///
    /// It does nothing when it runs.
    pub fn reads_are_there(&self)
        requires { IsWhole self.now }
        ensures { (process : ℕ) → IfSome (read_of (step_of (machine_of self.now) (state_of self.now) process).action) (λ object. object < length (state_of self.now).values) }
    {
        self.table.reads_are_there();
    }

    /// A process has a code.
    ///
    /// It does nothing when it runs.
    pub fn has_code(&self, process: ProcId)
        requires whole { IsWhole self.now }
        requires number { process_number process < length (state_of self.now).processes }
        ensures { (code : Code) × IsCodeAt (machine_of self.now).design (process_number process) code }
    {
        self.table.has_code(process);
    }

    /// Takes the turn that comes where no process has an event, and answers it; `None`, and no change, where there is none.
    ///
    /// # Errors
    ///
    /// Want of memory.
    pub fn turn(&mut self) -> Result<Option<TableTurn>, NoMemory>
        requires whole { IsWhole self.old }
        requires quiet { some_in has_event (state_of self.old).processes ≡ false }
        ensures machine { IfOk result (λ _. machine_of self.new ≡ machine_of self.old) }
        ensures kind { IfOk result (λ turn. option_map turn_kind turn ≡ turn_of (state_of self.old)) }
        ensures state { IfOk result (λ _. state_of self.new ≡ turned_by (turn_of (state_of self.old)) (state_of self.old)) }
        ensures whole { IfOk result (λ _. IsWhole self.new) }
    {
        self.table.turn()
    }
}
