// A step of a process that is known before it is taken.

ghost use Rattle.std.specs.Prelude.{◌≡◌, ◌<◌, ℕ, true, length, IfOk, IfSome};
ghost use Rattle.std.specs.Option.{option_map, option_to_list};
ghost use Rattle.vf_base.specs.Base.{process_number};
ghost use Rattle.v_design.specs.Designs.{Machine};
ghost use Rattle.v_design.specs.Plain.{due_of};
ghost use Rattle.v_design.specs.States.{State, is_ready, step_of};
ghost use Rattle.process_code.specs.RunEnds.{act_by};
ghost use Rattle.process_code.specs.StatesOf.{IsStateOf};
ghost use Rattle.process_code.specs.declared.code.Code.{Code};
ghost use Rattle.run_ends.specs.RunEnds.{IsCodeAt};
ghost use Rattle.process_table.specs.Tables.{IsTableOf, process_in};
ghost use Rattle.process_table.specs.Deeds.{IsStepOf, read_by, read_of, written_by};
ghost use Rattle.process_table.specs.Known.{IsKnownStep, IsStepKnown, read_told, written_told, later_told};
ghost use Rattle.process_table.specs.Arranged.{IsKept, table_of};

use crate::deed::{Act, Stepped};
use crate::holds::{hold_one, mark, standing_of};
use crate::rows::put_state;
use crate::table::ProcessTable;
use process_code::{ProcState, StepAct};
use v_design::Due;
use vf_base::{NoMemory, ProcId};

/// What a known step does to an object, if it touches one.
fn act_known(act: &StepAct) -> Option<Act>
    ensures read { read_by result ≡ read_told (act_by act.now) }
    ensures write { written_by result ≡ written_told (act_by act.now) }
{
    match act {
        StepAct::Read(object) => Some(Act::Read(*object)),
        StepAct::Write(update) => Some(Act::Write(*update)),
        StepAct::Append(_) => None,
        StepAct::Inner => None,
    }
}

/// The update that a known step appends, if it does.
fn later_known(act: &StepAct) -> Option<Due>
    ensures { option_to_list (option_map due_of result) ≡ later_told (act_by act.now) }
{
    match act {
        StepAct::Append(due) => Some(*due),
        StepAct::Read(_) => None,
        StepAct::Write(_) => None,
        StepAct::Inner => None,
    }
}

impl<'d> ProcessTable<'d> {
    /// A ready process takes a step that is known: it does what the step does, and stands then at a state, which may be one of any code of the process. Its code
    /// isn't run. What the step writes, the caller writes.
    ///
    /// # Errors
    ///
    /// Want of memory.
    pub fn follow(
        &mut self,
        process: ProcId,
        line: u32,
        act: StepAct,
        next: &ProcState,
    ) -> Result<Stepped, NoMemory>
        requires kept { IsKept self.old }
        requires ready { is_ready (process_in (table_of self.old) (process_number process)).activity ≡ true }
        requires stands { (code : Code) → IsCodeAt (table_of self.old).design (process_number process) code → IsStateOf code next.now }
        requires known { IsStepKnown (table_of self.old) (process_number process) line act next.now }
        ensures step { IfOk result (λ stepped. (machine : Machine) (state : State) → IsTableOf machine state (table_of self.old) →
            IsKnownStep machine state (process_number process) line act next.now → IsStepOf machine state (process_number process) stepped (table_of self.new)) }
        ensures reads { IfOk result (λ stepped. IfSome (read_by stepped.act) (λ object. object < length (table_of self.old).design.objects)) }
        ensures kept { IfOk result (λ _. IsKept self.new) }
    {
        let later = later_known(&act);
        put_state(&mut self.rows, process, next)?;
        let standing = standing_of(&self.rows, process);
        hold_one(&mut self.queue, process, standing.stage, later)?;
        mark(&mut self.ready, process, standing.ready);
        Ok(Stepped {
            line,
            act: act_known(&act),
            later: later_known(&act),
            waits: standing.waits,
            ready: standing.ready,
        })
    }

    /// What a process reads next, if it reads, is an object of the design.
    ///
    /// It does nothing when it runs.
    pub fn reads_are_there(&self)
        requires { IsKept self.now }
        ensures { (machine : Machine) (state : State) → IsTableOf machine state (table_of self.now) → (process : ℕ) →
            IfSome (read_of (step_of machine state process).action) (λ object. object < length (table_of self.now).design.objects) }
    {}

    /// A process has a code.
    ///
    /// It does nothing when it runs.
    pub fn has_code(&self, process: ProcId)
        requires kept { IsKept self.now }
        requires number { process_number process < length (table_of self.now).processes }
        ensures { (code : Code) × IsCodeAt (table_of self.now).design (process_number process) code }
    {}
}
