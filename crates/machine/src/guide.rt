// How the steps of a slot's processes are made.

ghost use Rattle.std.specs.Prelude.{◌≡◌, ◌<◌, ◌≤◌, ◌^◌, true, length, IfOk, IfSome, OnOk};
ghost use Rattle.vf_base.specs.Base.{process_number};
ghost use Rattle.v_design.specs.Designs.{Machine};
ghost use Rattle.v_design.specs.States.{State, is_ready};
ghost use Rattle.net_state.specs.States.{values_in};
ghost use Rattle.process_table.specs.Arranged.{IsKept, table_of};
ghost use Rattle.process_table.specs.Deeds.{IsStepOf, read_by};
ghost use Rattle.process_table.specs.Tables.{IsTableOf, process_in};
ghost use Rattle.machine.specs.Guides.{MayStep, StepsBy};

use net_state::NetState;
use process_table::{ProcessTable, Stepped};
use runs_beside::RunsBeside;
use std::sync::ledger::Ledger;
use vf_base::{NoMemory, ProcId, Steps};

/// How the steps of a slot's processes are made: each is taken, or they go beside the good machine's.
#[derive(Drop)]
pub(crate) enum Guide<'w> {
    Alone,
    Beside(RunsBeside<'w>),
}

impl<'w> Guide<'w> {
    /// A process takes the next step of the first order, in the phase of a number, counted from 1. `steps` ticks where the step is taken.
    ///
    /// # Errors
    ///
    /// Want of memory.
    pub(crate) fn step<L: Ledger>(
        &mut self,
        table: &mut ProcessTable,
        nets: &NetState,
        number: u32,
        process: ProcId,
        steps: &mut Steps<L>,
    ) -> Result<Stepped, NoMemory>
        requires kept { IsKept table.old }
        requires ready { is_ready (process_in (table_of table.old) (process_number process)).activity ≡ true }
        requires values { length (values_in nets.now) ≡ length (table_of table.old).design.objects }
        requires time { (table_of table.old).time ≤ 2 ^ 63 }
        requires number { 1 ≤ number }
        requires stands { MayStep self.old table.old nets.now number (process_number process) }
        ensures step { IfOk result (λ stepped. (machine : Machine) (state : State) → IsTableOf machine state (table_of table.old) →
            state.values ≡ values_in nets.now → IsStepOf machine state (process_number process) stepped (table_of table.new)) }
        ensures reads { IfOk result (λ stepped. IfSome (read_by stepped.act) (λ object. object < length (table_of table.old).design.objects)) }
        ensures kept { OnOk result (IsKept table.new) }
        ensures steps { OnOk result (StepsBy self.old self.new table.old nets.now number (process_number process) steps.old steps.new) }
    {
        match self {
            Guide::Alone => {
                let stepped = table.step(process, nets, steps)?;
                Ok(stepped)
            }
            Guide::Beside(runs) => {
                let stepped = runs.step(table, nets, number - 1, process, steps)?;
                Ok(stepped)
            }
        }
    }
}
