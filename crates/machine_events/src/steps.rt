// A step of a process.

ghost use Rattle.std.specs.Prelude.{◌≡◌, ◌<◌, ◌≤◌, ◌^◌, Some, None, true, length, IfOk, IfSome, OnOk};
ghost use Rattle.vf_base.specs.Base.{object_number, process_number};
ghost use Rattle.vf_base.specs.Counts.{raised};
ghost use Rattle.v_design.specs.Designs.{Machine};
ghost use Rattle.v_design.specs.States.{State, Step, is_ready};
ghost use Rattle.v_design.specs.Accesses.{waiting_entries};
ghost use Rattle.net_state.specs.States.{values_in, machine_in};
ghost use Rattle.process_code.specs.StatesOf.{IsStateOf};
ghost use Rattle.process_code.specs.declared.code.Code.{Code};
ghost use Rattle.run_ends.specs.RunEnds.{IsCodeAt};
ghost use Rattle.process_table.specs.Arranged.{IsKept, table_of};
ghost use Rattle.process_table.specs.Known.{IsKnownStep};
ghost use Rattle.process_table.specs.Tables.{process_in};
ghost use Rattle.slot_record.specs.SlotRecords.{one_more};
ghost use Rattle.machine_events.specs.Alone.{AreOfOne, HappensTo};
ghost use Rattle.machine_events.specs.Parts.{FitsDesign, AreBothOf, IsInSlot, Leads};
ghost use Rattle.machine_events.specs.StepDeeds.{TellsQuiet, TellsStepTaken, CarriesOut, IsMidStep, FinishesStep};
ghost use Rattle.machine_events.specs.There.{TouchesBelow, StepIsThere};

use crate::notes::note_step;
use crate::told::Told;
use crate::write::write_update;
use causal_monitor::Noted;
use four_value::Vec4;
use net_state::NetState;
use process_code::{ProcState, StepAct};
use process_table::{Act, ProcessTable, Stepped};
use slot_record::SlotRecord;
use std::sync::ledger::Ledger;
use vf_base::{Access, AccessKind, NoMemory, ObjectId, ProcId, Steps};

/// Tells the wait that a process is in, by the step that began it; nothing where it is in none.
fn tell_wait(
    table: &ProcessTable,
    told: &mut Told,
    process: ProcId,
    line: u32,
) -> Result<(), NoMemory>
    requires { IsKept table.now }
    ensures tells { OnOk result (TellsQuiet (process_number process) line None (waiting_entries (process_in (table_of table.now) (process_number process)).activity) told.new) }
    ensures fits { OnOk result (FitsDesign (table_of table.now).design told.new) }
{
    told.clear();
    table.note_wait(process, line, &mut told.accesses)?;
    Ok(())
}

/// Tells the read of an object, and the wait that the process is in after it.
fn tell_read(
    table: &ProcessTable,
    told: &mut Told,
    object: ObjectId,
    process: ProcId,
    line: u32,
) -> Result<(), NoMemory>
    requires kept { IsKept table.now }
    requires object { object_number object < length (table_of table.now).design.objects }
    ensures tells { OnOk result (TellsQuiet (process_number process) line (Some (object_number object)) (waiting_entries (process_in (table_of table.now)
        (process_number process)).activity) told.new) }
    ensures fits { OnOk result (FitsDesign (table_of table.now).design told.new) }
{
    let old: Option<Vec4> = None;
    let new: Option<Vec4> = None;
    let access = Access {
        kind: AccessKind::Read,
        object,
        process,
        line,
    };
    told.clear();
    told.accesses.push(Noted {
        access,
        old,
        new,
        entry: None,
    })?;
    table.note_wait(process, line, &mut told.accesses)?;
    Ok(())
}

/// Does to the values and the nodes what a step did to an object, and tells it.
///
/// # Errors
///
/// Want of memory.
fn carry_out_act(
    nets: &mut NetState,
    table: &mut ProcessTable,
    told: &mut Told,
    process: ProcId,
    stepped: &Stepped,
    act: &Act,
) -> Result<(), NoMemory>
    requires kept { IsKept table.old }
    requires design { (table_of table.old).design ≡ (machine_in nets.old).design }
    requires values { length (values_in nets.old) ≡ length (machine_in nets.old).design.objects }
    requires act { stepped.now.act ≡ Some act.now }
    requires there { TouchesBelow (length (values_in nets.old)) act.now }
    ensures { OnOk result (CarriesOut (process_number process) stepped.now nets.old nets.new table.old table.new told.new) }
{
    match act {
        Act::Write(update) => {
            write_update(nets, table, told, update, process, stepped.line)?;
            Ok(())
        }
        Act::Read(object) => {
            tell_read(table, told, *object, process, stepped.line)?;
            Ok(())
        }
    }
}

/// Does to the values and the nodes what a step did, and tells it.
///
/// # Errors
///
/// Want of memory.
fn carry_out(
    nets: &mut NetState,
    table: &mut ProcessTable,
    told: &mut Told,
    process: ProcId,
    stepped: &Stepped,
) -> Result<(), NoMemory>
    requires kept { IsKept table.old }
    requires design { (table_of table.old).design ≡ (machine_in nets.old).design }
    requires values { length (values_in nets.old) ≡ length (machine_in nets.old).design.objects }
    requires there { IfSome stepped.now.act (TouchesBelow (length (values_in nets.old))) }
    ensures { OnOk result (CarriesOut (process_number process) stepped.now nets.old nets.new table.old table.new told.new) }
{
    match &stepped.act {
        Some(act) => {
            carry_out_act(nets, table, told, process, stepped, act)?;
            Ok(())
        }
        None => {
            tell_wait(table, told, process, stepped.line)?;
            Ok(())
        }
    }
}

/// Does to the values and the nodes what a step of a process did, and records the step.
///
/// # Errors
///
/// Want of memory.
pub fn finish_step(
    nets: &mut NetState,
    table: &mut ProcessTable,
    record: &mut SlotRecord,
    told: &mut Told,
    process: ProcId,
    stepped: &Stepped,
) -> Result<(), NoMemory>
    requires kept { IsKept table.old }
    requires process { process_number process < length (table_of table.old).processes }
    requires stands { IsMidStep (process_number process) stepped.now nets.old table.old record.old }
    requires there { IfSome stepped.now.act (TouchesBelow (length (values_in nets.old))) }
    ensures { OnOk result (FinishesStep (process_number process) stepped.now nets.old nets.new table.old table.new record.old record.new) }
{
    carry_out(nets, table, told, process, stepped)?;
    note_step(record, told, process, stepped.line)?;
    Ok(())
}

/// A step of which no record is kept: what it did, and where its process stands behind it.
#[derive(Drop)]
pub struct StepAlone {
    pub stepped: Stepped,
    pub state: ProcState,
}

/// A ready process takes a step, of which no record is kept: `told` tells it, and `steps` ticks once. It answers what the step did, and where the process stands behind it.
///
/// # Errors
///
/// Want of memory.
pub fn step_alone<L: Ledger>(
    nets: &mut NetState,
    table: &mut ProcessTable,
    told: &mut Told,
    process: ProcId,
    steps: &mut Steps<L>,
) -> Result<StepAlone, NoMemory>
    requires one { AreOfOne nets.old table.old }
    requires ready { is_ready (process_in (table_of table.old) (process_number process)).activity ≡ true }
    requires time { (table_of table.old).time ≤ 2 ^ 63 }
    requires there { StepIsThere (process_number process) nets.old table.old }
    ensures happens { IfOk result (λ step. HappensTo (Step (process_number process)) step.stepped.line nets.old nets.new table.old table.new told.new) }
    ensures step { IfOk result (λ step. (machine : Machine) (state : State) → AreBothOf machine state nets.old table.old →
        TellsStepTaken machine state (process_number process) step.stepped step.state) }
    ensures ticks { OnOk result (steps.new ≡ raised steps.old) }
{
    let stepped = table.step(process, &*nets, steps)?;
    let state = table.copy_state(process)?;
    carry_out(nets, table, told, process, &stepped)?;
    Ok(StepAlone { stepped, state })
}

/// A ready process takes a step that is known, of which no record is kept: it does what the step does, and stands then at a state, which may be one of any code of the process; `told` tells it. Its code isn't run. It answers
/// what the step did.
///
/// # Errors
///
/// Want of memory.
pub fn follow_alone(
    nets: &mut NetState,
    table: &mut ProcessTable,
    told: &mut Told,
    process: ProcId,
    line: u32,
    act: StepAct,
    next: &ProcState,
) -> Result<Stepped, NoMemory>
    requires one { AreOfOne nets.old table.old }
    requires ready { is_ready (process_in (table_of table.old) (process_number process)).activity ≡ true }
    requires there { StepIsThere (process_number process) nets.old table.old }
    requires stands { (code : Code) → IsCodeAt (table_of table.old).design (process_number process) code → IsStateOf code next.now }
    requires known { (machine : Machine) (state : State) → AreBothOf machine state nets.old table.old → IsKnownStep machine state (process_number process) line act next.now }
    ensures { IfOk result (λ stepped. HappensTo (Step (process_number process)) stepped.line nets.old nets.new table.old table.new told.new) }
{
    let stepped = table.follow(process, line, act, next)?;
    carry_out(nets, table, told, process, &stepped)?;
    Ok(stepped)
}

/// A ready process takes a step.
///
/// # Errors
///
/// Want of memory.
pub fn step_process<L: Ledger>(
    nets: &mut NetState,
    table: &mut ProcessTable,
    record: &mut SlotRecord,
    told: &mut Told,
    process: ProcId,
    steps: &mut Steps<L>,
) -> Result<(), NoMemory>
    requires stands { IsInSlot nets.old table.old record.old }
    requires ready { is_ready (process_in (table_of table.old) (process_number process)).activity ≡ true }
    requires time { (table_of table.old).time ≤ 2 ^ 63 }
    requires there { StepIsThere (process_number process) nets.old table.old }
    ensures { OnOk result (Leads (one_more (Step (process_number process))) nets.old nets.new table.old table.new record.old record.new) }
{
    let stepped = table.step(process, &*nets, steps)?;
    finish_step(nets, table, record, told, process, &stepped)?;
    Ok(())
}
