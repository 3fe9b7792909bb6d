// The plan of a form, and the response of a diagnosis.

ghost use Rattle.std.specs.Prelude.{◌≡◌, ◌≤◌, IfOk};
ghost use Rattle.vf_base.specs.Counts.{raised};
ghost use Rattle.v_design.specs.PlainDesigns.{design_of, plan_of};
ghost use Rattle.v_design.specs.WellFormed.{IsPlanOf};
ghost use Rattle.kept_samples.specs.Kept.{samples_kept};
ghost use Rattle.dict_laws.specs.Responses.{IsResponse};
ghost use Rattle.top_call.specs.Outside.{counts_of};
ghost use Rattle.top_call.specs.Making as making;

use crate::purpose::{Purpose, excess};
use crate::source::read_file;
use kept_samples::Sample;
use plan_read::{PlanFault, read_plan};
use response_text::{ResponseFault, read_response};
use std::alloc::Global;
use v_design::{Design, Plan};
use vf_base::Shelf;
use vf_status::{Refusal, Status, Which};

/// The status of a plan's text without a plan.
fn plan_status(fault: PlanFault) -> Status
    ensures { result ≡ making.plan_status fault }
{
    match fault {
        PlanFault::NoMemory => Status::NoMemory,
        told => Status::Refused(Refusal::Plan(told)),
    }
}

/// The plan that a text spells over a design, unless its dictionary is too large where it is read for one.
fn plan_for(alloc: Global, design: &Design, text: &[u8], purpose: Purpose) -> Result<Plan, Status>
    ensures gives { making.PlanTextGives purpose (design_of design.now) text.now result }
    ensures fits { IfOk result (λ plan. IsPlanOf (design_of design.now) (plan_of plan)) }
{
    let plan = match read_plan(alloc, text, design) {
        Ok(plan) => plan,
        Err(fault) => return Err(plan_status(fault)),
    };
    match excess(&plan, purpose) {
        None => Ok(plan),
        Some(room) => Err(Status::Refused(Refusal::TooLarge(room))),
    }
}

/// The plan of a form, from the shelf, for a purpose.
pub(crate) fn read_test_plan<S: Shelf>(
    alloc: Global,
    shelf: &mut S,
    design: &Design,
    name: &str,
    purpose: Purpose,
) -> Result<Plan, Status>
    ensures gives { making.PlanGives (S.held shelf.old) name.now purpose (design_of design.now) (counts_of ⟦<S as Shelf>⟧ shelf.old) (counts_of ⟦<S as Shelf>⟧ shelf.new) result }
    ensures fits { IfOk result (λ plan. IsPlanOf (design_of design.now) (plan_of plan)) }
    ensures kept { S.held shelf.new ≡ S.held shelf.old }
    ensures reads { S.reads shelf.new ≡ raised (S.reads shelf.old) }
    ensures faults { S.faults shelf.old ≤ S.faults shelf.new }
    ensures long { S.long_answers shelf.old ≤ S.long_answers shelf.new }
{
    let text = read_file(alloc, shelf, name, Which::Plan)?;
    plan_for(alloc, design, text.as_slice(), purpose)
}

/// The status of a response's text that is refused.
fn response_status(fault: ResponseFault) -> Status
    ensures { result ≡ making.response_status fault }
{
    match fault {
        ResponseFault::NoMemory => Status::NoMemory,
        told => Status::Refused(Refusal::Response(told)),
    }
}

/// What a tester observed of a plan's strobes, from the shelf.
pub(crate) fn read_observed<S: Shelf>(
    alloc: Global,
    shelf: &mut S,
    plan: &Plan,
    name: &str,
) -> Result<Vec<Sample>, Status>
    ensures gives { making.ResponseGives (S.held shelf.old) name.now (plan_of plan.now) (counts_of ⟦<S as Shelf>⟧ shelf.old) (counts_of ⟦<S as Shelf>⟧ shelf.new) result }
    ensures fits { IfOk result (λ observed. IsResponse (plan_of plan.now) (samples_kept observed.items)) }
    ensures kept { S.held shelf.new ≡ S.held shelf.old }
    ensures reads { S.reads shelf.new ≡ raised (S.reads shelf.old) }
    ensures faults { S.faults shelf.old ≤ S.faults shelf.new }
    ensures long { S.long_answers shelf.old ≤ S.long_answers shelf.new }
{
    let text = read_file(alloc, shelf, name, Which::Response)?;
    match read_response(alloc, text.as_slice(), plan) {
        Ok(observed) => Ok(observed),
        Err(fault) => Err(response_status(fault)),
    }
}
