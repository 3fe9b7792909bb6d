// The certificate of a listed fault.

ghost use Rattle.std.specs.Prelude.{◌≡◌, ◌≤◌, ◌-◌, ◌⊎◌, Ok, Err, Some, IfOk, MatchResult, slice_get};
ghost use Rattle.v_design.specs.Plain.{fault_of};
ghost use Rattle.v_design.specs.PlainDesigns.{design_of, plan_of};
ghost use Rattle.v_design.specs.WellFormed.{IsPlanOf};
ghost use Rattle.cert_report.specs.declared.fault.CertifyFault.TheVariants as faults;
ghost use Rattle.cert_report.specs.Certificates.{listed, IsFaultOf, IsCertificateText, IsTheMeaning, CertificateHolds};

use crate::fault::CertifyFault;
use std::alloc::Global;
use std::sync::ledger::Ledger;
use v_design::{Design, Fault, Plan};
use vf_base::Steps;
use vf_certify::{Certified, certify};

/// The listed fault of a place, from 1.
fn listed_fault(plan: &Plan, place: u32) -> Option<Fault>
    requires { 1 ≤ place }
    ensures { result ≡ slice_get plan.now.faults (place - 1) }
{
    plan.faults.as_slice().get(place as usize - 1).copied()
}

/// The certificate of the listed fault of a place.
fn certificate_of<L: Ledger>(
    alloc: Global,
    design: &Design,
    plan: &Plan,
    place: u32,
    fault: Fault,
    steps: &mut Steps<L>,
) -> Result<Vec<u8>, CertifyFault>
    requires plan { IsPlanOf (design_of design.now) (plan_of plan.now) }
    requires is_listed { listed (plan_of plan.now) place ≡ Some (fault_of fault) }
    ensures made { MatchResult result (λ text. IsCertificateText (design_of design.now) (plan_of plan.now) place text.items)
        (λ reason. (reason ≡ faults.NoMemory) ⊎ IsFaultOf (design_of design.now) (plan_of plan.now) place reason) }
    ensures every_order { IfOk result (λ text. CertificateHolds (design_of design.now) (plan_of plan.now) place text.items) }
{
    order_laws::grades();
    match certify(alloc, design, plan, fault, steps) {
        Ok(Certified::Cert(text)) => Ok(text),
        Ok(Certified::GoodLoop(time)) => Err(CertifyFault::GoodLoop(time)),
        Err(_) => Err(CertifyFault::NoMemory),
    }
}

/// The certificate of the listed fault of a place, from 1: the line of its grade, and the first runs that show it.
///
/// # Errors
///
/// No fault of that place is listed, else a loop of the good machine; want of memory at any point.
pub fn certify_output<L: Ledger>(
    alloc: Global,
    design: &Design,
    plan: &Plan,
    place: u32,
    steps: &mut Steps<L>,
) -> Result<Vec<u8>, CertifyFault>
    requires plan { IsPlanOf (design_of design.now) (plan_of plan.now) }
    requires place { 1 ≤ place }
    // Exactly what the place means over the design and the plan.
    ensures told { MatchResult result (λ text. IsTheMeaning (design_of design.now) (plan_of plan.now) place (Ok text.items))
        (λ reason. (reason ≡ faults.NoMemory) ⊎ IsTheMeaning (design_of design.now) (plan_of plan.now) place (Err reason)) }
    // What its line says holds in every order, and it is read back as a valid certificate.
    ensures every_order { IfOk result (λ text. CertificateHolds (design_of design.now) (plan_of plan.now) place text.items) }
{
    let Some(fault) = listed_fault(plan, place) else {
        return Err(CertifyFault::NoFault(place));
    };
    certificate_of(alloc, design, plan, place, fault, steps)
}
