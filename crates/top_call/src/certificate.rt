// The certificate of a listed fault.

ghost use Rattle.std.specs.Prelude.{◌≡◌, ◌≤◌, ◌+◌, IfErr};
ghost use Rattle.vf_words.specs.Words.{Certify};
ghost use Rattle.vf_words.specs.Forms.{plain_source};
ghost use Rattle.top_call.specs.Outside.{counts_of, CanEnd};
ghost use Rattle.top_call.specs.Making as making;

use crate::plan::read_test_plan;
use crate::purpose::Purpose;
use crate::source::read_source;
use outputs_exist::{CertifyFault, certify_output};
use std::alloc::Global;
use std::sync::ledger::Ledger;
use vf_base::{Shelf, Steps};
use vf_status::{Refusal, Status};
use vf_words::Source;

/// The status of a place of the list without a certificate.
fn certify_status(fault: CertifyFault) -> Status
    ensures { result ≡ making.certify_status fault }
{
    match fault {
        CertifyFault::NoFault(place) => Status::Refused(Refusal::NoFault(place)),
        CertifyFault::GoodLoop(time) => Status::GoodLoop(time),
        CertifyFault::NoMemory => Status::NoMemory,
    }
}

/// The certificate of the fault at a place, from 1, of a plan's list.
pub(crate) fn certified_output<S: Shelf, L: Ledger>(
    alloc: Global,
    shelf: &mut S,
    source: Source<'_>,
    plan: &str,
    place: u32,
    steps: &mut Steps<L>,
) -> Result<Vec<u8>, Status>
    requires { 1 ≤ place }
    ensures gives { making.OutputGives (Certify (plain_source source.entry) plan.now place) (S.held shelf.old) (counts_of ⟦<S as Shelf>⟧ shelf.old) (counts_of ⟦<S as Shelf>⟧ shelf.new) result }
    ensures ends { IfErr result (CanEnd (Certify (plain_source source.entry) plan.now place)) }
    ensures kept { S.held shelf.new ≡ S.held shelf.old }
    ensures reads { (S.reads shelf.old ≤ S.reads shelf.new) × (S.reads shelf.new ≤ S.reads shelf.old + 2) }
    ensures faults { S.faults shelf.old ≤ S.faults shelf.new }
{
    let design = read_source(alloc, shelf, source)?;
    let test = read_test_plan(alloc, shelf, &design, plan, Purpose::Certificate)?;
    match certify_output(alloc, &design, &test, place, steps) {
        Ok(text) => Ok(text),
        Err(fault) => Err(certify_status(fault)),
    }
}
