// The audit of a certificate.

ghost use Rattle.std.specs.Prelude.{◌≡◌, ◌≤◌, ◌+◌, IfErr};
ghost use Rattle.vf_words.specs.Words.{Audit};
ghost use Rattle.vf_words.specs.Forms.{plain_source};
ghost use Rattle.top_call.specs.Outside.{counts_of, CanEnd};
ghost use Rattle.top_call.specs.Making as making;

use crate::plan::read_test_plan;
use crate::purpose::Purpose;
use crate::source::{read_file, read_source};
use outputs_exist::audit_output;
use std::alloc::Global;
use std::sync::ledger::Ledger;
use vf_base::{Shelf, Steps};
use vf_status::{Status, Which};
use vf_words::Source;

/// What the audit of a certificate over a design and a plan finds.
pub(crate) fn audited_output<S: Shelf, L: Ledger>(
    alloc: Global,
    shelf: &mut S,
    source: Source<'_>,
    plan: &str,
    cert: &str,
    steps: &mut Steps<L>,
) -> Result<Vec<u8>, Status>
    ensures gives { making.OutputGives (Audit (plain_source source.entry) plan.now cert.now) (S.held shelf.old)
        (counts_of ⟦<S as Shelf>⟧ shelf.old) (counts_of ⟦<S as Shelf>⟧ shelf.new) result }
    ensures ends { IfErr result (CanEnd (Audit (plain_source source.entry) plan.now cert.now)) }
    ensures kept { S.held shelf.new ≡ S.held shelf.old }
    ensures reads { (S.reads shelf.old ≤ S.reads shelf.new) × (S.reads shelf.new ≤ S.reads shelf.old + 3) }
    ensures faults { S.faults shelf.old ≤ S.faults shelf.new }
{
    let design = read_source(alloc, shelf, source)?;
    let test = read_test_plan(alloc, shelf, &design, plan, Purpose::Certificate)?;
    let text = read_file(alloc, shelf, cert, Which::Cert)?;
    match audit_output(alloc, &design, &test, text.as_slice(), steps) {
        Ok(found) => Ok(found),
        Err(_) => Err(Status::NoMemory),
    }
}
