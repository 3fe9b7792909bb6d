// The diagnosis of a response.

ghost use Rattle.std.specs.Prelude.{◌≡◌, ◌≤◌, ◌+◌, IfErr};
ghost use Rattle.vf_words.specs.Words.{Diagnose};
ghost use Rattle.vf_words.specs.Forms.{plain_source};
ghost use Rattle.top_call.specs.Outside.{counts_of, CanEnd};
ghost use Rattle.top_call.specs.Making as making;

use crate::dictionary::output_status;
use crate::plan::{read_observed, read_test_plan};
use crate::purpose::Purpose;
use crate::source::read_source;
use outputs_exist::diagnose_output;
use std::alloc::Global;
use std::sync::ledger::Ledger;
use vf_base::{Shelf, Steps};
use vf_status::Status;
use vf_words::Source;

/// The diagnosis of a response over a design and a plan.
pub(crate) fn diagnosis_output<S: Shelf, L: Ledger>(
    alloc: Global,
    shelf: &mut S,
    source: Source<'_>,
    plan: &str,
    response: &str,
    steps: &mut Steps<L>,
) -> Result<Vec<u8>, Status>
    ensures gives { making.OutputGives (Diagnose (plain_source source.entry) plan.now response.now) (S.held shelf.old)
        (counts_of ⟦<S as Shelf>⟧ shelf.old) (counts_of ⟦<S as Shelf>⟧ shelf.new) result }
    ensures ends { IfErr result (CanEnd (Diagnose (plain_source source.entry) plan.now response.now)) }
    ensures kept { S.held shelf.new ≡ S.held shelf.old }
    ensures reads { (S.reads shelf.old ≤ S.reads shelf.new) × (S.reads shelf.new ≤ S.reads shelf.old + 3) }
    ensures faults { S.faults shelf.old ≤ S.faults shelf.new }
{
    let design = read_source(alloc, shelf, source)?;
    let test = read_test_plan(alloc, shelf, &design, plan, Purpose::Dictionary)?;
    let observed = read_observed(alloc, shelf, &test, response)?;
    match diagnose_output(alloc, &design, &test, observed.as_slice(), steps) {
        Ok(text) => Ok(text),
        Err(fault) => Err(output_status(fault)),
    }
}
