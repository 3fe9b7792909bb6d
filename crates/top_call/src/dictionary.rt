// The outputs over the dictionary of a design and a plan.

ghost use Rattle.std.specs.Prelude.{◌≡◌, ◌≤◌, ◌+◌, IfErr};
ghost use Rattle.vf_words.specs.Words.{Dict, Pick};
ghost use Rattle.vf_words.specs.Forms.{plain_source};
ghost use Rattle.top_call.specs.Outside.{counts_of, CanEnd};
ghost use Rattle.top_call.specs.Making as making;

use crate::plan::read_test_plan;
use crate::purpose::Purpose;
use crate::source::read_source;
use outputs_exist::{OutputFault, dict_output, pick_output};
use std::alloc::Global;
use std::sync::ledger::Ledger;
use vf_base::{Shelf, Steps};
use vf_status::Status;
use vf_words::Source;

/// The status of an output over a dictionary that isn't made.
pub(crate) fn output_status(fault: OutputFault) -> Status
    ensures { result ≡ making.output_status fault }
{
    match fault {
        OutputFault::GoodLoop(time) => Status::GoodLoop(time),
        OutputFault::NoMemory => Status::NoMemory,
    }
}

/// The dictionary of a design and a plan.
pub(crate) fn dictionary_output<S: Shelf, L: Ledger>(
    alloc: Global,
    shelf: &mut S,
    source: Source<'_>,
    plan: &str,
    steps: &mut Steps<L>,
) -> Result<Vec<u8>, Status>
    ensures gives { making.OutputGives (Dict (plain_source source.entry) plan.now) (S.held shelf.old) (counts_of ⟦<S as Shelf>⟧ shelf.old) (counts_of ⟦<S as Shelf>⟧ shelf.new) result }
    ensures ends { IfErr result (CanEnd (Dict (plain_source source.entry) plan.now)) }
    ensures kept { S.held shelf.new ≡ S.held shelf.old }
    ensures reads { (S.reads shelf.old ≤ S.reads shelf.new) × (S.reads shelf.new ≤ S.reads shelf.old + 2) }
    ensures faults { S.faults shelf.old ≤ S.faults shelf.new }
{
    let design = read_source(alloc, shelf, source)?;
    let test = read_test_plan(alloc, shelf, &design, plan, Purpose::Dictionary)?;
    match dict_output(alloc, &design, &test, steps) {
        Ok(text) => Ok(text),
        Err(fault) => Err(output_status(fault)),
    }
}

/// The strobes of a plan that are enough.
pub(crate) fn picked_output<S: Shelf, L: Ledger>(
    alloc: Global,
    shelf: &mut S,
    source: Source<'_>,
    plan: &str,
    steps: &mut Steps<L>,
) -> Result<Vec<u8>, Status>
    ensures gives { making.OutputGives (Pick (plain_source source.entry) plan.now) (S.held shelf.old) (counts_of ⟦<S as Shelf>⟧ shelf.old) (counts_of ⟦<S as Shelf>⟧ shelf.new) result }
    ensures ends { IfErr result (CanEnd (Pick (plain_source source.entry) plan.now)) }
    ensures kept { S.held shelf.new ≡ S.held shelf.old }
    ensures reads { (S.reads shelf.old ≤ S.reads shelf.new) × (S.reads shelf.new ≤ S.reads shelf.old + 2) }
    ensures faults { S.faults shelf.old ≤ S.faults shelf.new }
{
    let design = read_source(alloc, shelf, source)?;
    let test = read_test_plan(alloc, shelf, &design, plan, Purpose::Dictionary)?;
    match pick_output(alloc, &design, &test, steps) {
        Ok(text) => Ok(text),
        Err(fault) => Err(output_status(fault)),
    }
}
