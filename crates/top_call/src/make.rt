// Making the output of a form.

ghost use Rattle.std.specs.Prelude.{◌≡◌, ◌≤◌, ◌+◌, length, IfErr};
ghost use Rattle.vf_words.specs.Words.{Check, Faults, Fits};
ghost use Rattle.vf_words.specs.Forms.{plain_source, plain_form};
ghost use Rattle.top_call.specs.Outside.{counts_of, files_of, files_for, CanEnd};
ghost use Rattle.top_call.specs.Making as making;

use crate::audit::audited_output;
use crate::certificate::certified_output;
use crate::diagnosis::diagnosis_output;
use crate::dictionary::{dictionary_output, picked_output};
use crate::grade::grade_output;
use crate::soak::soak_output;
use crate::source::read_source;
use design_report::{check_text, faults_text};
use std::alloc::Global;
use std::sync::ledger::Ledger;
use std::thread::Threads;
use vf_base::{Gate, Shelf, Steps};
use vf_status::Status;
use vf_words::{Form, Source};

/// How large a design is.
fn check_output<S: Shelf>(
    alloc: Global,
    shelf: &mut S,
    source: Source<'_>,
) -> Result<Vec<u8>, Status>
    ensures gives { making.OutputGives (Check (plain_source source.entry)) (S.held shelf.old) (counts_of ⟦<S as Shelf>⟧ shelf.old) (counts_of ⟦<S as Shelf>⟧ shelf.new) result }
    ensures ends { IfErr result (CanEnd (Check (plain_source source.entry))) }
    ensures kept { S.held shelf.new ≡ S.held shelf.old }
    ensures reads { (S.reads shelf.old ≤ S.reads shelf.new) × (S.reads shelf.new ≤ S.reads shelf.old + 1) }
    ensures faults { S.faults shelf.old ≤ S.faults shelf.new }
{
    let design = read_source(alloc, shelf, source)?;
    match check_text(alloc, &design) {
        Ok(text) => Ok(text),
        Err(_) => Err(Status::NoMemory),
    }
}

/// The faults that can be listed.
fn faults_output<S: Shelf>(
    alloc: Global,
    shelf: &mut S,
    source: Source<'_>,
) -> Result<Vec<u8>, Status>
    ensures gives { making.OutputGives (Faults (plain_source source.entry)) (S.held shelf.old) (counts_of ⟦<S as Shelf>⟧ shelf.old) (counts_of ⟦<S as Shelf>⟧ shelf.new) result }
    ensures ends { IfErr result (CanEnd (Faults (plain_source source.entry))) }
    ensures kept { S.held shelf.new ≡ S.held shelf.old }
    ensures reads { (S.reads shelf.old ≤ S.reads shelf.new) × (S.reads shelf.new ≤ S.reads shelf.old + 1) }
    ensures faults { S.faults shelf.old ≤ S.faults shelf.new }
{
    let design = read_source(alloc, shelf, source)?;
    match faults_text(alloc, &design) {
        Ok(text) => Ok(text),
        Err(_) => Err(Status::NoMemory),
    }
}

/// The output of a form over the files of the shelf.
pub(crate) fn make_output<R: Threads + Sync, S: Shelf, G: Gate + Sync, L: Ledger + Send + Sync>(
    rt: &R,
    alloc: Global,
    shelf: &mut S,
    form: Form<'_>,
    gate: &G,
    steps: &mut [Steps<L>],
) -> Result<Vec<u8>, Status>
    requires fits { Fits (plain_form form) }
    requires counters { 65 ≤ length steps.old }
    ensures gives { making.OutputGives (plain_form form.entry) (files_for (plain_form form.entry) (S.held shelf.old)) (counts_of ⟦<S as Shelf>⟧ shelf.old) (counts_of ⟦<S as Shelf>⟧ shelf.new) result }
    ensures ends { IfErr result (CanEnd (plain_form form.entry)) }
    ensures kept { S.held shelf.new ≡ S.held shelf.old }
    ensures reads { (S.reads shelf.old ≤ S.reads shelf.new) × (S.reads shelf.new ≤ S.reads shelf.old + files_of (plain_form form.entry)) }
    ensures faults { S.faults shelf.old ≤ S.faults shelf.new }
{
    match form {
        Form::Grade {
            source,
            plan,
            workers,
        } => grade_output(rt, alloc, shelf, source, plan, workers, gate, steps),
        Form::Check(source) => check_output(alloc, shelf, source),
        Form::Faults(source) => faults_output(alloc, shelf, source),
        Form::Soak {
            number,
            size,
            workers,
        } => soak_output(rt, alloc, number, size, workers, gate, steps),
        Form::Dict { source, plan } => {
            dictionary_output(alloc, shelf, source, plan, &mut steps[0])
        }
        Form::Diagnose {
            source,
            plan,
            response,
        } => diagnosis_output(alloc, shelf, source, plan, response, &mut steps[0]),
        Form::Certify {
            source,
            plan,
            fault,
        } => certified_output(alloc, shelf, source, plan, fault, &mut steps[0]),
        Form::Audit { source, plan, cert } => {
            audited_output(alloc, shelf, source, plan, cert, &mut steps[0])
        }
        Form::Pick { source, plan } => picked_output(alloc, shelf, source, plan, &mut steps[0]),
    }
}
