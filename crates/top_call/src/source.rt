// The files of a form, and the design that they say.

ghost use Rattle.std.specs.Prelude.{◌≡◌, ◌≤◌, IfOk, Some};
ghost use Rattle.vf_base.specs.Counts.{raised};
ghost use Rattle.vf_words.specs.Forms.{plain_source};
ghost use Rattle.top_call.specs.Answers.{most_of};
ghost use Rattle.top_call.specs.Outside.{counts_of};
ghost use Rattle.top_call.specs.Making as making;

use outputs_exist::MAX_CERT_BYTES;
use response_text::MAX_RESPONSE_BYTES;
use std::alloc::Global;
use v_design::Design;
use vf_base::{MAX_DESIGN_BYTES, MAX_PLAN_BYTES, Shelf, ShelfFault};
use vf_status::{DesignFault, Refusal, Status, Which, read_design};
use vf_words::Source;

/// The most bytes of a file.
fn most_of(which: Which) -> u64
    ensures { result ≡ most_of which }
{
    match which {
        Which::Design => MAX_DESIGN_BYTES,
        Which::Plan => MAX_PLAN_BYTES,
        Which::Response => MAX_RESPONSE_BYTES,
        Which::Cert => MAX_CERT_BYTES,
    }
}

/// A file of the form, from the shelf.
pub(crate) fn read_file<S: Shelf>(
    alloc: Global,
    shelf: &mut S,
    name: &str,
    which: Which,
) -> Result<Vec<u8>, Status>
    ensures gives { making.FileGives (S.held shelf.old) name.now which (counts_of ⟦<S as Shelf>⟧ shelf.old) (counts_of ⟦<S as Shelf>⟧ shelf.new) result }
    ensures kept { S.held shelf.new ≡ S.held shelf.old }
    ensures reads { S.reads shelf.new ≡ raised (S.reads shelf.old) }
    ensures faults { S.faults shelf.old ≤ S.faults shelf.new }
    ensures long { S.long_answers shelf.old ≤ S.long_answers shelf.new }
{
    match shelf.read_whole(alloc, name, most_of(which)) {
        Ok(bytes) => Ok(bytes),
        Err(ShelfFault::Failed) => Err(Status::ReadFault(which)),
        Err(ShelfFault::Missing) => Err(Status::ReadFault(which)),
        Err(ShelfFault::TooLong) => Err(Status::TooLong(which)),
        Err(ShelfFault::NoMemory) => Err(Status::NoMemory),
    }
}

/// The status of a text without a design.
pub(crate) fn design_status(fault: DesignFault) -> Status
    ensures { result ≡ making.design_status fault }
{
    match fault {
        DesignFault::Scan(fault) => Status::Refused(Refusal::Scan(fault)),
        DesignFault::Parse(fault) => Status::Refused(Refusal::Parse(fault)),
        DesignFault::Elab(fault) => Status::Refused(Refusal::Elab(fault)),
        DesignFault::NoMemory => Status::NoMemory,
    }
}

/// The design of a form, from the shelf.
pub(crate) fn read_source<S: Shelf>(
    alloc: Global,
    shelf: &mut S,
    source: Source<'_>,
) -> Result<Design, Status>
    ensures gives { making.DesignGives (S.held shelf.old) (plain_source source.entry) (counts_of ⟦<S as Shelf>⟧ shelf.old) (counts_of ⟦<S as Shelf>⟧ shelf.new) result }
    ensures kept { S.held shelf.new ≡ S.held shelf.old }
    ensures reads { S.reads shelf.new ≡ raised (S.reads shelf.old) }
    ensures faults { S.faults shelf.old ≤ S.faults shelf.new }
    ensures long { S.long_answers shelf.old ≤ S.long_answers shelf.new }
{
    let text = read_file(alloc, shelf, source.design, Which::Design)?;
    match read_design(alloc, text.as_slice(), source.top.as_bytes(), source.mode) {
        Ok(design) => Ok(design),
        Err(fault) => Err(design_status(fault)),
    }
}
