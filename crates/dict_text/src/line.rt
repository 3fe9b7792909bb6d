// Words, numbers and faults in a line.

ghost use Rattle.std.specs.Prelude.{◌≡◌, ◌++◌, OnOk};
ghost use Rattle.v_design.specs.Plain.{fault_of};
ghost use Rattle.v_design.specs.PlainDesigns.{design_of};
ghost use Rattle.grade_report.specs.Report.{counted, held_text};
ghost use Rattle.dict_text.specs.Texts.{fault_word};

use fault_list::{append, append_number, write_site};
use std::alloc::Global;
use v_design::{Design, Fault};
use vf_base::NoMemory;

/// Adds a word and a number.
#[tactic(auto, unfolding(grade_report::specs::Report::counted))]
pub(crate) fn append_count(
    alloc: Global,
    out: &mut Vec<u8>,
    word: &[u8],
    count: u64,
) -> Result<(), NoMemory>
    ensures { OnOk result (out.new.items ≡ out.old.items ++ counted word.now count) }
{
    append(out, word)?;
    append_number(alloc, out, count)?;
    Ok(())
}

/// The word of a fault's value.
fn held_word(value: bool) -> &'static [u8]
    ensures { result.now ≡ held_text value }
{
    if value { b" sa1" } else { b" sa0" }
}

/// Adds how a fault is spelled.
pub(crate) fn append_fault(
    alloc: Global,
    out: &mut Vec<u8>,
    design: &Design,
    fault: Fault,
) -> Result<(), NoMemory>
    ensures { OnOk result (out.new.items ≡ out.old.items ++ fault_word (design_of design.now) (fault_of fault)) }
{
    write_site(alloc, design, fault.site, out)?;
    append(out, held_word(fault.value))?;
    Ok(())
}
