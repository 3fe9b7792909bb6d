// How large a design is.

ghost use Rattle.std.specs.Prelude.{◌≡◌, ◌++◌, IfOk, OnOk};
ghost use Rattle.v_design.specs.PlainDesigns.{design_of};
ghost use Rattle.design_report.specs.Texts.{counted, check_text};

use fault_list::{append, append_number};
use std::alloc::Global;
use v_design::Design;
use vf_base::NoMemory;

/// Adds a word and a number.
#[tactic(auto, unfolding(crate::specs::Texts::counted))]
pub(crate) fn append_count(
    alloc: Global,
    out: &mut Vec<u8>,
    word: &[u8],
    count: u64,
) -> Result<(), NoMemory>
    ensures { OnOk result (out.new.items ≡ out.old.items ++ counted word.now count) }
{
    append(out, word)?;
    append_number(alloc, out, count)?;
    Ok(())
}

/// The line with the numbers of a design's objects, nodes and processes.
///
/// # Errors
///
/// Want of memory.
pub fn check_text(alloc: Global, design: &Design) -> Result<Vec<u8>, NoMemory>
    ensures { IfOk result (λ text. text.items ≡ check_text (design_of design.now)) }
{
    let mut out = Vec::new(alloc);
    append_count(
        alloc,
        &mut out,
        b"objects ",
        design.objects.as_slice().len() as u64,
    )?;
    append_count(
        alloc,
        &mut out,
        b" nodes ",
        design.nodes.as_slice().len() as u64,
    )?;
    append_count(
        alloc,
        &mut out,
        b" processes ",
        design.processes.as_slice().len() as u64,
    )?;
    append(&mut out, b"\n")?;
    Ok(out)
}
