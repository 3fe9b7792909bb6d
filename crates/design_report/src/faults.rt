// The faults that can be listed.

ghost use Rattle.std.specs.Prelude.{◌≡◌, ◌++◌, IfOk, OnOk};
ghost use Rattle.v_design.specs.Plain.{fault_of};
ghost use Rattle.v_design.specs.PlainDesigns.{design_of};
ghost use Rattle.design_report.specs.Texts.{value_text, class_line, IsTheFaultsText};

use crate::check::append_count;
use fault_list::{all_sites, append, classes, write_site};
use std::alloc::Global;
use v_design::{Design, Fault};
use vf_base::NoMemory;

/// The word of a value.
fn value_word(value: bool) -> &'static [u8]
    ensures { result.now ≡ value_text value }
{
    if value { b" 1" } else { b" 0" }
}

/// Adds the line of a fault, with the place of the first fault of its class.
#[tactic(auto, unfolding(crate::specs::Texts::class_line))]
fn append_class(
    alloc: Global,
    design: &Design,
    fault: Fault,
    place: u32,
    out: &mut Vec<u8>,
) -> Result<(), NoMemory>
    ensures { OnOk result (out.new.items ≡ out.old.items ++ class_line (design_of design.now) (fault_of fault) place) }
{
    append(out, b"fault ")?;
    write_site(alloc, design, fault.site, out)?;
    append(out, value_word(fault.value))?;
    append_count(alloc, out, b" # ", u64::from(place))?;
    append(out, b"\n")?;
    Ok(())
}

/// The lines of all faults of a design, each with the place, among them, of the first one of its class.
///
/// # Errors
///
/// Want of memory.
pub fn faults_text(alloc: Global, design: &Design) -> Result<Vec<u8>, NoMemory>
    ensures { IfOk result (λ text. IsTheFaultsText (design_of design.now) text.items) }
{
    let all = all_sites(alloc, design)?;
    let faults = all.as_slice();
    let first_places = classes(alloc, design, faults)?;
    let places = first_places.as_slice();
    let mut out = Vec::new(alloc);
    'faults: for (number, fault) in faults.iter().enumerate() {
        append_class(alloc, design, *fault, places[number], &mut out)?;
    }
    Ok(out)
}
