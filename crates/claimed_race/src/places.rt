// The accesses of a phase that print as a text, by their places.

ghost use Rattle.std.specs.Prelude.{◌≡◌, ◌++◌, IfOk, OnOk, []};
ghost use Rattle.std.specs.Str.{bytes_eq};
ghost use Rattle.vf_base.specs.Base.{reported_access};
ghost use Rattle.v_design.specs.Laws.{place_if};
ghost use Rattle.v_design.specs.PlainDesigns.{design_of};
ghost use Rattle.grade_report.specs.Report.{access_text};
ghost use Rattle.causal_monitor.specs.Index.{accesses_in};
ghost use Rattle.claimed_race.specs.Places.{places_of, PrintsIfKnown};

use crate::printed::prints_as;
use causal_monitor::CheckIndex;
use std::alloc::Global;
use v_design::Design;
use vf_base::{Access, NoMemory};

/// Adds a place, where it is wanted.
fn push_if(wanted: bool, place: usize, places: &mut Vec<usize>) -> Result<(), NoMemory>
    ensures { OnOk result (places.new.items ≡ places.old.items ++ place_if wanted place []) }
{
    if wanted {
        places.push(place)?;
    }
    Ok(())
}

/// Whether an access prints as a text. The one that is known to is not asked again, since a phase may have the same access many times.
fn prints_beside(
    alloc: Global,
    design: &Design,
    tail: &mut Vec<u8>,
    known: Option<Access>,
    access: Access,
    text: &[u8],
) -> Result<bool, NoMemory>
    requires { PrintsIfKnown (design_of design.now) text.now known }
    ensures { IfOk result (λ same. same ≡ bytes_eq (access_text (design_of design.now) (reported_access access)) text.now) }
{
    if known == Some(access) {
        return Ok(true);
    }
    prints_as(alloc, design, tail, access, text)
}

/// The access that is known to print as a text, after one more: this one, if it does.
fn known_after(
    design: &Design,
    text: &[u8],
    known: Option<Access>,
    access: Access,
    prints: bool,
) -> Option<Access>
    requires known { PrintsIfKnown (design_of design.now) text.now known }
    requires prints { prints ≡ bytes_eq (access_text (design_of design.now) (reported_access access)) text.now }
    ensures { PrintsIfKnown (design_of design.now) text.now result }
{
    if prints { Some(access) } else { known }
}

/// The places of the accesses that print as a text, in ascending order.
pub(crate) fn places_of(
    alloc: Global,
    design: &Design,
    index: &CheckIndex,
    text: &[u8],
) -> Result<Vec<usize>, NoMemory>
    ensures { IfOk result (λ places. places.items ≡ places_of (design_of design.now) text.now 0 (accesses_in index.now)) }
{
    let mut tail = Vec::new(alloc);
    let mut places = Vec::new(alloc);
    let mut known = None;
    'accesses: for place in 0..index.access_count() {
        let access = index.access(place);
        let wanted = prints_beside(alloc, design, &mut tail, known, access, text)?;
        known = known_after(design, text, known, access, wanted);
        push_if(wanted, place, &mut places)?;
    }
    Ok(places)
}
