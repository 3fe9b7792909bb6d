// Reading a design.

ghost use Rattle.std.specs.Prelude.{◌≡◌, ◌⊎◌, Ok, Err, MatchResult};
ghost use Rattle.v_design.specs.PlainDesigns.{design_of};
ghost use Rattle.elaborate.specs.declared.design_fault.DesignFault.TheVariants as faults;
ghost use Rattle.elaborate.specs.Meanings.{IsTheMeaning};

use crate::design_fault::{DesignFault, elab_fault, parse_fault, scan_fault};
use crate::elaborate;
use std::alloc::Global;
use v_design::Design;
use v_elab::Mode;
use v_parse::parse;
use v_scan::scan;

/// The design that a text says from its top module.
///
/// # Errors
///
/// What is wrong with its tokens, else with what they spell, else with the design; want of memory at any point.
pub fn read_design(
    alloc: Global,
    text: &[u8],
    top: &[u8],
    mode: Mode,
) -> Result<Design, DesignFault>
    ensures { MatchResult result (λ design. IsTheMeaning text.now top.now mode (Ok (design_of design))) (λ fault. (fault ≡ faults.NoMemory) ⊎ IsTheMeaning text.now top.now mode (Err fault)) }
{
    let tokens = match scan(alloc, text) {
        Ok(tokens) => tokens,
        Err(fault) => return Err(scan_fault(fault)),
    };
    let unit = match parse(alloc, tokens.as_slice()) {
        Ok(unit) => unit,
        Err(fault) => return Err(parse_fault(fault)),
    };
    match elaborate(alloc, &unit, top, mode) {
        Ok(design) => Ok(design),
        Err(fault) => Err(elab_fault(fault)),
    }
}
