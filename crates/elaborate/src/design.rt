// The flat design of a unit.

ghost use Rattle.std.specs.Prelude.{◌≡◌, ◌<◌, ℕ, List, MatchResult, Ok};
ghost use Rattle.v_design.specs.PlainDesigns.{design_of};
ghost use Rattle.v_tree.specs.Tokens.{SourceToken};
ghost use Rattle.v_tree.specs.Views.{unit_of};
ghost use Rattle.v_scan.specs.Texts.{AreTokens};
ghost use Rattle.v_parse.specs.Spelling.{SpellsUnit};
ghost use Rattle.v_parse.specs.Heights.{unit_height};
ghost use Rattle.v_elab.specs.Flat.{flat};
ghost use Rattle.flat_laws.specs.Source.{IsSourceUnit};
ghost use Rattle.flat_laws.specs.Names.OnceDeclared.{IsNamedUnit};
ghost use Rattle.elaborate.specs.ElabFaults.{IsElabFault};
ghost use Rattle.elaborate.specs.Elements.{Gives};

use crate::convert::walk_fault;
use crate::elements::{Elements, elements_of};
use crate::fault::ElabFault;
use elab_walk::{Modules, second_module, walked_from};
use source_laws::kept;
use std::alloc::Global;
use v_design::Design;
use v_elab::Mode;
use v_tree::Unit;
use vf_base::Seq;

/// The elements of the flat design of a unit that a text spells.
fn elements_from(alloc: Global, unit: &Unit, top: &[u8], mode: Mode) -> Result<Elements, ElabFault>
    requires items { IsSourceUnit (unit_of unit.now).modules }
    requires names { IsNamedUnit (unit_of unit.now).modules }
    ensures { Gives (flat (unit_of unit.now) top.now mode) result }
{
    let modules = Modules::new(alloc, unit)?;
    let Some(top) = modules.named(top) else {
        return Err(ElabFault::NoTop);
    };
    match second_module(alloc, unit)? {
        Some(place) => Err(ElabFault::Twice(place)),
        None => match walked_from(alloc, &modules, mode, top) {
            Ok(parts) => elements_of(alloc, &parts),
            Err(fault) => Err(walk_fault(fault)),
        },
    }
}

/// The flat design of a unit from its top module, with blocks of combinational form as nodes or, in strict mode, every block as a process.
///
/// The unit is one that a text spells: so its design keeps the rules of flat designs.
///
/// # Errors
///
/// The first reason why there is none: `NoTop`, then a second module of one name (`Twice`), then the first fault of the walk through the hierarchy, by item and
/// place, or the first count that passes its limit there; then too many nodes or processes, `TwoDrivers`, too many objects, too many inputs of a node, `Loop`.
/// `NoMemory` can come at any point.
pub fn elaborate(alloc: Global, unit: &Unit, top: &[u8], mode: Mode) -> Result<Design, ElabFault>
    requires text { (text : List ℕ) × (tokens : List SourceToken) × AreTokens text tokens × SpellsUnit (unit_of unit.now) tokens × (unit_height (unit_of unit.now) < 256) }
    ensures { MatchResult result (λ design. flat (unit_of unit.now) top.now mode ≡ Ok (design_of design)) (λ fault. IsElabFault (flat (unit_of unit.now) top.now mode) fault) }
{
    kept();
    match elements_from(alloc, unit, top, mode) {
        Err(fault) => Err(fault),
        Ok(elements) => Ok(Design {
            objects: Seq::from_vec(elements.objects),
            joined: Seq::from_vec(elements.joined),
            nodes: Seq::from_vec(elements.nodes),
            processes: Seq::from_vec(elements.processes),
        }),
    }
}
