// The tables of the names of a walk.

ghost use Rattle.std.specs.Prelude.{◌≡◌, IfOk, map, length};
ghost use Rattle.v_elab.specs.Flat.{widths_of};
ghost use Rattle.v_elab.specs.Objects as plain;
ghost use Rattle.v_design.specs.Plain.{object_of};
ghost use Rattle.elab_objects.specs.ObjectViews.{held_objects};
ghost use Rattle.elaborate.specs.Elements.{objects_held};

use elab_objects::HeldObject;
use std::alloc::Global;
use v_design::Object;
use vf_base::NoMemory;

/// The widths of some objects in bits, by their numbers.
pub fn widths_of(alloc: Global, held: &[HeldObject]) -> Result<Vec<u8>, NoMemory>
    ensures { IfOk result (λ widths. widths.items ≡ widths_of (held_objects held.now)) }
{
    let mut widths = Vec::new(alloc);
    'held: for one in held {
        widths.push(one.object.width)?;
    }
    Ok(widths)
}

/// The objects alone, by their numbers.
pub fn objects_alone(alloc: Global, held: Vec<HeldObject>) -> Result<Vec<Object>, NoMemory>
    ensures { IfOk result (λ objects. map object_of objects.items ≡ objects_held (held_objects held.items)) }
{
    let mut objects = Vec::new(alloc);
    'held: for one in held {
        objects.push(one.object)?;
    }
    Ok(objects)
}
