// The names that are joined into others.

ghost use Rattle.std.specs.Prelude.{◌≡◌, ◌++◌, ◌∷◌, [], false, IfOk, OnOk, List, map, flat_map};
ghost use Rattle.v_design.specs.Plain.{name_joined};
ghost use Rattle.v_elab.specs.Drivers.{signals_of};
ghost use Rattle.v_elab.specs.Objects.{HeldObject as PlainObject, names_joined};
ghost use Rattle.elab_parts.specs.PartViews.{part_of, parts_of, signal_of};
ghost use Rattle.object_names.specs.NameTables.{AreNamesOf, joined_as, joined_by};

use crate::names::ObjectNames;
use elab_parts::{Part, Signal};
use std::alloc::Global;
use v_design::JoinedName;
use vf_base::{NoMemory, Text};

/// A name that is joined into another one, with its own bounds and the pieces of that one.
fn joined_name(
    alloc: Global,
    names: &ObjectNames<'_>,
    signal: &Signal,
) -> Result<JoinedName, NoMemory>
    ensures { IfOk result (λ joined. name_joined joined ∷ [] ≡ joined_as false names.now (signal_of signal.now)) }
{
    let vector = names.vector(alloc, signal.name.as_bytes())?;
    Ok(JoinedName {
        name: Text::from_bytes(alloc, signal.name.as_bytes())?,
        ranged: signal.range.ranged,
        high: vector.high,
        low: vector.low,
        pieces: vector.pieces,
    })
}

/// Adds the name of a part, where it is joined into another one.
fn push_joined(
    alloc: Global,
    names: &ObjectNames<'_>,
    part: &Part<'_>,
    joined: &mut Vec<JoinedName>,
) -> Result<(), NoMemory>
    ensures { OnOk result (map name_joined joined.new.items ≡ map name_joined joined.old.items ++ flat_map (joined_by names.now) (signals_of (part_of part.now ∷ []))) }
{
    match part {
        Part::Signal(signal) => {
            if signal.joined.is_some() {
                joined.push(joined_name(alloc, names, signal)?)?;
            }
            Ok(())
        }
        _ => Ok(()),
    }
}

/// The names that are joined into others, in the order of the walk.
pub fn names_joined(
    alloc: Global,
    names: &ObjectNames<'_>,
    parts: &[Part<'_>],
) -> Result<Vec<JoinedName>, NoMemory>
    ensures { IfOk result (λ joined. (objects : List PlainObject) → AreNamesOf (parts_of parts.now) objects names.now →
        map name_joined joined.items ≡ names_joined (signals_of (parts_of parts.now)) objects) }
{
    let mut joined = Vec::new(alloc);
    'parts: for part in parts {
        push_joined(alloc, names, part, &mut joined)?;
    }
    Ok(joined)
}
