// Ports of an instance that are joined with what they are connected to.

ghost use Rattle.std.specs.Prelude.{◌≡◌, ℕ, List, [], ◌∷◌, IfOk, OnOk, map, option_map};
ghost use Rattle.std.specs.Option.{option_or};
ghost use Rattle.v_elab.specs.Walk.{joining_of as found_joining};
ghost use Rattle.module_scope.specs.Kept.{kept};
ghost use Rattle.elab_parts.specs.PartViews.{joining_of};
ghost use Rattle.elab_items.specs.Joins.{port_joined_of, joining_seen};

use elab_parts::Joining;
use module_scope::NameMap;
use std::alloc::Global;
use v_copy::copy_text;
use vf_base::{NoMemory, Text};

/// A port of an instance that is one object with the net or variable that it is connected to.
#[derive(Drop)]
pub struct PortJoined {
    pub port: Text,
    pub joining: Joining,
}

/// Keeps how a port is joined, unless that is kept of a port of its name.
fn keep_first<'h>(
    joined: &'h PortJoined,
    joins: &mut NameMap<'h, &'h Joining>,
) -> Result<(), NoMemory>
    ensures { OnOk result ((name : List ℕ) → option_map joining_seen (kept joins.new name) ≡ option_or (option_map joining_seen (kept joins.old name))
        (found_joining (port_joined_of joined.now ∷ []) name)) }
{
    match joins.get(joined.port.as_bytes()) {
        Some(_) => Ok(()),
        None => {
            joins.put(joined.port.as_bytes(), &joined.joining)?;
            Ok(())
        }
    }
}

/// How ports are joined, by their names; of several with a name the first counts.
pub fn joins_by_name<'h>(
    alloc: Global,
    ports: &'h [PortJoined],
) -> Result<NameMap<'h, &'h Joining>, NoMemory>
    ensures { IfOk result (λ joins. (name : List ℕ) → option_map joining_seen (kept joins name) ≡ found_joining (map port_joined_of ports.now) name) }
{
    let mut joins = NameMap::new(alloc);
    'ports: for joined in ports {
        keep_first(joined, &mut joins)?;
    }
    Ok(joins)
}

/// A copy of how a port is joined, if it is.
pub fn copy_joining(alloc: Global, joining: Option<&Joining>) -> Result<Option<Joining>, NoMemory>
    ensures { IfOk result (λ copy. option_map joining_of copy ≡ option_map joining_seen joining.entry) }
{
    match joining {
        None => Ok(None),
        Some(joining) => {
            let into = copy_text(alloc, &joining.into)?;
            Ok(Some(Joining {
                into,
                direction: joining.direction,
                place: joining.place,
            }))
        }
    }
}
