// The keys under which names are found.

ghost use Rattle.std.specs.Prelude.{◌≡◌, IfOk, map, length, vec_len};
ghost use Rattle.v_design.specs.Designs.{FlatObject, FlatNode, NameJoined};
ghost use Rattle.v_design.specs.Plain.{object_of, node_of, name_joined};
ghost use Rattle.key_index.specs.Places.{keys_of};
ghost use Rattle.plan_read.specs.Stems.{object_key, gate_key, joined_key};

use crate::stem::stem;
use std::alloc::Global;
use v_design::{JoinedName, Node, Object};
use vf_base::NoMemory;

/// The stems of objects' names.
pub fn object_keys<'d>(alloc: Global, objects: &'d [Object]) -> Result<Vec<&'d [u8]>, NoMemory>
    ensures keys { IfOk result (λ keys. keys_of keys.items ≡ map object_key (map object_of objects.now)) }
    ensures len { IfOk result (λ keys. vec_len keys ≡ length objects.now) }
{
    let mut keys = Vec::new(alloc);
    'objects: for object in objects {
        keys.push(stem(object.name.as_bytes()))?;
    }
    Ok(keys)
}

/// The names of gates.
pub fn gate_keys<'d>(alloc: Global, nodes: &'d [Node]) -> Result<Vec<&'d [u8]>, NoMemory>
    ensures keys { IfOk result (λ keys. keys_of keys.items ≡ map gate_key (map node_of nodes.now)) }
    ensures len { IfOk result (λ keys. vec_len keys ≡ length nodes.now) }
{
    let mut keys = Vec::new(alloc);
    'nodes: for node in nodes {
        keys.push(node.name.as_bytes())?;
    }
    Ok(keys)
}

/// The stems of joined names.
pub fn joined_keys<'d>(alloc: Global, names: &'d [JoinedName]) -> Result<Vec<&'d [u8]>, NoMemory>
    ensures keys { IfOk result (λ keys. keys_of keys.items ≡ map joined_key (map name_joined names.now)) }
    ensures len { IfOk result (λ keys. vec_len keys ≡ length names.now) }
{
    let mut keys = Vec::new(alloc);
    'names: for name in names {
        keys.push(stem(name.name.as_bytes()))?;
    }
    Ok(keys)
}
