// The number of sites.

ghost use Rattle.std.specs.Prelude.{◌≡◌, ◌<◌, ◌-◌, ◌^◌, ℕ, length, map, min, sum_by};
ghost use Rattle.vf_base.specs.Base.{object_number};
ghost use Rattle.vf_base.specs.Lists.{joined, map_numbered};
ghost use Rattle.v_design.specs.Designs.{width_in};
ghost use Rattle.v_design.specs.Plain.{object_of, node_of, node_kind_of};
ghost use Rattle.v_design.specs.PlainDesigns.{design_of};
ghost use Rattle.v_design.specs.Sites.{variable_sites, output_sites, terminal_sites, faults_of};

use crate::list::width_of;
use crate::spelled::terminals_len;
use v_design::{Design, Node, Object, ObjectKind};
use vf_base::ObjectId;

/// The number of an object's bits, if it is a variable.
fn variable_bits(object: &Object) -> u64
    ensures { (number : ℕ) → result ≡ length (variable_sites number (object_of object.now)) }
{
    match object.kind {
        ObjectKind::Var => u64::from(object.width),
        ObjectKind::Word | ObjectKind::Net => 0,
    }
}

/// The number of the bits of all variables.
fn count_variables(objects: &[Object]) -> u64
    ensures { result ≡ min (length (joined (map_numbered variable_sites 0 (map object_of objects.now)))) (2 ^ 64 - 1) }
{
    let mut count: u64 = 0;
    'objects: for object in objects {
        count = count.saturating_add(variable_bits(object));
    }
    count
}

/// The number of the bits of some objects.
fn bits_of_outputs(design: &Design, outputs: &[ObjectId]) -> u64
    ensures { result ≡ min (sum_by (width_in (design_of design.now)) (map object_number outputs.now)) (2 ^ 64 - 1) }
{
    let mut count: u64 = 0;
    'outputs: for output in outputs {
        count = count.saturating_add(u64::from(width_of(design, *output)));
    }
    count
}

/// The number of the bits of all outputs of nodes.
fn count_outputs(design: &Design) -> u64
    ensures { result ≡ min (length (joined (map_numbered (output_sites (design_of design.now)) 0 (design_of design.now).nodes))) (2 ^ 64 - 1) }
{
    let mut count: u64 = 0;
    'nodes: for node in design.nodes.as_slice() {
        count = count.saturating_add(bits_of_outputs(design, node.outputs.as_slice()));
    }
    count
}

/// The number of all gates' input terminals.
fn count_terminals(nodes: &[Node]) -> u64
    ensures { result ≡ min (length (joined (map_numbered terminal_sites 0 (map node_of nodes.now)))) (2 ^ 64 - 1) }
{
    let mut count: u64 = 0;
    'nodes: for node in nodes {
        count = count.saturating_add(terminals_len(&node.kind) as u64);
    }
    count
}

/// The number of faults that `all_sites` lists, two for each site; 2^64 - 1 where there are more, which no memory holds. It takes no memory.
pub fn count_sites(design: &Design) -> u64
    ensures { result ≡ min (length (faults_of (design_of design.now))) (2 ^ 64 - 1) }
{
    let variables = count_variables(design.objects.as_slice());
    let outputs = count_outputs(design);
    let terminals = count_terminals(design.nodes.as_slice());
    let sites = variables.saturating_add(outputs).saturating_add(terminals);
    sites.saturating_add(sites)
}
