// Walks over the nodes that an object reaches.

ghost use Rattle.std.specs.Prelude.{◌≡◌, ℕ, ◌<◌, [], ◌∷◌, map, length, vec_len, get_or, Some};
ghost use Rattle.std.specs.List.{All};
ghost use Rattle.std.specs.Option.{ForSome};
ghost use Rattle.vf_base.specs.Base.{object_number};
ghost use Rattle.v_design.specs.PlainDesigns.{design_of};
ghost use Rattle.net_graph.specs.Tables.{AreCounts};
ghost use Rattle.net_graph.specs.Walks.{AddsReaders, PassesNode, ClearsCounts, OnlyDrivenCount, OnlyWalkedCount};

use crate::count::{paths_through_node, write_counts};
use crate::graph::Graph;
use number_set::NumberSet;
use v_design::Design;
use vf_base::ObjectId;

/// Puts the nodes that read an object into a set.
fn add_readers(graph: &Graph, object: ObjectId, walked: &mut NumberSet)
    requires is_object { object_number object < length (design_of graph.now.design.now).objects }
    requires sized { walked.old.bound ≡ length (design_of graph.now.design.now).nodes }
    ensures { AddsReaders (design_of graph.now.design.now).nodes (object_number object ∷ []) walked.old walked.new }
{
    let readers = graph.readers(object);
    'nodes: for reader in readers {
        walked.insert(reader.0);
    }
}

/// Puts the nodes that read one of some objects into a set.
fn add_all_readers(graph: &Graph, objects: &[ObjectId], walked: &mut NumberSet)
    requires are_objects { All (λ object. object_number object < length (design_of graph.now.design.now).objects) objects.now }
    requires sized { walked.old.bound ≡ length (design_of graph.now.design.now).nodes }
    ensures { AddsReaders (design_of graph.now.design.now).nodes (map object_number objects.now) walked.old walked.new }
{
    'objects: for object in objects {
        add_readers(graph, *object, walked);
    }
}

/// Goes through a node: writes the counts of its outputs, and puts the nodes that read those into the set.
fn pass_node(
    graph: &Graph,
    from: ObjectId,
    number: usize,
    counts: &mut Vec<u8>,
    walked: &mut NumberSet,
)
    requires is_node { number < length (design_of graph.now.design.now).nodes }
    requires sized { vec_len counts.old ≡ length (design_of graph.now.design.now).objects }
    requires walked_sized { walked.old.bound ≡ length (design_of graph.now.design.now).nodes }
    ensures same { vec_len counts.new ≡ vec_len counts.old }
    ensures passed { PassesNode (design_of graph.now.design.now).nodes (object_number from) number counts.old.items counts.new.items walked.old walked.new }
{
    let nodes = graph.design.nodes.as_slice();
    let node = &nodes[number];
    let outputs = node.outputs.as_slice();
    let through = paths_through_node(node, graph.inputs_of(number), counts);
    write_counts(outputs, from, through, counts);
    add_all_readers(graph, outputs, walked);
}

/// The counts of all objects, over the nodes that are reached, in ascending order: a node reads what earlier ones drive, and a node that is passed by has no
/// input with a path.
pub(crate) fn count_reached(
    graph: &Graph,
    from: ObjectId,
    counts: &mut Vec<u8>,
    walked: &mut NumberSet,
)
    requires is_object { object_number from < length (design_of graph.now.design.now).objects }
    requires sized { vec_len counts.old ≡ length (design_of graph.now.design.now).objects }
    requires walked_sized { walked.old.bound ≡ length (design_of graph.now.design.now).nodes }
    requires none { (object : ℕ) → get_or counts.old.items object 0 ≡ 0 }
    ensures same { vec_len counts.new ≡ vec_len counts.old }
    ensures walked_same { walked.new.bound ≡ walked.old.bound }
    ensures counted { AreCounts (design_of graph.now.design.now) (object_number from) counts.new.items }
    ensures only { OnlyWalkedCount (design_of graph.now.design.now).nodes walked.new (Some from) counts.new.items }
{
    counts[from.0 as usize] = 1;
    add_readers(graph, from, walked);
    let mut at = 0;
    'nodes: while let Some(number) = walked.next_from(at) {
        pass_node(graph, from, number as usize, counts, walked);
        at = number + 1;
    }
}

/// Takes away the counts of a node's outputs.
fn clear_outputs(outputs: &[ObjectId], counts: &mut Vec<u8>)
    requires { All (λ output. object_number output < vec_len counts.old) outputs.now }
    ensures same { vec_len counts.new ≡ vec_len counts.old }
    ensures cleared { ClearsCounts (map object_number outputs.now) counts.old.items counts.new.items }
{
    'outputs: for output in outputs {
        counts[output.0 as usize] = 0;
    }
}

/// Takes away the count of the object at which the paths begin.
fn clear_start(from: Option<ObjectId>, counts: &mut Vec<u8>)
    requires { ForSome from (λ start. object_number start < vec_len counts.old) }
    ensures same { vec_len counts.new ≡ vec_len counts.old }
    ensures kept { (object : ℕ) → ForSome from (λ start. object_number start ≡ object → ⊥) → get_or counts.new.items object 0 ≡ get_or counts.old.items object 0 }
    ensures cleared { ForSome from (λ start. get_or counts.new.items (object_number start) 0 ≡ 0) }
{
    if let Some(start) = from {
        counts[start.0 as usize] = 0;
    }
}

/// Takes away the counts of what the nodes of a set drive.
fn clear_driven(design: &Design, counts: &mut Vec<u8>, walked: &NumberSet)
    requires sized { vec_len counts.old ≡ length (design_of design.now).objects }
    requires walked_sized { walked.now.bound ≡ length (design_of design.now).nodes }
    requires only { OnlyDrivenCount (design_of design.now).nodes walked.now 0 counts.old.items }
    ensures same { vec_len counts.new ≡ vec_len counts.old }
    ensures none { (object : ℕ) → get_or counts.new.items object 0 ≡ 0 }
{
    let nodes = design.nodes.as_slice();
    let mut at = 0;
    'nodes: while let Some(number) = walked.next_from(at) {
        let place = number as usize;
        let node = &nodes[place];
        clear_outputs(node.outputs.as_slice(), counts);
        at = number + 1;
    }
}

/// Takes away what a walk left: the counts, by the nodes that it went through, and then those.
pub(crate) fn clear_walk(
    design: &Design,
    from: Option<ObjectId>,
    counts: &mut Vec<u8>,
    walked: &mut NumberSet,
)
    requires sized { vec_len counts.old ≡ length (design_of design.now).objects }
    requires walked_sized { walked.old.bound ≡ length (design_of design.now).nodes }
    requires is_object { ForSome from (λ start. object_number start < vec_len counts.old) }
    requires only { OnlyWalkedCount (design_of design.now).nodes walked.old from counts.old.items }
    ensures same { vec_len counts.new ≡ vec_len counts.old }
    ensures walked_same { walked.new.bound ≡ walked.old.bound }
    ensures none { (object : ℕ) → get_or counts.new.items object 0 ≡ 0 }
{
    clear_start(from, counts);
    clear_driven(design, counts, walked);
    walked.clear();
}
