// The search of what a change of one object reaches.

ghost use Rattle.std.specs.Prelude.{◌≡◌, ◌||◌, ◌<◌, ℕ, true, false, length, map, nat_eq};
ghost use Rattle.std.specs.List.{All};
ghost use Rattle.vf_base.specs.Base.{object_number};
ghost use Rattle.vf_base.specs.Lists.{has};
ghost use Rattle.v_design.specs.PlainDesigns.{design_of};
ghost use Rattle.object_set.specs.Ordered.{with_objects};
ghost use Rattle.reach_search.specs.Reach.{reaches, successors, IsClosed, SomeNodeReads};

use net_graph::Graph;
use object_set::ObjectSet;
use vf_base::ObjectId;

/// Whether a node reads an object. Where none does, a change of the object reaches nothing else.
pub fn is_read(graph: &Graph, object: ObjectId) -> bool
    requires { object_number object < length (design_of graph.now.design.now).objects }
    ensures read { result ≡ true → SomeNodeReads (design_of graph.now.design.now) (object_number object) }
    ensures alone { result ≡ false → (other : ℕ) → reaches (design_of graph.now.design.now) (object_number object) other ≡ nat_eq (object_number object) other }
{
    !graph.readers(object).is_empty()
}

/// Puts what the nodes that read an object drive into a set.
fn insert_successors(graph: &Graph, object: ObjectId, found: &mut ObjectSet)
    requires is_object { object_number object < length (design_of graph.now.design.now).objects }
    requires sized { found.old.bound ≡ length (design_of graph.now.design.now).objects }
    ensures { found.new ≡ record found.old { objects = with_objects found.old.objects (successors (design_of graph.now.design.now) (object_number object)) } }
{
    let nodes = graph.design.nodes.as_slice();
    'readers: for reader in graph.readers(object) {
        let node = &nodes[reader.0 as usize];
        found.insert_all(node.outputs.as_slice());
    }
}

/// Puts an object and all that it reaches into a set that has, with each of its objects, all that this reaches.
///
/// What comes in is gone through in its order: what was in the set before isn't looked at again.
pub(crate) fn search(graph: &Graph, object: ObjectId, found: &mut ObjectSet)
    requires is_object { object_number object < length (design_of graph.now.design.now).objects }
    requires sized { found.old.bound ≡ length (design_of graph.now.design.now).objects }
    requires closed { IsClosed (design_of graph.now.design.now) found.old.objects }
    ensures same { found.new.bound ≡ found.old.bound }
    ensures closed { IsClosed (design_of graph.now.design.now) found.new.objects }
    ensures reached { (other : ℕ) → has found.new.objects other ≡ (has found.old.objects other || reaches (design_of graph.now.design.now) (object_number object) other) }
{
    let mut at = found.len();
    found.insert(object);
    'objects: while let Some(next) = found.get(at) {
        insert_successors(graph, next, found);
        at += 1;
    }
}
