// The number of paths of nodes from many objects at once.

ghost use Rattle.std.specs.Prelude.{◌≡◌, ℕ, ◌+◌, ◌<◌, ◌≤◌, map, length, min, vec_len, get_or};
ghost use Rattle.std.specs.List.{All};
ghost use Rattle.vf_base.specs.Base.{object_number};
ghost use Rattle.v_design.specs.PlainDesigns.{design_of};
ghost use Rattle.net_graph.specs.Tables.{AreTotalPaths};
ghost use Rattle.net_graph.specs.SpreadLaws.{WritesTotals};

use crate::count::paths_through_node;
use crate::graph::Graph;
use vf_base::ObjectId;

/// The totals before the first node: the counts themselves.
fn start_totals(counts: &[u8], totals: &mut Vec<u8>)
    requires { vec_len totals.old ≡ length counts.now }
    ensures { totals.new.items ≡ counts.now }
{
    'counts: for at in 0..counts.len() {
        totals[at] = counts[at];
    }
}

/// Writes the totals of a node's outputs: what is counted at each, and what comes through the node.
fn write_totals(outputs: &[ObjectId], counts: &[u8], through: u8, totals: &mut Vec<u8>)
    requires are_objects { All (λ output. object_number output < vec_len totals.old) outputs.now }
    requires alike { vec_len totals.old ≡ length counts.now }
    ensures same { vec_len totals.new ≡ vec_len totals.old }
    ensures written { WritesTotals counts.now through (map object_number outputs.now) totals.old.items totals.new.items }
{
    'outputs: for output in outputs {
        let at = output.0 as usize;
        totals[at] = counts[at].saturating_add(through).min(2);
    }
}

impl<'d> Graph<'d> {
    /// For each object the paths of nodes that lead to it from all objects, those from each as often as it is counted, told apart up to 2; a combinational
    /// block on a path counts twice. It takes one walk over the nodes, and no memory.
    pub fn total_paths(&self, counts: &[u8], totals: &mut Vec<u8>)
        requires counts_sized { length counts.now ≡ length (design_of self.now.design.now).objects }
        requires sized { vec_len totals.old ≡ length (design_of self.now.design.now).objects }
        ensures same { vec_len totals.new ≡ vec_len totals.old }
        ensures totals { AreTotalPaths (design_of self.now.design.now) counts.now totals.new.items }
    {
        start_totals(counts, totals);
        'nodes: for (number, node) in self.design.nodes.as_slice().iter().enumerate() {
            let through = paths_through_node(node, self.inputs_of(number), totals);
            write_totals(node.outputs.as_slice(), counts, through, totals);
        }
    }
}
