// The number of paths of nodes from one object to another.

ghost use Rattle.std.specs.Prelude.{◌≡◌, ℕ, ◌+◌, ◌*◌, ◌<◌, ◌≤◌, [], map, length, IfOk, min, vec_len, get_or, sum_by, nat_eq, Some};
ghost use Rattle.std.specs.List.{All};
ghost use Rattle.std.specs.Option.{ForSome};
ghost use Rattle.vf_base.specs.Base.{object_number};
ghost use Rattle.v_design.specs.Plain.{node_of};
ghost use Rattle.v_design.specs.Paths.{path_weight, one_if, paths};
ghost use Rattle.v_design.specs.PlainDesigns.{design_of};
ghost use Rattle.net_graph.specs.Tables.{AreCounts};
ghost use Rattle.net_graph.specs.CountLaws.{WritesCounts};
ghost use Rattle.net_graph.specs.Walks.{OnlyWalkedCount};

use crate::graph::Graph;
use crate::walk::{clear_walk, count_reached};
use number_set::NumberSet;
use std::alloc::Global;
use v_design::{Design, Node, NodeKind};
use vf_base::{NoMemory, ObjectId};

/// Room for counting paths in the graph of a design, with the counts from the object that was asked of last and the nodes through which they go.
#[derive(Drop)]
pub struct Marks<'d> {
    /// The design for which the marks were made.
    pub design: &'d Design,
    from: Option<ObjectId>,
    counts: Vec<u8>,
    walked: NumberSet,
    pub ghost sized: { vec_len counts ≡ length (design_of design.now).objects },
    pub ghost walked_sized: { walked.bound ≡ length (design_of design.now).nodes },
    pub ghost is_object: { ForSome from (λ object. object_number object < vec_len counts) },
    pub ghost counted: { ForSome from (λ object. AreCounts (design_of design.now) (object_number object) counts.items) },
    pub ghost only: { OnlyWalkedCount (design_of design.now).nodes walked from counts.items },
}

/// The sum of the counts of some objects, cut at 2.
fn capped_sum(inputs: &[ObjectId], counts: &Vec<u8>) -> u8
    requires { All (λ input. object_number input < vec_len counts.now) inputs.now }
    ensures { result ≡ min 2 (sum_by (λ object. get_or counts.now.items object 0) (map object_number inputs.now)) }
{
    let mut total: u8 = 0;
    'inputs: for input in inputs {
        total = total.saturating_add(counts[input.0 as usize]).min(2);
    }
    total
}

/// The paths through a node, over the counts of its inputs, cut at 2; a combinational block on a path makes two of it.
pub(crate) fn paths_through_node(node: &Node, inputs: &[ObjectId], counts: &Vec<u8>) -> u8
    requires { All (λ input. object_number input < vec_len counts.now) inputs.now }
    ensures { result ≡ min 2 (path_weight (node_of node.now).kind * sum_by (λ object. get_or counts.now.items object 0) (map object_number inputs.now)) }
{
    let total = capped_sum(inputs, counts);
    match &node.kind {
        NodeKind::Assign(..) => total,
        NodeKind::Gate(..) => total,
        NodeKind::Block(_) => (total + total).min(2),
    }
}

/// The paths to an output, with the one without a node where the paths begin there.
fn with_start(from: ObjectId, object: ObjectId, through: u8) -> u8
    requires { through ≤ 2 }
    ensures { result ≡ min 2 (one_if (nat_eq (object_number from) (object_number object)) + through) }
{
    if from.0 == object.0 {
        (1 + through).min(2)
    } else {
        through
    }
}

/// Writes the counts of a node's outputs.
pub(crate) fn write_counts(outputs: &[ObjectId], from: ObjectId, through: u8, counts: &mut Vec<u8>)
    requires are_objects { All (λ output. object_number output < vec_len counts.old) outputs.now }
    requires is_capped { through ≤ 2 }
    ensures same { vec_len counts.new ≡ vec_len counts.old }
    ensures written { WritesCounts (object_number from) through (map object_number outputs.now) counts.old.items counts.new.items }
{
    'outputs: for output in outputs {
        counts[output.0 as usize] = with_start(from, *output, through);
    }
}

impl<'d> Marks<'d> {
    /// Room for the design of a graph.
    pub fn new(alloc: Global, graph: &Graph<'d>) -> Result<Marks<'d>, NoMemory>
        ensures { IfOk result (λ marks. marks.design.now ≡ graph.now.design.now) }
    {
        let nodes = graph.design.nodes.as_slice().len();
        let counts = vec![in alloc; 0u8; graph.design.objects.as_slice().len()]?;
        let walked = NumberSet::new(alloc, nodes as u32)?;
        Ok(Marks {
            design: graph.design,
            from: None,
            counts,
            walked,
        })
    }
}

impl<'d> Graph<'d> {
    /// Counts the paths from an object to all others, unless that was done last.
    fn count_from(&self, from: ObjectId, work: &mut Marks<'d>)
        requires is_object { object_number from < length (design_of self.now.design.now).objects }
        requires belongs { work.old.design.now ≡ self.now.design.now }
        ensures belongs { work.new.design.now ≡ self.now.design.now }
        ensures asked { work.new.from ≡ Some from }
    {
        if let Some(last) = work.from {
            if last.0 == from.0 {
                return;
            }
        }
        clear_walk(self.design, work.from, &mut work.counts, &mut work.walked);
        count_reached(self, from, &mut work.counts, &mut work.walked);
        work.from = Some(from);
    }

    /// The number of paths of nodes from an object to a net piece, 2 where there are more; a combinational block on a path counts twice.
    ///
    /// The marks keep the counts from one object: asking of one object for many net pieces in a row costs one walk, over the nodes that it reaches and
    /// a bit of each node between them. A walk takes no memory, and taking its counts away costs as much as it did.
    pub fn paths(&self, from: ObjectId, net: ObjectId, work: &mut Marks<'d>) -> u8
        requires is_object { object_number from < length (design_of self.now.design.now).objects }
        requires is_net { object_number net < length (design_of self.now.design.now).objects }
        requires belongs { work.old.design.now ≡ self.now.design.now }
        ensures counted { result ≡ min 2 (paths (design_of self.now.design.now) (object_number from) (object_number net)) }
        ensures belongs { work.new.design.now ≡ self.now.design.now }
    {
        self.count_from(from, work);
        work.counts[net.0 as usize]
    }
}
