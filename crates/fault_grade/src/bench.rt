// What a grading stands on.

use net_graph::Graph;
use v_design::{Design, Plan};

/// A design with its graph, and a plan over it.
#[derive(Clone, Copy)]
pub struct Bench<'d> {
    pub design: &'d Design,
    pub graph: &'d Graph<'d>,
    pub plan: &'d Plan,
}
