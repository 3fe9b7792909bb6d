// What a certificate is followed for.

use cert_text::Claim;
use net_graph::Graph;
use v_design::{Design, Fault, Plan};

/// The fault and the claim of a certificate's second line, of a design with its graph and over a plan.
#[derive(Clone, Copy)]
pub(crate) struct Case<'c> {
    pub(crate) design: &'c Design,
    pub(crate) graph: &'c Graph<'c>,
    pub(crate) plan: &'c Plan,
    pub(crate) fault: Fault,
    pub(crate) claim: Claim<'c>,
}
