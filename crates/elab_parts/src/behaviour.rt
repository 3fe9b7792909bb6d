// What parts do that are nodes.

ghost use Rattle.std.specs.Prelude.{◌≡◌};
ghost use Rattle.elab_parts.specs.PartViews.{drives_of};
ghost use Rattle.elab_parts.specs.BehaviourViews.{node_drives_of};

use crate::part::{Drive, ValueIn, WalkedProcess};
use four_value::GateKind;
use v_width::SizedExpr;
use vf_base::Text;

/// What a node computes: a value, a gate's function of its terminals, or what a block leaves in its targets.
#[derive(Drop)]
pub enum NodeFunction<'p, 'u> {
    Assign(&'p ValueIn),
    Gate {
        kind: GateKind,
        path: &'p Text,
        terminals: &'p [SizedExpr],
    },
    Block(&'p WalkedProcess<'u>),
}

/// What a node drives: the drives of a continuous assignment or a gate, or those that a block has of its targets.
#[derive(Drop)]
pub enum NodeDrives<'p> {
    Listed(&'p [Drive]),
    Targets(Vec<Drive>),
}

/// A node in the order of the walk. Only a gate has a name.
#[derive(Drop)]
pub struct WalkedNode<'p, 'u> {
    pub name: Option<&'p Text>,
    pub drives: NodeDrives<'p>,
    pub function: NodeFunction<'p, 'u>,
}

/// A part that is a process.
#[derive(Drop)]
pub struct ProcessPart<'p, 'u> {
    pub process: &'p WalkedProcess<'u>,
}

impl<'p> NodeDrives<'p> {
    /// The drives from the left of the node's target.
    pub fn as_slice(&self) -> &[Drive]
        ensures { drives_of result.now ≡ node_drives_of self.now }
    {
        match self {
            NodeDrives::Listed(drives) => drives,
            NodeDrives::Targets(drives) => drives.as_slice(),
        }
    }
}
