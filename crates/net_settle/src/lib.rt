//! Settling the nets of a design: which nodes are still to be evaluated, and the law that evaluating them settles the nets.
//!
//! After a change of a variable the nodes that read it are marked. Whoever takes the least marked node, writes what its function gives and
//! marks the readers of what that changed, and so on until no mark is left, has settled nets (IEEE 1364-2001, clauses 6 and 7): those
//! in which each node's outputs equal its function of its inputs. `evaluate` gives that function, of a continuous assignment, a gate or a
//! combinational block, over any values of the design's objects and under a stuck-at fault.
#![tactic(auto)]

ghost use Rattle.v_design.specs.Laws.{NetsSettle, SettledValuesAreOne};

mod node_work;
mod settle;
mod work;

pub use node_work::evaluate;
pub use settle::Settle;
pub use work::NodeWork;

/// Working on marked nodes settles the nets, and the variables alone fix what they settle on. It does nothing when it runs; its contract is the law.
pub fn settles()
    ensures settle { NetsSettle }
    ensures one { SettledValuesAreOne }
{
    order_laws::nets();
}
