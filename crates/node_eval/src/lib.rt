//! What the nodes of a flat design give their outputs.
//!
//! A continuous assignment gives each of its outputs the bits of the value from the output's place on: the rightmost output gets the least significant bits
//! (`place_parts`; IEEE 1364-2001, clause 6.1). A gate gives its output the one bit that its kind makes of its terminals, where an x or z counts as x (`gate_output`;
//! clauses 7.2 and 7.3). Terminals and outputs at which the view has a stuck-at fault are forced; `force_outputs` does so for the outputs of a block. `run_block`
//! gives for each output of a combinational block what its statement leaves there (clause 9): each statement sees the values of all objects with what the block has
//! assigned so far in front, and an assignment fixes its value, its indexes and its updates before it writes the first of them. An unknown condition of an `if` is
//! false, and of a case the first item with a label that matches is taken. All are proved to give what the definitions of nodes' values say, and none takes memory
//! as it runs.
#![tactic(auto)]

mod assign;
mod block_assign;
mod force;
mod gate;
mod overlay;
mod room;
mod run;
mod tools;

pub use assign::place_parts;
pub use force::force_outputs;
pub use gate::gate_output;
pub use room::{BlockRoom, run_block};
