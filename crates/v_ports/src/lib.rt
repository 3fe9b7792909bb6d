//! Ports that are one object with what they are connected to, and nets cut into the largest runs of bits with one driver.
//!
//! A port whose actual is one whole net or variable of equal width is one object with it; `join_ports` answers for each object the one that it is
//! at last joined into (`specs/JoinedObjects`; IEEE 1364-2001, clause 12.3, where that they are one object is this program's own choice), or the
//! place of the first connection whose port an earlier one names too. `pieces` answers how a net is cut, or the place of the first driver of a bit
//! that has one already, with that bit (`specs/Pieces`; clause 6.1).
#![tactic(auto)]

mod cut;
mod fault;
mod join;

pub use cut::{Drive, Piece, pieces};
pub use fault::PortFault;
pub use join::{PortUse, join_ports};
