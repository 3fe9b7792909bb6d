//! Bits of four-valued logic, vectors of 1 to 128 of them, and what each operator answers.
//!
//! A value is seen by contracts as the list of its bits, the least significant first, and each operator is its function
//! on such lists (IEEE 1364-2001, clause 4.1). The code works on two words of 128 bits, without a loop over the bits.
#![tactic(auto)]

mod apply;
mod logic;
mod operator;
mod value;

pub use apply::{binary, unary};
pub use logic::{Bit, Edge, Truth, Wide};
pub use operator::{BinaryOperator, CaseKind, GateKind, UnaryOperator};
pub use value::{Vec4, edge_matches, label_matches};
