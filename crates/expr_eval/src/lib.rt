//! The value of an expression of a flat design over the values of the objects that it names.
//!
//! Each part of a sized expression has its operator's answer brought to the width of the part, by the sign of the part (IEEE 1364-2001,
//! clauses 4.1 and 4.4). The values may be those of a whole machine or an overlay. Evaluating takes no memory.
#![tactic(auto)]

mod operand;
mod value;

pub use operand::{part_index, place_of_index, put_left, put_right, width_of_part, word_of_index};
pub use value::{Stack, chosen, eval, is_signed, repeated_bits};
