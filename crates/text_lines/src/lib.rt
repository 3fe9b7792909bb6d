//! The lines of a text, the words of a line, and the numbers that decimal digits spell: what the readers of plans and of responses share.
//!
//! A line feed ends a line, a carriage return before it is dropped, and bytes after the last line feed are a line too; spaces and tabs part words, and `#` begins a
//! comment (`specs/Text`; the format is this program's own).
#![tactic(auto)]

mod cut;
mod number;

pub use cut::{lines, words};
pub use number::digits_value;
