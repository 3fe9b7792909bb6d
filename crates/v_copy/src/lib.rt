//! Copies of texts and of expressions (IEEE 1364-2001, annex A.8).
//!
//! `copy_expr` gives an expression with the same plain view (`Views` of the trees' crate), each part with its place, and `copy_text` a text with the same bytes.
//! A call answers nothing else than that copy or want of memory. `both` is the one `?` behind two calls that may lack it.
#![tactic(auto)]

mod copied;
mod expression;

pub use copied::both;
pub use expression::{copy_expr, copy_text};
