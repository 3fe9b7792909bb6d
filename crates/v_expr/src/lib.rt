//! Expressions, selects, targets, ranges and delays: how tokens spell them, and reading them (IEEE 1364-2001, annex A.8 and clause 4).
//!
//! `specs/Spelling` says from the tree which tokens spell it, and `specs/Heights` how many levels stand below its outermost one. The calls
//! read from the left within a number of levels; each does what the reader of its name in `specs/Expressions` and `specs/Parts` does.
//! `specs/ExpressionExact` and `specs/PartLaws` show that these readers are exact: what is read is spelled, and where reading stops, what
//! stands before begins a spelling and none goes on through that token, or none of so few levels. `specs/ExpressionReads` shows that each
//! spelled expression within the levels is read.
#![tactic(auto)]

mod expressions;
mod operators;
mod parts;
mod readers;

pub use expressions::expression;
pub use parts::{
    ExpressionReader, delay, inner_delay, inner_expression, inner_select, inner_target, range,
    select, target,
};
pub use readers::{PartReader, SeparatedReader, closed, separated, with_next};
