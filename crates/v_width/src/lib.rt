//! Sizes and signs of expressions and targets (IEEE 1364-2001, clauses 4.4 and 4.5, clause 6.1 and clause 9.2 for what may be written).
//!
//! `SizedExpr` is an expression with a width and a sign at each part, over the names of a source text; contracts see it as the plain tree of `v_names`, by
//! `sized_of` of `specs/SizedViews`. `set_size` gives one the size that it has in its context: the parts that take their size from the whole get theirs, and those
//! that are sized alone keep theirs (`with_size` of `specs/Resized`). `Faults` keeps of what is wrong with expressions that are sized together as much as decides
//! the first fault: a width is bad only where no name among them is of the wrong kind. `together` joins two of them, `apart` takes those of a part that is sized
//! apart, `first_fault` answers the first of them.
#![tactic(auto)]

mod expression;
mod faults;
mod resize;

pub use expression::SizedExpr;
pub use faults::{
    Faults, apart, bad_width, first_fault, first_of_group, no_faults, together, wrong_kind,
};
pub use resize::set_size;
