//! Fault dictionaries: what the strobes see of each listed fault's machine where no hard detection ends it, and the strobes that detect it.
//!
//! `make_dictionary` runs the good machine once, window by window, and beside it the first listed fault of each class, in lockstep with it where that goes (`dict_windows`), to its
//! race or loop, to the good machine's race, or to the plan's end. Its main contract: the dictionary has the good samples and what is kept of each listed fault's full grade, in list
//! order; or it answers the good machine's loop, exactly where the good machine is hyperactive before a race of its own (first runs, slots and races by
//! IEEE 1364-2001, clause 5); and the counter rises by no more than the process steps of the good first run and the own steps of the faults that stand for their classes. `hard_strobes`
//! takes from a dictionary the strobes at which each listed fault is detected, by a walk over its samples that differ beside the good ones.
#![tactic(auto)]

mod faults;
mod hard;
mod make;
mod times;

pub use hard::hard_strobes;
pub use make::make_dictionary;
