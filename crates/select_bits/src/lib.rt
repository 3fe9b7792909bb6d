//! The bits of a signal that a select with constant indexes takes (IEEE 1364-2001, clause 4.2.1).
//!
//! `select_bits` answers where they stand in the signal, from the select's least significant bit: a run of the signal's bits, with those that are
//! outside the declared range below and above it (`places_of_select` of v_width's `specs/Targets`). A net drives by such a select, a port is
//! connected to one, and an event control is on one. That the bits are a run is a premise (`specs/Runs`): a part runs as its declaration does where nothing is wrong with it
//! (`specs/RunLaws`).
#![tactic(auto)]

mod part;
mod select;

pub use select::select_bits;
