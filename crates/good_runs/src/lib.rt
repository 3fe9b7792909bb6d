//! Process steps beside those of the good machine (steps by IEEE 1364-2001, clause 9; phases by clause 5).
//!
//! A faulty machine follows the good machine's runs of a phase as far as its own go as they do. `TriedStep` is a step of a run that doesn't: one that the faulty machine took itself. What such steps are, of some events from a
//! state on, says `Keeps` in specs/Kept: each is told by its run's number, by its place there, by its line and by what it did, and all steps of its run count as own, however the run goes on.
#![tactic(auto)]

mod tried;

pub use tried::TriedStep;
