//! Tests of what no whole text in memory shows: a shelf whose reads fail, sinks of each size, two workers at once, files of the system and standard output,
//! texts that are too large for data, threads at the shared words, and calls that no run of the program makes. Whole texts are data of `case_runs`.
//! This crate has tests alone, since a crate with tests is proved twice.
#![tactic(auto)]

#[cfg(test)]
mod tests;
