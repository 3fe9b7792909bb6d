//! Runs whole texts through the top call and compares what it answers with what is wanted.
//!
//! `families` names the files of cases, one name a line. Each line of such a file is a case: a JSON object with the words, the files that a shelf in memory
//! holds, and the output, the message and the number that an independent model gives for them. Each case is run by `top_call::vfault`, and each that differs
//! is printed. The program says nothing of the designs' meaning (IEEE 1364-2001): that is said by the contract of the call and by the wanted texts.
#![tactic(auto)]

mod answer;
mod case;
mod compare;
mod family;
mod latin;
mod tally;

use family::run_families;
use std::process::ExitCode;
use std::rt::Files;
use std::thread::Threads;
use std::{fs, io};

/// Runs the families of the list and prints the counts; whether all cases passed.
fn run<R: Threads + Sync + Files + Print + AllocGlobal>(rt: &R) -> io::Result<bool> {
    let families = fs::read_to_string(rt, "families")?;
    let tally = run_families(rt, rt.alloc(), families.as_str())?;
    let passed = tally.passed;
    let failed = tally.failed;
    println!(rt; "{passed} passed, {failed} failed")?;
    Ok(failed == 0)
}

fn main(rt: HostRuntime) -> io::Result<ExitCode> {
    let passed = run(&rt)?;
    Ok(ExitCode::from(if passed { 0 } else { 1 }))
}
