//! Takes the good first runs of whole texts window by window, and prints what stands in each window (slots, phases and events by IEEE 1364-2001, clause 5).
//!
//! `names` has a name a line. Of each name NAME the design is read from NAME.v, from its module `top`, and the plan from NAME.plan. Then the good machine's first
//! run is taken window after window. Of each window a line tells which slots it has, how it ends, and how many events and phases; two lines tell how many blocks it
//! has and how many waits its events end, with the sums of their moments; then comes a line for each object, with what it holds at the first moment, the middle one and
//! the last, and how many events touch it; and one for each process, with where it stands before the window, how many runs it has there, and how many updates they wrote
//! and appended. What has to be printed comes from an independent model (`bench/window_cases.py`).
#![tactic(auto)]

mod case;
mod run;
mod window;
mod words;

use case::case_text;
use std::alloc::Global;
use std::process::ExitCode;
use std::rt::Files;
use std::{fs, io};

/// What is printed of a name.
fn print_case<R: Files + Print + AllocGlobal>(rt: &R, alloc: Global, name: &str) -> io::Result<()> {
    let design_path = format!(in alloc; "{name}.v")?;
    let plan_path = format!(in alloc; "{name}.plan")?;
    let design = fs::read_to_string(rt, design_path.as_str())?;
    let plan = fs::read_to_string(rt, plan_path.as_str())?;
    println!(rt; "--- {name}")?;
    match case_text(alloc, design.as_bytes(), plan.as_bytes()) {
        Ok(text) => print!(rt; "{text}"),
        Err(fault) => println!(rt; "{fault}"),
    }
}

/// Prints the windows of the names that stand on the lines of a list.
fn print_cases<R: Files + Print + AllocGlobal>(rt: &R, alloc: Global) -> io::Result<()> {
    let names = fs::read_to_string(rt, "names")?;
    for name in names.lines() {
        print_case(rt, alloc, name)?;
    }
    Ok(())
}

fn main(rt: HostRuntime) -> io::Result<ExitCode> {
    print_cases(&rt, rt.alloc())?;
    Ok(ExitCode::from(0))
}
