//! Has the shards of whole designs' faults take their turns with whatever a worker may find in their slots, and prints of how many turns the answer was the same shard
//! (slots by IEEE 1364-2001, clause 5).
//!
//! `names` has a name a line. Of each name NAME the design is read from NAME.v, from its module `top`, and the plan from NAME.plan. Its faults go in shards of 32 through each
//! window of the good first run. Each turn is taken three times: with a copy of the shard in its slot that has gone through the window, with one that hasn't, and with none.
//! One line tells how many shards there are and how many windows they went through, one for each kind of turn how often the answer was the shard that went through the window by
//! itself, and one on how many faults there is a finding at the end. That a turn with a copy behind the window takes no step is the contract of `turn_with_done`.
#![tactic(auto)]

mod alike;
mod case;
mod run;
mod turns;

use case::case_text;
use std::alloc::Global;
use std::process::ExitCode;
use std::rt::Files;
use std::{fs, io};

/// What is printed of a name.
fn print_case<R: Files + Print + AllocGlobal>(rt: &R, alloc: Global, name: &str) -> io::Result<()> {
    let design_path = format!(in alloc; "{name}.v")?;
    let plan_path = format!(in alloc; "{name}.plan")?;
    let design = fs::read_to_string(rt, design_path.as_str())?;
    let plan = fs::read_to_string(rt, plan_path.as_str())?;
    println!(rt; "--- {name}")?;
    match case_text(alloc, design.as_bytes(), plan.as_bytes()) {
        Ok(text) => print!(rt; "{text}"),
        Err(fault) => println!(rt; "{fault}"),
    }
}

/// Prints the turns of the names that stand on the lines of a list.
fn print_cases<R: Files + Print + AllocGlobal>(rt: &R, alloc: Global) -> io::Result<()> {
    let names = fs::read_to_string(rt, "names")?;
    for name in names.lines() {
        print_case(rt, alloc, name)?;
    }
    Ok(())
}

fn main(rt: HostRuntime) -> io::Result<ExitCode> {
    print_cases(&rt, rt.alloc())?;
    Ok(ExitCode::from(0))
}
