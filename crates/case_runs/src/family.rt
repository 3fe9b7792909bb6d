// The cases of a family, run and counted.

use crate::answer::answer_of;
use crate::case::{Case, LineFault, read_case};
use crate::compare::print_difference;
use crate::tally::Tally;
use std::alloc::Global;
use std::rt::Files;
use std::thread::Threads;
use std::{fs, io};

/// Runs a case, and prints it where it differs; whether it passed.
fn passes<R: Threads + Sync + Print>(rt: &R, alloc: Global, case: Case) -> io::Result<bool> {
    let Case {
        name,
        words,
        files,
        wanted,
    } = case;
    let got = answer_of(rt, alloc, &words, files)?;
    let passed = got == wanted;
    if !passed {
        print_difference(rt, alloc, name.as_str(), &words, &wanted, &got)?;
    }
    Ok(passed)
}

/// Says why a line of a family is no case.
fn print_fault(rt: &impl Print, family: &str, number: u64, fault: &LineFault) -> io::Result<()> {
    println!(rt; "{family}, line {number}: {fault}")
}

/// Runs the cases of these lines.
fn run_lines<R: Threads + Sync + Print>(
    rt: &R,
    alloc: Global,
    family: &str,
    text: &str,
) -> io::Result<Tally> {
    let mut tally = Tally::default();
    let mut number = 0u64;
    for line in text.lines() {
        number = number.saturating_add(1);
        let passed = match read_case(alloc, line) {
            Ok(case) => passes(rt, alloc, case)?,
            Err(fault) => {
                print_fault(rt, family, number, &fault)?;
                false
            }
        };
        tally.note(passed);
    }
    Ok(tally)
}

/// Runs the cases of a family and prints their counts; a family that can't be read fails.
fn run_family<R: Threads + Sync + Files + Print + AllocGlobal>(
    rt: &R,
    alloc: Global,
    family: &str,
) -> io::Result<Tally> {
    let path = format!(in alloc; "{family}.jsonl")?;
    let text = fs::read_to_string(rt, path.as_str())?;
    let tally = run_lines(rt, alloc, family, text.as_str())?;
    let passed = tally.passed;
    let failed = tally.failed;
    println!(rt; "{family}: {passed} passed, {failed} failed")?;
    Ok(tally)
}

/// Runs the families whose names stand on the lines of a list, and counts all their cases.
pub fn run_families<R: Threads + Sync + Files + Print + AllocGlobal>(
    rt: &R,
    alloc: Global,
    list: &str,
) -> io::Result<Tally> {
    let mut all = Tally::default();
    for family in list.lines() {
        let tally = run_family(rt, alloc, family)?;
        all.add(tally);
    }
    Ok(all)
}
