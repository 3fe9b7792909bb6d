//! Grades a test: which stuck-at faults of a design it finds, and at which strobe; and writes and audits certificates of the lines of its reports.
//!
//! `vfault`, of the library `top_call`, is the whole program but for the outside, and its contract is the main one (orders of events by IEEE 1364-2001,
//! clause 5). `main` makes the outside, calls it, prints the line of the status on standard error, and ends with its number.
#![tactic(auto)]

ghost use Rattle.std.specs.Prelude.{◌≡◌, ◌⊎◌, IfSome, None};
ghost use Rattle.vf_words.specs.Words.{form_of, bytes_of};
ghost use Rattle.top_call.specs.Outside.{CanEnd};

use std::alloc::Global;
use std::env;
use std::io::ErrorKind;
use std::marker::Brand;
use std::process::ExitCode;
use std::rt::{Env, Files};
use std::sync::ledger::{Blank, Ledger};
use std::thread::Threads;
use top_call::{COUNTERS, Status, code, counters, line, vfault};
use vf_base::{FolderShelf, NoMemory, OpenGate, OutSink};

/// A run of the program over the files of the system and standard output.
fn run<L: Ledger + Send + Sync, R: Threads + Sync + Files + Print>(
    rt: &R,
    alloc: Global,
    words: &[String],
    blank: Blank,
) -> Status
    requires name { blank.name ≡ L.name }
    requires parts { blank.parts ≡ L.parts }
    requires counters { blank.parts ≡ COUNTERS }

    // The words are of no form.
    ensures usage { result ≡ Status.Usage → form_of (bytes_of words.now) ≡ None }

    // Where they are of none nothing else is answered, unless memory is wanting.
    ensures of_no_form { form_of (bytes_of words.now) ≡ None → (result ≡ Status.Usage) ⊎ (result ≡ Status.NoMemory) }

    // The status is one with which the form can end.
    ensures of_the_form { IfSome (form_of (bytes_of words.now)) (λ form. CanEnd form result) }
{
    let (_book, share) = blank.open::<L>();
    let Ok(mut steps) = counters(alloc, share) else {
        return Status::NoMemory;
    };
    let mut shelf = FolderShelf::new(rt);
    let mut sink = OutSink::new(rt);
    vfault(
        rt, alloc, words, &mut shelf, &mut sink, &OpenGate, &mut steps,
    )
}

/// The words after the program's name; none where one of them isn't UTF-8, and so no form.
fn given_words(rt: &(impl Env + AllocGlobal), alloc: Global) -> Result<Vec<String>, NoMemory> {
    let mut words = Vec::new(alloc);
    let args = match env::args(rt) {
        Ok(args) => args,
        Err(error) => {
            return match error.kind() {
                ErrorKind::OutOfMemory => Err(NoMemory),
                _ => Ok(words),
            };
        }
    };
    for word in args.skip(1) {
        words.push(word)?;
    }
    Ok(words)
}

/// Ends with the number of the status, and prints its line where it isn't done.
fn main(rt: HostRuntime) -> ExitCode {
    let alloc = rt.alloc();
    let status = match given_words(&rt, alloc) {
        Ok(words) => run::<Brand, HostRuntime>(&rt, alloc, &words, Blank::new(COUNTERS)),
        Err(_) => Status::NoMemory,
    };
    if status != Status::Done {
        if let Ok(text) = line(alloc, &status) {
            let _ = rt.stderr().write_all(text.as_bytes());
            let _ = rt.stderr().write_all(b"\n");
        }
    }
    ExitCode::from(code(&status))
}
