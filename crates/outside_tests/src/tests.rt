// The top call over shelves and sinks in memory, and calls that it doesn't make.

ghost use Rattle.std.specs.Prelude.{◌≡◌};

use std::alloc::{AllocError, Global};
use std::marker::Brand;
use std::process::Abort;
use std::sync::ledger::{Blank, Ledger};
use std::test::Fail;
use std::thread::Threads;
use top_call::{COUNTERS, Status, code, counters, line, vfault};
use vf_base::{Gate, MemShelf, MemSink};

mod backups;
mod boards;
mod limits;
mod outside;
mod parts;
mod system;
mod workers;

/// A run: the words, the files `d`, `p` and `c`, the number and the line of the status and the output.
#[derive(Drop)]
struct Run<'r> {
    words: &'r str,
    design: &'r [u8],
    plan: &'r [u8],
    cert: &'r [u8],
    number: u8,
    line: &'r [u8],
    output: &'r [u8],
}

/// A shelf with the run's files, which fails at this call.
fn shelf(alloc: Global, run: &Run<'_>, failing: u64) -> Result<MemShelf, AllocError> {
    let mut files = Vec::new(alloc);
    files.push((
        String::from_str(alloc, "d")?,
        Vec::from_slice(alloc, run.design)?,
    ))?;
    files.push((
        String::from_str(alloc, "p")?,
        Vec::from_slice(alloc, run.plan)?,
    ))?;
    files.push((
        String::from_str(alloc, "c")?,
        Vec::from_slice(alloc, run.cert)?,
    ))?;
    let mut list = Vec::new(alloc);
    list.push(failing)?;
    Ok(MemShelf::new(files, list))
}

/// The words, parted by single blanks.
fn words_of(alloc: Global, text: &str) -> Result<Vec<String>, AllocError> {
    let mut words = Vec::new(alloc);
    for word in text.split(' ') {
        words.push(String::from_str(alloc, word)?)?;
    }
    Ok(words)
}

/// The status and the output of a run whose shelf fails at this call, whose sink takes so many bytes and whose workers call this gate.
fn answered<L: Ledger + Send + Sync, R: Threads + Sync, G: Gate + Sync>(
    rt: &R,
    alloc: Global,
    blank: Blank,
    run: &Run<'_>,
    failing: u64,
    most: Option<u64>,
    gate: &G,
) -> Result<(Status, Vec<u8>), AllocError>
    requires name { blank.name ≡ L.name }
    requires parts { blank.parts ≡ L.parts }
    requires counters { blank.parts ≡ COUNTERS }
{
    let (_book, share) = blank.open::<L>();
    let Ok(mut steps) = counters(alloc, share) else {
        return Ok((Status::NoMemory, Vec::new(alloc)));
    };
    let words = words_of(alloc, run.words)?;
    let mut shelf = shelf(alloc, run, failing)?;
    let mut sink = MemSink::new(alloc, most);
    let status = vfault(rt, alloc, &words, &mut shelf, &mut sink, gate, &mut steps);
    Ok((status, Vec::from_slice(alloc, sink.held())?))
}

/// The line of a status.
fn line_of(alloc: Global, status: &Status) -> Result<Vec<u8>, AllocError> {
    match line(alloc, status) {
        Ok(text) => Vec::from_slice(alloc, text.as_bytes()),
        Err(_) => Ok(Vec::new(alloc)),
    }
}

/// Such a run ends with its number, its line and its output.
fn is_answered<R: Threads + Sync + Abort, G: Gate + Sync>(
    rt: &R,
    alloc: Global,
    run: &Run<'_>,
    failing: u64,
    most: Option<u64>,
    gate: &G,
) -> Result<(), Fail> {
    let blank = Blank::new(COUNTERS);
    let (status, held) = answered::<Brand, R, G>(rt, alloc, blank, run, failing, most, gate)?;
    let told = line_of(alloc, &status)?;
    assert_eq!(rt; code(&status), run.number);
    assert_eq!(rt; told.as_slice(), run.line);
    assert_eq!(rt; held.as_slice(), run.output);
    Ok(())
}
