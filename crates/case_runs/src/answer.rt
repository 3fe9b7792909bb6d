// A run of the top call over files in memory.

ghost use Rattle.std.specs.Prelude.{◌≡◌};

use crate::case::Answer;
use std::alloc::{AllocError, Global};
use std::marker::Brand;
use std::sync::ledger::{Blank, Ledger};
use std::thread::Threads;
use top_call::{COUNTERS, Status, code, counters, line, vfault};
use vf_base::{MemShelf, MemSink, OpenGate};

/// The status and the output of a run over a shelf of these files.
fn answered<L: Ledger + Send + Sync, R: Threads + Sync>(
    rt: &R,
    alloc: Global,
    blank: Blank,
    words: &[String],
    files: Vec<(String, Vec<u8>)>,
) -> Result<(Status, Vec<u8>), AllocError>
    requires name { blank.name ≡ L.name }
    requires parts { blank.parts ≡ L.parts }
    requires counters { blank.parts ≡ COUNTERS }
{
    let (_book, share) = blank.open::<L>();
    let Ok(mut steps) = counters(alloc, share) else {
        return Ok((Status::NoMemory, Vec::new(alloc)));
    };
    let mut shelf = MemShelf::new(files, Vec::new(alloc));
    let mut sink = MemSink::new(alloc, None);
    let status = vfault(
        rt, alloc, words, &mut shelf, &mut sink, &OpenGate, &mut steps,
    );
    Ok((status, Vec::from_slice(alloc, sink.held())?))
}

/// The line of a status with its line feed; nothing where all went well.
fn message_of(alloc: Global, status: &Status) -> Result<Vec<u8>, AllocError> {
    let mut message = Vec::new(alloc);
    if *status == Status::Done {
        return Ok(message);
    }
    if let Ok(text) = line(alloc, status) {
        message.extend_from_slice(text.as_bytes())?;
        message.extend_from_slice(b"\n")?;
    }
    Ok(message)
}

/// What the call answers to the words over a shelf of these files.
pub fn answer_of<R: Threads + Sync>(
    rt: &R,
    alloc: Global,
    words: &[String],
    files: Vec<(String, Vec<u8>)>,
) -> Result<Answer, AllocError> {
    let blank = Blank::new(COUNTERS);
    let (status, output) = answered::<Brand, R>(rt, alloc, blank, words, files)?;
    Ok(Answer {
        output,
        message: message_of(alloc, &status)?,
        status: code(&status),
    })
}
