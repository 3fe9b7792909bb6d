// Putting the whole text.

ghost use Rattle.std.specs.Prelude.{◌≡◌, ◌+◌, ◌≤◌, length, drop};
ghost use Rattle.top_call.specs.Outside.{PutGives, PutsInFew};

use vf_base::{Sink, SinkFault};
use vf_status::Status;

/// What of the bytes stands after so many.
fn rest_after(bytes: &[u8], count: u64) -> &[u8]
    requires { count ≤ length bytes.now }
    ensures { result.now ≡ drop count bytes.now }
{
    &bytes[count as usize..]
}

/// Puts the whole text, by at most as many calls as it has bytes.
pub fn put_all<K: Sink>(sink: &mut K, text: &[u8]) -> Status
    ensures gives { PutGives (K.contents sink.old) text.now (K.contents sink.new) (K.faults sink.old) (K.faults sink.new) result }
    ensures few { PutsInFew (K.contents sink.old) text.now (K.contents sink.new) (K.puts sink.old) (K.puts sink.new) }
{
    let mut rest = text;
    'pieces: while !rest.is_empty() {
        match sink.put(rest) {
            Ok(count) => rest = rest_after(rest, count),
            Err(SinkFault::Failed) => return Status::WriteFault,
            Err(SinkFault::NoMemory) => return Status::NoMemory,
        }
    }
    Status::Done
}
