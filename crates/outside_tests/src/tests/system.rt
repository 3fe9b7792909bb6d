// The files of the system, standard output, and what is in memory beside them.

use std::fs;
use std::test::Fail;
use vf_base::{
    FolderShelf, Gate, HeldGate, MemShelf, MemSink, OpenGate, OutSink, Shelf, ShelfFault, Sink,
    SinkFault, Text,
};

#[test]
fn the_system_is_reached(rt: HostRuntime) -> Result<(), Fail> {
    let mut shelf = FolderShelf::new(&rt);
    let missing = shelf.read_whole(rt.alloc(), "there/is/no/such/file", 10);
    assert_eq!(rt; missing.err(), Some(ShelfFault::Failed));
    fs::write(&rt, "a_file_of_the_test", "abc")?;
    let Ok(found) = shelf.read_whole(rt.alloc(), "a_file_of_the_test", 3) else {
        panic!(rt; "a file of the allowed length wasn't read");
    };
    assert_eq!(rt; found.as_slice(), b"abc".as_slice());
    let long = shelf.read_whole(rt.alloc(), "a_file_of_the_test", 2);
    assert_eq!(rt; long.err(), Some(ShelfFault::TooLong));
    fs::remove_file(&rt, "a_file_of_the_test")?;
    let mut sink = OutSink::new(&rt);
    assert_eq!(rt; sink.put(b"\n"), Ok(1));
    Ok(())
}

#[test]
fn shelves_and_sinks_in_memory(rt: HostRuntime) -> Result<(), Fail> {
    let alloc = rt.alloc();
    let mut files = Vec::new(alloc);
    files.push((
        String::from_str(alloc, "d")?,
        Vec::from_slice(alloc, b"abc")?,
    ))?;
    let mut failing = Vec::new(alloc);
    failing.push(2)?;
    let mut shelf = MemShelf::new(files, failing);
    assert!(rt; shelf.read_whole(alloc, "d", 3).is_ok());
    for (name, most, fault) in [
        ("d", 3, ShelfFault::Failed),
        ("d", 2, ShelfFault::TooLong),
        ("e", 3, ShelfFault::Missing),
    ] {
        let answer = shelf.read_whole(alloc, name, most);
        assert_eq!(rt; answer.err(), Some(fault));
    }
    let mut sink = MemSink::new(alloc, Some(4));
    assert_eq!(rt; sink.put(b"abc"), Ok(3));
    assert_eq!(rt; sink.put(b"def"), Ok(1));
    assert_eq!(rt; sink.put(b"ef"), Err(SinkFault::Failed));
    assert_eq!(rt; sink.held(), b"abcd".as_slice());
    Ok(())
}

#[test]
fn a_gate_meets_only_a_shard_that_came(rt: HostRuntime) -> Result<(), Fail> {
    for (second_first, most, met) in [(true, 5, true), (true, 0, false), (false, 5, false)] {
        let gate = HeldGate::new(0, 1, most);
        if second_first {
            gate.turn(1, 1);
        }
        gate.turn(0, 0);
        gate.turn(1, 1);
        gate.turn(0, 0);
        assert_eq!(rt; gate.met(), met);
    }
    OpenGate.turn(0, 0);
    let text = Text::from_bytes(rt.alloc(), b"clk")?;
    assert_eq!(rt; text.as_bytes(), b"clk".as_slice());
    Ok(())
}
