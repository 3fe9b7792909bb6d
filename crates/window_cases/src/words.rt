// How names, values, accesses and places of processes are written.

use four_value::{Bit, Vec4};
use process_code::Stage;
use std::fmt::Write;
use v_design::Design;
use vf_base::{Access, AccessKind, NoMemory, Pair, Text};

/// Adds a name.
pub(crate) fn append_name(out: &mut String, name: &Text) -> Result<(), NoMemory> {
    'bytes: for byte in name.as_bytes() {
        out.push(char::from(*byte))?;
    }
    Ok(())
}

/// The digit of a bit.
fn digit(bit: Bit) -> char {
    match bit {
        Bit::Zero => '0',
        Bit::One => '1',
        Bit::X => 'x',
        Bit::Z => 'z',
    }
}

/// Adds a value behind a blank, from its most significant bit on.
pub(crate) fn append_value(out: &mut String, value: Vec4) -> Result<(), NoMemory> {
    out.push(' ')?;
    'bits: for place in (0..u32::from(value.width())).rev() {
        out.push(digit(value.bit(place)))?;
    }
    Ok(())
}

/// Adds where a process stands.
pub(crate) fn append_stage(out: &mut String, stage: Stage) -> Result<(), NoMemory> {
    match stage {
        Stage::Ready => out.push_str("ready")?,
        Stage::Waiting(_) => out.push_str("waiting")?,
        Stage::Asleep(time) => write!(out, "asleep until {time}")?,
        Stage::Postponed => out.push_str("postponed")?,
        Stage::Done => out.push_str("done")?,
    }
    Ok(())
}

/// The word of a kind of access.
fn kind_word(kind: AccessKind) -> &'static str {
    match kind {
        AccessKind::Read => "read",
        AccessKind::Write => "write",
        AccessKind::Await => "await",
        AccessKind::Ended => "ended",
        AccessKind::Held => "held",
        AccessKind::Settle => "settle",
    }
}

/// Adds an access as a report has it.
fn append_access(design: &Design, access: &Access, out: &mut String) -> Result<(), NoMemory> {
    let word = kind_word(access.kind);
    let process = access.process.0;
    let line = access.line;
    write!(out, " {word} ")?;
    if let Some(object) = design.objects.as_slice().get(access.object.0 as usize) {
        append_name(out, &object.name)?;
    }
    write!(out, " p{process} l{line}")?;
    Ok(())
}

/// Adds a race's time, phase and accesses as a report has them.
pub(crate) fn append_pair(design: &Design, pair: &Pair, out: &mut String) -> Result<(), NoMemory> {
    let time = pair.time;
    let phase = pair.phase;
    write!(out, " raced {time}.{phase}")?;
    append_access(design, &pair.first, out)?;
    append_access(design, &pair.second, out)
}
