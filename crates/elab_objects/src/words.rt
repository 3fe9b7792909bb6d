// The objects of variables and memories.

ghost use Rattle.std.specs.Prelude.{◌≡◌, ◌++◌, IfOk, OnOk};
ghost use Rattle.four_value.specs.Values.{IsWidth};
ghost use Rattle.v_elab.specs.Objects as plain;
ghost use Rattle.elab_parts.specs.PartViews.{signal_of, memory_of};
ghost use Rattle.elab_objects.specs.ObjectViews.{held_of, held_objects};

use crate::object::HeldObject;
use elab_parts::{Signal, WalkedMemory};
use four_value::{Bit, Vec4};
use std::alloc::Global;
use v_design::{Object, ObjectKind};
use vf_base::{NoMemory, Text};

/// The first content of a variable of a width, unknown where none is declared.
fn first_content(signal: &Signal, width: u8) -> Vec4
    requires { IsWidth width }
    ensures { result ≡ plain.or_unknown width signal.now.first }
{
    match signal.first {
        Some(value) => value,
        None => Vec4::filled(Bit::X, width),
    }
}

/// The object of a variable, with the first content of the variable that drives it.
pub fn variable_object(
    alloc: Global,
    signal: &Signal,
    driving: &Signal,
) -> Result<HeldObject, NoMemory>
    ensures { IfOk result (λ held. held_of held ≡ plain.variable_object (signal_of signal.now) (signal_of driving.now)) }
{
    let width = signal.range.width();
    let object = Object {
        name: Text::from_bytes(alloc, signal.name.as_bytes())?,
        kind: ObjectKind::Var,
        width,
        ranged: signal.range.ranged,
        high: signal.range.high,
        low: signal.range.low,
        address: 0,
        first: first_content(driving, width),
        place: signal.place,
    };
    Ok(HeldObject {
        object,
        driver: None,
    })
}

/// The word of a memory at an address.
fn word_object(alloc: Global, memory: &WalkedMemory, address: u32) -> Result<HeldObject, NoMemory>
    ensures { IfOk result (λ held. held_of held ≡ plain.word_object (memory_of memory.now) address) }
{
    let width = memory.range.width();
    let object = Object {
        name: Text::from_bytes(alloc, memory.name.as_bytes())?,
        kind: ObjectKind::Word,
        width,
        ranged: memory.range.ranged,
        high: memory.range.high,
        low: memory.range.low,
        address,
        first: Vec4::filled(Bit::X, width),
        place: memory.place,
    };
    Ok(HeldObject {
        object,
        driver: None,
    })
}

/// Adds the words of a memory, by address.
pub fn push_words(
    alloc: Global,
    memory: &WalkedMemory,
    objects: &mut Vec<HeldObject>,
) -> Result<(), NoMemory>
    ensures { OnOk result (held_objects objects.new.items ≡ held_objects objects.old.items ++ plain.word_objects (memory_of memory.now)) }
{
    let first = memory.first.min(memory.last) as u64;
    let last = memory.first.max(memory.last) as u64;
    'words: for address in first..last + 1 {
        let word = word_object(alloc, memory, address as u32)?;
        objects.push(word)?;
    }
    Ok(())
}
