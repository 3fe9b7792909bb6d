// The pieces of a net.

ghost use Rattle.std.specs.Prelude.{◌≡◌, ◌+◌, ◌<◌, ◌≤◌, ◌++◌, All, IfOk, OnOk, [], None, map, option_map, option_and_then};
ghost use Rattle.v_design.specs.Sized.{span};
ghost use Rattle.v_ports.specs.Pieces.{second_driver, pieces_of};
ghost use Rattle.v_ports.specs.Cuts.{drive_of, piece_of};
ghost use Rattle.v_elab.specs.Drivers.{run_of};
ghost use Rattle.v_elab.specs.Objects as plain;
ghost use Rattle.elab_parts.specs.PartViews.{range_of, signal_of};
ghost use Rattle.elab_wires.specs.DriveViews.{object_drive_of};
ghost use Rattle.elab_wires.specs.Clipped.{clipped};
ghost use Rattle.elab_objects.specs.ObjectViews.{driver_of, held_of, held_objects, run_drive};

use crate::object::{HeldObject, PieceDriver};
use elab_parts::{DeclaredRange, Signal};
use elab_wires::ObjectDrive;
use four_value::{Bit, Vec4};
use std::alloc::Global;
use v_design::{Object, ObjectKind};
use v_ports::{Drive, Piece, PortFault, pieces};
use vf_base::{NoMemory, Text};

/// The declared index of a bit of a net, which is counted from the least significant.
fn index_at(range: DeclaredRange, bit: u8) -> u32
    requires { bit < span range.high range.low }
    ensures { result ≡ plain.index_at (range_of range) bit }
{
    if range.low <= range.high {
        range.low + bit as u32
    } else {
        range.low - bit as u32
    }
}

/// Where a bit of a net stands in the value of the node whose select drives it.
fn value_place(drive: ObjectDrive, bit: u8) -> Option<u128>
    ensures { result ≡ plain.value_place bit (object_drive_of drive) }
{
    let bits = drive.bits;
    let bit = u64::from(bit);
    if bit < bits.low || bits.low + bits.width <= bit {
        return None;
    }
    let within = u128::from(bits.outside_below + (bit - bits.low));
    Some(drive.offset + within)
}

/// The node that writes a piece.
fn piece_driver(drives: &[ObjectDrive], piece: Piece) -> Option<PieceDriver>
    ensures { option_map driver_of result ≡ plain.piece_driver piece.low (option_and_then (plain.drive_numbered (map object_drive_of drives.now)) piece.driver) }
{
    let Some(number) = piece.driver else {
        return None;
    };
    let number = number as usize;
    if drives.len() <= number {
        return None;
    }
    let drive = drives[number];
    match value_place(drive, piece.low) {
        None => None,
        Some(place) => Some(PieceDriver {
            node: drive.node,
            place,
        }),
    }
}

/// A piece of a net.
fn piece_object(
    alloc: Global,
    signal: &Signal,
    drives: &[ObjectDrive],
    piece: Piece,
) -> Result<HeldObject, NoMemory>
    requires some { 1 ≤ piece.width }
    requires within { piece.low + piece.width ≤ span signal.now.range.high signal.now.range.low }
    ensures { IfOk result (λ held. held_of held ≡ plain.piece_object (signal_of signal.now) (map object_drive_of drives.now) (piece_of piece)) }
{
    let driver = piece_driver(drives, piece);
    let object = Object {
        name: Text::from_bytes(alloc, signal.name.as_bytes())?,
        kind: ObjectKind::Net,
        width: piece.width,
        ranged: signal.range.ranged,
        high: index_at(signal.range, piece.low + piece.width - 1),
        low: index_at(signal.range, piece.low),
        address: 0,
        first: Vec4::filled(Bit::Z, piece.width),
        place: signal.place,
    };
    Ok(HeldObject { object, driver })
}

/// What is left of a drive within a net of a width.
fn clip(drive: ObjectDrive, width: u8) -> Drive
    ensures is { drive_of result ≡ clipped width (run_drive drive) }
    ensures within { result.low + result.width ≤ width }
{
    let most = u64::from(width);
    let low = drive.bits.low.min(most);
    Drive {
        low: low as u8,
        width: drive.bits.width.min(most - low) as u8,
        place: drive.place,
    }
}

/// What is left of some drives within a net of a width.
fn clip_all(alloc: Global, drives: &[ObjectDrive], width: u8) -> Result<Vec<Drive>, NoMemory>
    ensures listed { IfOk result (λ left. map drive_of left.items ≡ map (clipped width) (map run_drive drives.now)) }
    ensures within { IfOk result (λ left. All (λ drive. drive.low + drive.width ≤ width) left.items) }
{
    let mut left = Vec::new(alloc);
    'drives: for drive in drives {
        left.push(clip(*drive, width))?;
    }
    Ok(left)
}

/// The pieces of a net with some drives, of which no two have a bit.
fn cut(alloc: Global, width: u8, drives: &[ObjectDrive]) -> Result<Vec<Piece>, NoMemory>
    requires { second_driver [] (map run_of (map object_drive_of drives.now)) ≡ None }
    ensures { IfOk result (λ cut. map piece_of cut.items ≡ pieces_of width (map run_of (map object_drive_of drives.now))) }
{
    let left = clip_all(alloc, drives, width)?;
    match pieces(alloc, width, &left) {
        Ok(cut) => Ok(cut),
        Err(PortFault::NoMemory) => Err(NoMemory),
        Err(PortFault::TwoDrivers(_, _)) => unreachable!(),
        Err(PortFault::PortMismatch(_)) => unreachable!(),
    }
}

/// Adds the objects of a net with some drives, of which no two have a bit: its pieces from the least significant bit.
pub fn push_net(
    alloc: Global,
    signal: &Signal,
    drives: &[ObjectDrive],
    objects: &mut Vec<HeldObject>,
) -> Result<(), NoMemory>
    requires { second_driver [] (map run_of (map object_drive_of drives.now)) ≡ None }
    ensures { OnOk result (held_objects objects.new.items ≡ held_objects objects.old.items ++ plain.pieces_or_variable (signal_of signal.now) (map object_drive_of drives.now) []) }
{
    let cut = cut(alloc, signal.range.width(), drives)?;
    'pieces: for piece in &cut {
        let object = piece_object(alloc, signal, drives, *piece)?;
        objects.push(object)?;
    }
    Ok(())
}
