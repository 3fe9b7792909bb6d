// A net that is cut into the largest runs of bits with one driver.

ghost use Rattle.std.specs.Prelude.{◌≡◌, ◌+◌, ◌-◌, ◌≤◌, ◌<◌, All, map, replicate, length, drop, IfOk, IfErr, IfSome};
ghost use Rattle.v_design.specs.Expressions.{up_from};
ghost use Rattle.v_ports.specs.Pieces.{run_of_drive, same_driver, cut_pieces};
ghost use Rattle.v_ports.specs.Cuts.{drive_of, piece_of, first_owned, owned_after, first_run, cut_from, OwnersGive, PiecesGive};

use crate::fault::PortFault;
use std::alloc::Global;
use vf_base::Place;

/// A driver of a run of a net's bits: the least of them, counted from the least significant as 0, and how many they are. The place is that of
/// what drives them.
#[derive(Clone, Copy, Debug)]
pub struct Drive {
    pub low: u8,
    pub width: u8,
    pub place: Place,
}

/// A run of a net's bits with one driver, by its number in the list of drivers, or with none.
#[derive(Clone, Copy, Debug, PartialEq, Eq)]
pub struct Piece {
    pub low: u8,
    pub width: u8,
    pub driver: Option<u32>,
}

/// No bit has a driver.
fn undriven(alloc: Global, width: u8) -> Result<Vec<Option<u32>>, PortFault>
    ensures ok { IfOk result (λ owners. owners.items ≡ replicate width None) }
    ensures err { IfErr result (λ fault. fault ≡ PortFault.NoMemory) }
{
    let mut owners = Vec::new(alloc);
    owners.resize(width as usize, None)?;
    Ok(owners)
}

/// The least bit of a run that has a driver already.
fn least_taken(owners: &[Option<u32>], low: usize, end: usize) -> Option<usize>
    requires low_first { low ≤ end }
    requires within { end ≤ length owners.now }
    ensures first { result ≡ first_owned owners.now (up_from low (end - low)) }
    ensures below { IfSome result (λ bit. bit < end) }
{
    'bits: for bit in low..end {
        if owners[bit].is_some() {
            return Some(bit);
        }
    }
    None
}

/// Gives the bits of a run their driver.
fn take_bits(owners: &mut Vec<Option<u32>>, low: usize, end: usize, number: u32)
    requires low_first { low ≤ end }
    requires within { end ≤ length owners.old.items }
    ensures { owners.new.items ≡ owned_after number owners.old.items (up_from low (end - low)) }
{
    'bits: for bit in low..end {
        owners[bit] = Some(number);
    }
}

/// The number of a driver; more drivers than these numbers reach aren't in any memory.
fn number_of(place: usize) -> Result<u32, PortFault>
    ensures ok { IfOk result (λ number. number ≡ place) }
    ensures err { IfErr result (λ fault. fault ≡ PortFault.NoMemory) }
{
    match u32::try_from(place) {
        Ok(number) => Ok(number),
        Err(_) => Err(PortFault::NoMemory),
    }
}

/// The driver of each bit, where no bit has two.
fn owners_of(alloc: Global, width: u8, drives: &[Drive]) -> Result<Vec<Option<u32>>, PortFault>
    requires { All (λ drive. drive.low + drive.width ≤ width) drives.now }
    ensures { OwnersGive width (map run_of_drive (map drive_of drives.now)) result }
{
    let mut owners = undriven(alloc, width)?;
    'drives: for (place, drive) in drives.iter().enumerate() {
        let low = drive.low as usize;
        let end = low + drive.width as usize;
        if let Some(bit) = least_taken(&owners, low, end) {
            return Err(PortFault::TwoDrivers(drive.place, bit as u32));
        }
        let number = number_of(place)?;
        take_bits(&mut owners, low, end, number);
    }
    Ok(owners)
}

/// Whether two bits have one driver, or both have none.
fn have_one_driver(one: Option<u32>, other: Option<u32>) -> bool
    ensures { result ≡ same_driver one other }
{
    match (one, other) {
        (None, None) => true,
        (Some(number), Some(another)) => number == another,
        _ => false,
    }
}

/// The end of the run that begins at a bit.
fn run_end(owners: &[Option<u32>], low: usize) -> usize
    requires { low < length owners.now }
    ensures same { result ≡ low + first_run (drop low owners.now) }
    ensures within { result ≤ length owners.now }
    ensures further { low < result }
{
    'bits: for bit in low + 1..owners.len() {
        if !have_one_driver(owners[low], owners[bit]) {
            return bit;
        }
    }
    owners.len()
}

/// The runs of bits with one driver.
fn runs_of(alloc: Global, owners: &[Option<u32>]) -> Result<Vec<Piece>, PortFault>
    requires { length owners.now ≤ 255 }
    ensures ok { IfOk result (λ pieces. map piece_of pieces.items ≡ cut_from 0 owners.now) }
    ensures err { IfErr result (λ fault. fault ≡ PortFault.NoMemory) }
{
    let mut pieces = Vec::new(alloc);
    let mut low = 0;
    'runs: while low < owners.len() {
        let end = run_end(owners, low);
        pieces.push(Piece {
            low: low as u8,
            width: (end - low) as u8,
            driver: owners[low],
        })?;
        low = end;
    }
    Ok(pieces)
}

/// The pieces of a net with some drivers: they cover it in order, from the least significant bit, and each is the largest run of bits with one
/// driver or with none.
///
/// Each bit has one driver at most: else the fault is the place of the first driver that overlaps an earlier one, with the least bit of both.
pub fn pieces(alloc: Global, width: u8, drives: &[Drive]) -> Result<Vec<Piece>, PortFault>
    requires { All (λ drive. drive.low + drive.width ≤ width) drives.now }
    ensures { PiecesGive (cut_pieces width (map drive_of drives.now)) result }
{
    let owners = owners_of(alloc, width, drives)?;
    runs_of(alloc, &owners)
}
