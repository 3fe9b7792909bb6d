// What nodes and processes are made over.

use object_names::ObjectNames;

/// The objects of all names of a design, and the width of each object in bits, by its number.
#[derive(Clone, Copy)]
pub struct Basis<'n> {
    pub names: &'n ObjectNames<'n>,
    pub widths: &'n [u8],
}
