// A size.

/// A width in bits, 1 to 128, and whether what has it is signed.
#[derive(Clone, Copy, Debug, PartialEq, Eq)]
pub struct Size {
    pub width: u8,
    pub signed: bool,
}
