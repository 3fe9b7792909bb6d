// The bits of a signal that a select drives.

ghost use Rattle.std.specs.Prelude.{◌≡◌, ◌+◌, ◌<◌, ◌^◌};

/// Where the bits of a select with constant indexes stand in its signal: from the select's least significant bit some that are outside the range, then
/// a run of the signal's bits upwards, then some that are outside again. A bit outside drives nothing.
///
/// A port may be declared wider than a vector may be: it is refused where its module's items are looked at, which is after it was connected.
#[derive(Clone, Copy, PartialEq, Eq, Debug)]
pub struct DrivenBits {
    pub outside_below: u64,
    /// The least bit of the run, counted from the signal's least significant as 0.
    pub low: u64,
    pub width: u64,
    pub outside_above: u64,
    pub ghost within: { outside_below + (low + (width + outside_above)) < 2 ^ 34 },
}
