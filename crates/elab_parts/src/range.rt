// Declared ranges.

ghost use Rattle.std.specs.Prelude.{◌≡◌, ◌≤◌};
ghost use Rattle.v_design.specs.Sized.{span};

/// The declared indexes of the most significant and the least significant bit, 0 where no range is declared. Either may be the greater one; a
/// vector has 128 bits at most.
#[derive(Clone, Copy, PartialEq, Eq, Debug)]
pub struct DeclaredRange {
    pub ranged: bool,
    pub high: u32,
    pub low: u32,
    pub ghost narrow: { span high low ≤ 128 },
}

impl DeclaredRange {
    /// How many bits there are.
    pub fn width(&self) -> u8
        ensures { result ≡ span self.now.high self.now.low }
    {
        (self.high.max(self.low) - self.high.min(self.low) + 1) as u8
    }
}
