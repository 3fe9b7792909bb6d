// Rows of strobes.

ghost use Rattle.std.specs.Prelude.{◌≤◌};

/// Strobes from a time in steps up to a time.
#[derive(Clone, Copy, Debug)]
pub struct Row {
    pub from: u64,
    pub step: u64,
    pub to: u64,
    pub ghost steps: { 1 ≤ step },
    pub ghost ordered: { from ≤ to },
}
