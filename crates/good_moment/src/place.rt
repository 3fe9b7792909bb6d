// Where in a window a moment comes.

/// Where in a window of the good first run: how many slots of the run stand before the window and before its end; the slot and the phase, numbered in the window from 0;
/// the moment of the next event; and how many runs of the slot have ended.
#[derive(Clone, Copy, Debug)]
pub struct MomentPlace {
    pub before: u64,
    pub through: u64,
    pub slot: u32,
    pub phase: u32,
    pub moment: u32,
    pub runs: usize,
}
