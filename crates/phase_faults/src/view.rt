// A window with its blocks.

use good_trace::TraceWindow;
use slot_laws::WindowWakes;
use v_design::World;
use window_blocks::WindowBlocks;

/// A window of the good machine's trace, with its blocks, and with the waits that its events end.
#[derive_where(Clone, Copy)]
pub struct LockstepWindow<'w, N: World> {
    pub window: &'w TraceWindow<N>,
    pub blocks: &'w WindowBlocks<N>,
    pub wakes: &'w WindowWakes<N>,
}
