// The next block.

ghost use Rattle.std.specs.Prelude.{◌≡◌, ◌+◌, ◌<◌, ◌≤◌, true, get_or, length, min};
ghost use Rattle.vf_base.specs.Lists.{has};
ghost use Rattle.between_slots.specs.Between.{window_phases};
ghost use Rattle.passed_blocks.specs.shown_blocks.Ahead.{IsAhead};

use causal_monitor::Actor;
use v_design::World;
use window_blocks::WindowBlocks;

/// The moment at which a block ends, and who acts in its first event.
#[derive(Clone, Copy, Debug)]
pub struct BlockAhead {
    pub end: u32,
    pub actor: Actor,
}

/// Where the block of a place ends, in a phase that ends at a moment: where the next one begins, or the phase ends.
fn block_end(moments: &[u32], block: usize, phase_end: u32) -> u32
    requires { block < length moments.now }
    ensures inside { block + 1 < length moments.now → result ≡ min (get_or moments.now (block + 1) 0) phase_end }
    ensures past { length moments.now ≤ block + 1 → result ≡ phase_end }
{
    if moments.len() > block + 1 {
        return moments[block + 1].min(phase_end);
    }
    phase_end
}

/// The block that begins with the event of a moment, in the phase of a number, counted from 0.
pub(crate) fn block_ahead<N: World>(blocks: &WindowBlocks<N>, phase: u32, moment: u32) -> BlockAhead
    requires begins { has blocks.now.moments moment ≡ true }
    requires phase { phase < length blocks.now.ends }
    requires within { moment < get_or blocks.now.ends phase 0 }
    ensures { IsAhead (window_phases N.design N.plan blocks.now.before blocks.now.through) blocks.now.moments (get_or blocks.now.ends phase 0) moment result.end result.actor }
{
    blocks.stands();
    let number = blocks.block_at(moment).unwrap();
    let ends = blocks.phase_ends();
    let phase_end = ends[phase as usize];
    let moments = blocks.moments();
    let actors = blocks.actors();
    let actor = actors[number];
    let end = block_end(moments, number, phase_end);
    BlockAhead { end, actor }
}
