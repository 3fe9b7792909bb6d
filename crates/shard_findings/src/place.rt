// What all workers stand on.

use fault_shards::Shards;
use good_trace::Setup;
use v_design::World;
use verdict_words::Board;

/// What all workers stand on: the setup of the world `N`, the shards of its faults, the board on which these are claimed, and the gate that is called before a shard
/// is begun.
#[derive_where(Clone, Copy)]
pub struct Place<'p, 'd, N: World, G> {
    pub setup: &'p Setup<'d, N>,
    pub shards: &'p Shards,
    pub board: &'p Board<N>,
    pub gate: &'p G,
}
