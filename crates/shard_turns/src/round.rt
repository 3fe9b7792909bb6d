// What all workers look at in a round.

use crate::backups::Backups;
use fault_shards::Shards;
use good_trace::Setup;
use run_trace::RunWindow;
use v_design::World;
use verdict_words::Board;

/// What all workers look at in a round: the setup of the world `N`, the shards of its faults, the board on which these are claimed, the gate that is called before each turn of
/// a shard, the window through which the workers go, and the copies that stand in slots.
#[derive_where(Clone, Copy)]
pub struct Round<'r, 'd, N: World, G> {
    pub setup: &'r Setup<'d, N>,
    pub shards: &'r Shards,
    pub board: &'r Board<N>,
    pub gate: &'r G,
    pub window: &'r RunWindow<N>,
    pub backups: &'r Backups<N>,
}
