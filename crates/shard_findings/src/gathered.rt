// What workers have behind the last round.

use shard_claims::ClaimedShard;
use v_design::World;
use verdict_words::Seat;
use vf_base::Finding;

/// What workers have behind the last round: a seat, the findings on the faults of the shards that it claimed, in any order, and these shards.
#[derive(Drop)]
pub struct Gathered<N: World> {
    pub seat: Seat<N>,
    pub findings: Vec<Finding>,
    pub shards: Vec<ClaimedShard<N>>,
}
