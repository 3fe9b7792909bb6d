// What the cut into shards keeps.

ghost use Rattle.fault_shards.specs.Cuts.{ShardsCover, ShardsSuffice};

/// Each number of a list is in one of its shards, and a shard has no others.
#[tactic(auto, using(crate::proofs::Covering::numbers_covered))]
pub fn shards_cover()
    ensures { ShardsCover }
{}

/// So many numbers fill the shards that are counted, and no fewer would do.
#[tactic(auto, using(crate::proofs::Covering::counts_suffice))]
pub fn shards_suffice()
    ensures { ShardsSuffice }
{}
