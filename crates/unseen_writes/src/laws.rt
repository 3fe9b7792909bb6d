// What events don't see.

ghost use Rattle.unseen_writes.specs.Unseen.{WritesAreUnseen};

/// States that differ in nothing but what processes have yet to write take the same events, as long as the lanes that step are the same; so they take the same blocks, and the same is told of these.
///
/// It does nothing when it runs.
pub fn writes_are_unseen()
    ensures { WritesAreUnseen }
{
    block_changes::events_are_told();
}
