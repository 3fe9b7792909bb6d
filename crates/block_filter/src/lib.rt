//! No race in a phase of the faulty machine, by what differs: the phases of the good and the faulty machine are cut into blocks, and only what the faulty machine does by itself is looked at
//! (conflicts and causes by IEEE 1364-2001, clause 5).
//!
//! Most events of a faulty machine's phase are those of the good machine's, and order each other as there. So where the good phase has no race, two accesses that the good machine makes too don't
//! conflict, even where blocks with other events stand between them: `blocks_suffice` is that law. It leaves the accesses of suspect objects, which may be any, and some of met objects, which blocks
//! of the faulty machine's own access only as the good machine does there; the crate `free_objects` tells what it takes that these don't conflict. Where all that such blocks access is suspect, no
//! object need be met. Each function here does nothing when it runs; its contract is the law.
#![tactic(auto)]

ghost use Rattle.block_filter.specs.Blocks.{BlocksGoOn, BlocksWiden};
ghost use Rattle.block_filter.specs.Likes.{AlikeEventsGoAlike, AlikeStretchesGoAlike};
ghost use Rattle.block_filter.specs.Suffice.{BlocksSuffice, AllAreAwaited};

/// Events that do alike in both machines go alike; blocks go on by one more, and may be told with more objects marked.
pub fn blocks()
    ensures event { AlikeEventsGoAlike }
    ensures stretch { AlikeStretchesGoAlike }
    ensures more { BlocksGoOn }
    ensures wider { BlocksWiden }
{}

/// Where the good machine's phase has no race, the faulty machine's has none if no two accesses of a suspect object conflict, and none of a met object from a block of the faulty machine's own on.
/// The entries that may be waited on are asked for where writes of other values are to be like the good machine's; else all may be.
pub fn blocks_suffice()
    ensures race { BlocksSuffice }
    ensures awaited { AllAreAwaited }
{}
