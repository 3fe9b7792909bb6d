//! What a search of blocks shows, in the words of what lockstep asks (events by IEEE 1364-2001, clause 5).
//!
//! `block_skip` finds by a window's indexes how far all events leave a copy alone. `lockstep_slots` asks of a stretch that is passed over what tables tell of its events
//! (`window_places`). `searches_tell_tables` is the law that the search shows just that, where the copy keeps values and updates of just those objects and processes of
//! which the faulty machine has own ones. The function does nothing when it runs; its contract is the law.
#![tactic(auto)]

ghost use Rattle.block_tables.specs.Tables.{SearchesTellTables};

/// Where a search shows that events leave a copy alone, the tables of these events tell that they leave what is kept in lockstep.
pub fn searches_tell_tables()
    ensures { SearchesTellTables }
{}
