// The board of verdict words, and its seats.

ghost use Rattle.std.specs.Prelude.{◌≡◌, ◌+◌, ◌^◌, [], ◌<◌};

use crate::rule::{BoardRule, Sizes};
use crate::view::View;
use atomic_table::Table;
use std::alloc::Global;
use std::marker::PhantomData;
use v_design::World;

mod closed;
mod plays;
mod steps;

pub use closed::Closed;
pub use steps::Settled;

/// The verdict words of the faults of one world, and the counter of claims, which threads share.
#[derive(Drop)]
pub struct Board<N: World> {
    /// Word 0 counts the calls of `claim`; the word of a fault stands one after its number.
    table: Table<(), View, Sizes, BoardRule<N>, Global>,
    sizes: Sizes,
    ghost key: { table.shared.key ≡ sizes },
    ghost sized: { table.shared.table_id.words ≡ sizes.faults + 1 },
    ghost few: { sizes.claims < 2 ^ 32 },
    ghost no_slots: { table.shared.table_id.slots ≡ 0 },
}

/// What a thread steps with on a board. It has no bytes.
#[derive(Drop)]
pub struct Seat<N> {
    seat: atomic_table::Seat<(), View>,
    world: PhantomData<N>,
    ghost holds_no_slot: { seat.me.1 ≡ [] },
    ghost has_share: { 0 < seat.me.0.share },
}
