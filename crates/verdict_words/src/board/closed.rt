// A board that no thread shares any more.

ghost use Rattle.std.specs.Prelude.{◌≡◌, ℕ, ◌+◌, ◌^◌, ◌<◌, IfOk, length, slice_index};
ghost use Rattle.core.specs.Mem.Slots.{slots_items, slots_len, IsFull};
ghost use Rattle.verdict_words.specs.Codes.{codes_of};
ghost use Rattle.verdict_words.specs.Seats.{view, IsSeatOf};
ghost use Rattle.verdict_words.specs.Rule.{Closing};
ghost use Rattle.verdict_words.specs.Last.{words_of, last_view, sizes_of};

use super::{Board, Seat};
use crate::rule::Sizes;
use crate::view::View;
use std::alloc::{AllocError, Global};
use std::marker::PhantomData;
use std::snapshot::Snapshot;
use v_design::World;
use vf_base::NoMemory;

/// The words of a closed board by fault. Contracts see beside them the sizes of the board, and what its last seat knew.
#[derive(Drop)]
pub struct Closed<N> {
    words: Vec<u64>,
    sizes: Snapshot<Sizes>,
    seat: Snapshot<atomic_table::Seat<(), View>>,
    world: PhantomData<N>,
}

// The words of the faults, without the counter.
fn copy_words(
    alloc: Global,
    closed: &atomic_table::Closed<(), Global>,
    faults: u32,
) -> Result<Vec<u64>, AllocError>
    requires { IsFull closed.now.words × (slots_len closed.now.words ≡ faults + 1) }
    ensures { IfOk result (λ words. (length words.items ≡ faults)
        × ((f : ℕ) → f < faults → slice_index words.items f ≡ slice_index (slots_items closed.now.words) (f + 1))) }
{
    let mut words = Vec::with_capacity(alloc, faults as usize)?;
    for i in 0..faults as usize {
        words.push(closed.word(i + 1))?;
    }
    Ok(words)
}

impl<N: World> Board<N> {
    /// Ends the board. Its seat has the whole share, which it has exactly where all other seats were joined into it.
    ///
    /// The words that aren't 0 are those of the faults that the seat moved, each is the code of its fault's grade, each code that the seat has
    /// seen is the word of its fault, and where the seat is dry it drew each claim once. After want of memory the board and the seat are gone.
    pub fn close(self, alloc: Global, seat: Seat<N>) -> Result<Closed<N>, NoMemory>
        requires own { IsSeatOf self seat }
        requires whole { (view seat).share ≡ 2 ^ 62 }
        ensures { IfOk result (λ closed. (sizes_of closed ≡ self.sizes) × (last_view closed ≡ view seat)
            × Closing (codes_of N.design N.plan) (sizes_of closed) (words_of closed) (last_view closed)) }
    {
        let Board { table, sizes } = self;
        let Seat { seat, world: _ } = seat;
        let last = Snapshot::of(&seat);
        let closed = table.close_with(seat);
        let copied = copy_words(alloc, &closed, sizes.faults);
        closed.free();
        let words = copied?;
        Ok(Closed {
            words,
            sizes: Snapshot::of(&sizes),
            seat: last,
            world: PhantomData,
        })
    }
}

impl<N> Closed<N> {
    /// The verdict word of each fault, by the faults' numbers: 0, or the code of the fault's grade. It takes no memory.
    pub fn words(&self) -> &[u64]
        ensures { result.now ≡ words_of self.now }
    {
        self.words.as_slice()
    }
}
