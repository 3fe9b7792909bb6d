// The rule of the jobs' table, and what its steps tell.

use atomic_table::{Join, Play, Split, TableRule};
use std::collections::LinkedList;

/// A slot, and a value that was taken from it or put into it.
pub struct SlotValue<S> {
    /// The slot.
    pub slot: u32,
    /// The value.
    pub value: S,
}

/// What the calls of a seat did, and those of the seats that were joined into it. It exists in proofs alone.
pub struct SlotCalls<S> {
    /// How many times `take` found a slot held.
    pub refusals: u64,
    /// What `take` took, call by call.
    pub takes: LinkedList<SlotValue<S>>,
    /// What `put` put, call by call.
    pub puts: LinkedList<SlotValue<S>>,
}

/// What a seat of the jobs knows. It exists in proofs alone.
pub enum Hold<S> {
    /// The seat was joined into another.
    Spent,
    /// It holds no slot, and its calls did this.
    Free(SlotCalls<S>),
    /// It holds the slot of this number, and its calls did this.
    Slot(u64, SlotCalls<S>),
}

/// A slot's word is 1 where the slot is at home, and 0 where exactly one seat holds it.
pub struct Shelf;

impl<S> TableRule<S, Hold<S>, u64> for Shelf {
    ghost use Rattle.verdict_words.specs.Slots.{Shelved, no_calls};
    ghost use Rattle.verdict_words.specs.declared.jobs.rule.Hold.TheVariants.{Free};

    ghost holds = { Shelved };

    ghost first = { λ _. Free no_calls };
}

/// What `take` is told.
pub(super) struct Takes;

impl<S> Play<S, Hold<S>> for Takes {
    ghost use Rattle.verdict_words.specs.Slots.{Takes as takes};

    ghost then = { takes };
}

/// What `put` is told.
pub(super) struct Puts;

impl<S> Play<S, Hold<S>> for Puts {
    ghost use Rattle.verdict_words.specs.Slots.{Puts as puts};

    ghost then = { puts };
}

/// How a seat is split, and how two are joined.
pub(super) struct Halves;

impl<S> Split<Hold<S>> for Halves {
    ghost use Rattle.verdict_words.specs.Slots.{no_calls};
    ghost use Rattle.verdict_words.specs.declared.jobs.rule.Hold.TheVariants.{Free};

    ghost left = { λ v. v };

    ghost right = { λ _. Free no_calls };
}

impl<S> Join<Hold<S>> for Halves {
    ghost use Rattle.verdict_words.specs.Slots.{joined_hold};
    ghost use Rattle.verdict_words.specs.declared.jobs.rule.Hold.TheVariants.{Spent};

    ghost both = { joined_hold };

    ghost spent = { Spent };
}
