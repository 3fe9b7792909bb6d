// Sets of numbers.

ghost use Rattle.std.specs.Prelude.{◌≡◌, ◌<◌, IfOk};
ghost use Rattle.number_set.specs.Members.{is_member, Inserts, IsEmpty, IsFirstFrom};

use crate::word::{clear_words, first_set};
use std::alloc::Global;
use std::marker::Model;
use vf_base::NoMemory;

/// A set of numbers below a bound.
#[derive(Drop)]
pub struct NumberSet {
    words: Vec<u64>,
    bound: u32,
    first: usize,
    past: usize,
}

impl Model for NumberSet {
    ghost use Rattle.number_set.specs.Members.{NumberBits, AreWords};

    ghost Value = { NumberBits };

    ghost view = { λ set. record { bound = set.bound; words = set.words.items } };

    ghost invariant = { λ set. AreWords set.bound set.first set.past set.words.items };
}

impl NumberSet {
    /// The empty set of numbers below a bound.
    ///
    /// # Errors
    ///
    /// Want of memory.
    pub fn new(alloc: Global, bound: u32) -> Result<NumberSet, NoMemory>
        ensures { IfOk result (IsEmpty bound) }
    {
        let words = vec![in alloc; 0u64; bound as usize / 64 + 1]?;
        let first = words.len();
        Ok(NumberSet {
            words,
            bound,
            first,
            past: 0,
        })
    }

    /// Puts a number into the set.
    pub fn insert(&mut self, number: u32)
        requires { number < self.old.bound }
        ensures { Inserts number self.old self.new }
    {
        let place = number as usize;
        self.words[place / 64] |= 1 << (place % 64);
        self.first = self.first.min(place / 64);
        self.past = self.past.max(place / 64 + 1);
    }

    /// The least member that isn't below a number; none where there is none.
    pub fn next_from(&self, from: u32) -> Option<u32>
        ensures { IsFirstFrom (is_member self.now) self.now.bound from result }
    {
        let start = (from as usize).max(self.first * 64);
        let first = first_set(&self.words, start, self.past)?;
        Some(first as u32)
    }

    /// Takes all numbers out of the set.
    pub fn clear(&mut self)
        ensures { IsEmpty self.old.bound self.new }
    {
        clear_words(&mut self.words, self.first, self.past);
        self.first = self.words.len();
        self.past = 0;
    }
}
