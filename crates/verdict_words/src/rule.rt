// The rule that a board's words and views keep between any two steps.

use crate::view::View;
use atomic_table::TableRule;
use std::marker::PhantomData;
use v_design::World;

/// The number of faults and the number of claims of a board.
#[derive(Clone, Copy, Drop)]
pub struct Sizes {
    /// How many faults have a word.
    pub faults: u32,
    /// How many claims are drawn in all.
    pub claims: u32,
}

/// The rule of the boards over one world. No value of it is made.
pub struct BoardRule<N> {
    world: PhantomData<N>,
}

impl<N: World> TableRule<(), View, Sizes> for BoardRule<N> {
    ghost use Rattle.verdict_words.specs.Codes.{codes_of};
    ghost use Rattle.verdict_words.specs.Views.{first_view};
    ghost use Rattle.verdict_words.specs.Rule.{Holds};

    ghost holds = { Holds (codes_of N.design N.plan) };

    ghost first = { λ _. first_view };
}
