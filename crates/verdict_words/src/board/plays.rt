// How the views of seats are cut in two and put together. What each step tells is picked at its call.

use crate::view::View;
use atomic_table::{Join, Play, Split};
use std::marker::Brand;

impl Play<(), View> for Brand {
    ghost then = { λ _ _ _ _. Unit {0} };
}

/// How a seat is split, and how two are joined.
pub(super) struct Sharing;

impl Split<View> for Sharing {
    ghost use Rattle.verdict_words.specs.Views.{without_lent, newcomer};

    ghost left = { without_lent };

    ghost right = { newcomer };
}

impl Join<View> for Sharing {
    ghost use Rattle.verdict_words.specs.Views.{joined, spent_view};

    ghost both = { joined };

    ghost spent = { spent_view };
}
