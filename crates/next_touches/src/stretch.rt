// A stretch of moments.

ghost use Rattle.std.specs.Prelude.{◌≡◌, ◌≤◌, true};

/// Moments from one to before another.
#[derive(Clone, Copy, Debug)]
pub(crate) struct Stretch {
    pub(crate) from: u32,
    pub(crate) until: u32,
}

/// The stretch in which nothing is known: no moment stands in it or at its end.
pub(crate) fn no_stretch() -> Stretch
    ensures { result ≡ record { from = 1; until = 0 } }
{
    Stretch { from: 1, until: 0 }
}

/// Whether a moment stands in a stretch, or at its end.
pub(crate) fn has_moment(stretch: Stretch, moment: u32) -> bool
    ensures from { result ≡ true → stretch.from ≤ moment }
    ensures until { result ≡ true → moment ≤ stretch.until }
{
    if moment < stretch.from {
        return false;
    }
    moment <= stretch.until
}
