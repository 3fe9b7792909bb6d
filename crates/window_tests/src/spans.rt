// Spans of moments that are left out.

ghost use Rattle.std.specs.Prelude.{◌≡◌, ℕ, None, IfSome};
ghost use Rattle.window_tests.specs.Between.{IsSpanEnd};

/// Spans of a window's moments that are left out where the others are asked.
pub trait Spans {
    ghost covers: { Self → ℕ → Type 0 };

    /// Where a span ends in which a moment lies.
    fn end_of(&self, moment: u32) -> Option<u32>
        ensures { IfSome result (λ end. IsSpanEnd (covers self.now) moment end) };
}

/// No span: no moment is left out.
#[derive(Clone, Copy, Debug)]
pub struct NoSpans;

impl Spans for NoSpans {
    ghost covers = { λ _ _. ⊥ };

    fn end_of(&self, _: u32) -> Option<u32> {
        None
    }
}
