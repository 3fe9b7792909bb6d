// The small enumerations that the trees of a flat design are made of.

ghost use Rattle.std.specs.Prelude.{◌≡◌};

/// An object is a variable, a word of a memory, or a net piece.
#[derive(Clone, Copy, PartialEq, Eq, Debug)]
pub enum ObjectKind {
    Var,
    Word,
    Net,
}
