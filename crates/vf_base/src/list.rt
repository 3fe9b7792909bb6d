// Lists of plain data, as the fields of a design and a plan are.

ghost use Rattle.std.specs.Prelude.{◌≡◌};

use std::marker::Model;

/// A list, which contracts see as its elements.
#[derive(Drop)]
pub struct Seq<T> {
    elements: Vec<T>,
}

impl<T> Model for Seq<T> {
    ghost use Rattle.std.specs.Prelude.{List};

    ghost Value = { List T };

    ghost view = { λ s. s.elements.items };
}

impl<T> Seq<T> {
    /// The list of these elements, which takes no memory.
    pub fn from_vec(elements: Vec<T>) -> Seq<T>
        ensures { result ≡ elements.items }
    {
        Seq { elements }
    }

    /// The elements in order.
    pub fn as_slice(&self) -> &[T]
        ensures { result.now ≡ self.now }
    {
        &self.elements
    }

    /// The elements as a vector, which takes no memory.
    pub fn into_vec(self) -> Vec<T>
        ensures { result.items ≡ self }
    {
        let Seq { elements } = self;
        elements
    }
}
