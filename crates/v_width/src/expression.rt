// Sized expressions over names.

use four_value::{BinaryOperator, UnaryOperator, Vec4};
use v_names::Size;
use vf_base::Text;

/// A sized expression over names. Each part has a width in bits, and whether it is signed.
#[derive(Drop)]
pub enum SizedExpr {
    Constant {
        size: Size,
        value: Vec4,
    },
    /// A vector alone.
    Name {
        size: Size,
        name: Text,
    },
    /// A bit of a vector.
    BitSelect {
        size: Size,
        name: Text,
        index: Box<SizedExpr>,
    },
    /// The bits of a vector between two declared indexes.
    PartSelect {
        size: Size,
        name: Text,
        from: u128,
        to: u128,
    },
    /// A word of a memory.
    WordSelect {
        size: Size,
        name: Text,
        index: Box<SizedExpr>,
    },
    Unary {
        size: Size,
        operator: UnaryOperator,
        operand: Box<SizedExpr>,
    },
    Binary {
        size: Size,
        operator: BinaryOperator,
        left: Box<SizedExpr>,
        right: Box<SizedExpr>,
    },
    Conditional {
        size: Size,
        condition: Box<SizedExpr>,
        first: Box<SizedExpr>,
        second: Box<SizedExpr>,
    },
    Concatenation {
        size: Size,
        parts: Vec<SizedExpr>,
    },
    Replication {
        size: Size,
        count: u128,
        parts: Vec<SizedExpr>,
    },
}
