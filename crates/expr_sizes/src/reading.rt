// What an expression is, read in a scope.

ghost use Rattle.std.specs.Prelude.{◌≡◌, ℕ, Bool, ◌&&◌, List, [], ◌∷◌, false, option_map};
ghost use Rattle.vf_base.specs.Base.{source_place};
ghost use Rattle.four_value.specs.declared.logic.Bit.TheVariants.{Zero};
ghost use Rattle.v_names.specs.Faults.{Fault, first_fault};
ghost use Rattle.v_names.specs.OwnSizes.{size_within};
ghost use Rattle.v_names.specs.Readings.{Reading, size_or_bit, larger_size, alone_faults, tree_alone, tree_at, tree_in, refused_reading, wrong_reading, sized_reading, bit_zero_reading};
ghost use Rattle.v_names.specs.SizedTrees.{SizedExpression, SizedConstant};
ghost use Rattle.v_names.specs.SizeViews.{size_of};
ghost use Rattle.v_width.specs.Sizes.{tree_in_context};
ghost use Rattle.v_width.specs.Summaries.{found_fault, AreFaults};
ghost use Rattle.v_width.specs.Resized.{with_size};
ghost use Rattle.v_width.specs.SizedViews.{sized_of};
ghost use Rattle.expr_sizes.specs.ExprReadings.{IsTree, IsReading};

use four_value::{Bit, Vec4};
use v_names::{Found, Size, larger, one_bit};
use v_width::{
    Faults, SizedExpr, apart, bad_width, first_fault, no_faults, set_size, together, wrong_kind,
};
use vf_base::Place;

/// What an expression is, read in a scope.
#[derive(Drop)]
pub struct ExprReading {
    /// The size that it has by itself; none where it is refused.
    pub size: Option<Size>,
    /// What is wrong with its sizes.
    pub faults: Faults,
    /// The expression, not yet at the size of its context.
    pub tree: SizedExpr,
}

/// A size, one unsigned bit where there is none.
fn size_or_bit(size: Option<Size>) -> Size
    ensures { size_of result ≡ size_or_bit (option_map size_of size) }
{
    match size {
        Some(size) => size,
        None => one_bit(),
    }
}

/// Whether both of two tests hold.
fn both(one: bool, other: bool) -> bool
    ensures { result ≡ (one && other) }
{
    if one { other } else { false }
}

/// The size of two expressions that are sized together; none where one of them has none.
pub fn larger_of(one: Option<Size>, other: Option<Size>) -> Option<Size>
    ensures { option_map size_of result ≡ larger_size (option_map size_of one) (option_map size_of other) }
{
    match (one, other) {
        (Some(one), Some(other)) => Some(larger(one, other)),
        _ => None,
    }
}

/// A tree at a size.
fn at_size(tree: SizedExpr, size: Size) -> SizedExpr
    ensures { sized_of result ≡ with_size (sized_of tree) size.width size.signed }
{
    let mut sized = tree;
    set_size(&mut sized, size);
    sized
}

impl ExprReading {
    /// The first thing that is wrong with it where it is sized alone.
    pub fn first_fault(&self) -> Option<Found>
        ensures { (reading : Reading) → IsReading reading self.now → found_fault result ≡ first_fault (alone_faults reading) }
    {
        first_fault(self.faults)
    }

    /// The expression at the size of a group, one unsigned bit where that has none.
    pub fn tree_at(self, size: Option<Size>) -> SizedExpr
        ensures { (reading : Reading) → IsReading reading self → sized_of result ≡ tree_at reading (option_map size_of size) }
    {
        at_size(self.tree, size_or_bit(size))
    }

    /// The expression where it is sized alone.
    pub fn tree_alone(self) -> SizedExpr
        ensures { (reading : Reading) → IsReading reading self → sized_of result ≡ tree_alone reading }
    {
        at_size(self.tree, size_or_bit(self.size))
    }

    /// The expression in a context of a width: the larger of both, with its own sign.
    pub fn tree_in(self, width: u8) -> SizedExpr
        ensures { (reading : Reading) → IsReading reading self → sized_of result ≡ tree_in width reading }
    {
        let own = size_or_bit(self.size);
        let width = width.max(own.width);
        at_size(
            self.tree,
            Size {
                width,
                signed: own.signed,
            },
        )
    }

    /// The expression in a context of a width, unsigned where what stands together with it is.
    pub fn tree_in_context(self, width: u8, signed: bool) -> SizedExpr
        ensures { (reading : Reading) → IsReading reading self → sized_of result ≡ tree_in_context reading width signed }
    {
        let own = size_or_bit(self.size);
        let width = width.max(own.width);
        let signed = both(own.signed, signed);
        at_size(self.tree, Size { width, signed })
    }
}

/// What is wrong with an expression that is sized alone and of which nothing else is wanted.
pub(crate) fn alone_faults(read: ExprReading) -> Faults
    ensures { (reading : Reading) → IsReading reading read → AreFaults [] (alone_faults reading) result }
{
    apart(read.faults)
}

/// A bit 0.
fn bit_zero() -> SizedExpr
    ensures { sized_of result ≡ SizedConstant 1 false (Zero ∷ []) }
{
    SizedExpr::Constant {
        size: one_bit(),
        value: Vec4::of_bit(Bit::Zero),
    }
}

/// What is refused.
pub(crate) fn refused(faults: Faults) -> ExprReading
    ensures { (here inside : List Fault) → AreFaults here inside faults → IsReading (refused_reading here inside) result }
{
    ExprReading {
        size: None,
        faults,
        tree: bit_zero(),
    }
}

/// A parameter without a value.
pub(crate) fn unvalued() -> ExprReading
    ensures { IsReading bit_zero_reading result }
{
    ExprReading {
        size: Some(one_bit()),
        faults: no_faults(),
        tree: bit_zero(),
    }
}

/// A name that is used as what it isn't.
pub(crate) fn misused(place: Place, inside: Faults) -> ExprReading
    ensures { (faults : List Fault) → AreFaults [] faults inside → IsReading (wrong_reading (source_place place) faults) result }
{
    let faults = together(wrong_kind(place), inside);
    refused(faults)
}

/// A tree with its size, which is refused where there is none.
pub(crate) fn sized(
    place: Place,
    size: Option<Size>,
    inside: Faults,
    tree: SizedExpr,
) -> ExprReading
    ensures { (width : ℕ) (signed complete : Bool) (faults : List Fault) (at : ℕ → Bool → SizedExpression) →
        option_map size_of size ≡ size_within width signed → AreFaults [] faults inside → IsTree at tree →
        IsReading (sized_reading (source_place place) width signed complete faults at) result }
{
    match size {
        Some(_) => ExprReading {
            size,
            faults: inside,
            tree,
        },
        None => {
            let faults = together(bad_width(place), inside);
            refused(faults)
        }
    }
}
