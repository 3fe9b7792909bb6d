// Comparisons, truth and edges.

ghost use Rattle.std.specs.Prelude.{◌≡◌, true, false, length};
ghost use Rattle.four_value.specs.Values.{logical_equality, less_than, at_most, same_value, truth_of, edge_matches};
ghost use Rattle.four_value.specs.Operators.{is_ignored, label_matches};
ghost use Rattle.four_value.specs.Planes.{plane_of};
ghost use Rattle.std.specs.List.{zip};

use super::Vec4;
use crate::logic::{Bit, Edge, Truth};
use crate::operator::CaseKind;

impl Vec4 {
    /// `==`: 0 where some place has 0 against 1, else x where any bit is x or z, else 1.
    pub fn eq4(self, other: Vec4) -> Bit
        requires { length self ≡ length other }
        ensures { result ≡ logical_equality self other }
    {
        let unknowns = self.unknowns | other.unknowns;
        if (self.ones ^ other.ones) & !unknowns != 0 {
            Bit::Zero
        } else if unknowns != 0 {
            Bit::X
        } else {
            Bit::One
        }
    }

    /// `<` of the unsigned numbers: x where either operand holds x or z.
    pub fn less(self, other: Vec4) -> Bit
        requires { length self ≡ length other }
        ensures { result ≡ less_than false self other }
    {
        let Some(left) = self.as_number() else {
            return Bit::X;
        };
        let Some(right) = other.as_number() else {
            return Bit::X;
        };
        Bit::from_bool(left < right)
    }

    /// `<` of the numbers in two's complement: x where either operand holds x or z.
    pub fn sless(self, other: Vec4) -> Bit
        requires { length self ≡ length other }
        ensures { result ≡ less_than true self other }
    {
        let Some(left) = self.as_signed() else {
            return Bit::X;
        };
        let Some(right) = other.as_signed() else {
            return Bit::X;
        };
        Bit::from_bool(left < right)
    }

    /// `===`: equal by all four values.
    pub fn same(self, other: Vec4) -> bool
        requires { length self ≡ length other }
        ensures { result ≡ same_value self other }
    {
        self.ones == other.ones && self.unknowns == other.unknowns
    }

    /// What the value says as a condition: true if some bit is 1, false if all are 0, else unknown.
    pub fn truth(self) -> Truth
        ensures { result ≡ truth_of self }
    {
        if self.surely_one() != 0 {
            Truth::True
        } else if self.unknowns != 0 {
            Truth::Unknown
        } else {
            Truth::False
        }
    }
}

/// Whether a change of a value matches an edge; of several bits the least significant decides.
pub fn edge_matches(old: Vec4, new: Vec4, edge: Edge) -> bool
    requires { length old ≡ length new }
    ensures { result ≡ edge_matches edge old new }
{
    match edge {
        Edge::Any => !old.same(new),
        Edge::Pos => old.bit(0).is_posedge(new.bit(0)),
        Edge::Neg => old.bit(0).is_negedge(new.bit(0)),
    }
}

/// Whether the value of a case matches a label: by all four values, but `casez` doesn't look at places with z on either
/// side, and `casex` at none with x or z.
pub fn label_matches(kind: CaseKind, value: Vec4, label: Vec4) -> bool
    requires { length value ≡ length label }
    ensures { result ≡ label_matches kind value label }
{
    let differing = (value.ones ^ label.ones) | (value.unknowns ^ label.unknowns);
    differing & !ignored_places(kind, value, label) == 0
}

// the number whose digits say at which places a case doesn't look
fn ignored_places(kind: CaseKind, value: Vec4, label: Vec4) -> u128
    requires { length value ≡ length label }
    ensures { result ≡ plane_of (λ p. is_ignored kind p.0 p.1) (zip value label) }
{
    match kind {
        CaseKind::Exact => 0,
        CaseKind::IgnoreZ => (value.ones & value.unknowns) | (label.ones & label.unknowns),
        CaseKind::IgnoreXz => value.unknowns | label.unknowns,
    }
}
