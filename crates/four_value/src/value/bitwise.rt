// The operators that work bit by bit, and the reductions.

ghost use Rattle.std.specs.Prelude.{◌≡◌, length};
ghost use Rattle.four_value.specs.Bits.{and_bit, or_bit, xor_bit};
ghost use Rattle.four_value.specs.Values.{and_value, or_value, xor_value, not_value, merged, reduced};
ghost use Rattle.four_value.specs.declared.logic.Bit.TheVariants.{Zero, One};

use super::{Vec4, mask};
use crate::logic::Bit;

impl Vec4 {
    /// And, bit by bit: 0 with anything is 0, 1 with 1 is 1, else x.
    pub fn and(self, other: Vec4) -> Vec4
        requires { length self ≡ length other }
        ensures { result ≡ and_value self other }
    {
        let surely = self.surely_one() & other.surely_one();
        let maybe = self.maybe_one() & other.maybe_one();
        Vec4 {
            width: self.width,
            ones: surely,
            unknowns: surely ^ maybe,
        }
    }

    /// Or, bit by bit: 1 with anything is 1, 0 with 0 is 0, else x.
    pub fn or(self, other: Vec4) -> Vec4
        requires { length self ≡ length other }
        ensures { result ≡ or_value self other }
    {
        let surely = self.surely_one() | other.surely_one();
        let maybe = self.maybe_one() | other.maybe_one();
        Vec4 {
            width: self.width,
            ones: surely,
            unknowns: surely ^ maybe,
        }
    }

    /// Exclusive or, bit by bit: x where either bit is x or z.
    pub fn xor(self, other: Vec4) -> Vec4
        requires { length self ≡ length other }
        ensures { result ≡ xor_value self other }
    {
        let unknowns = self.unknowns | other.unknowns;
        Vec4 {
            width: self.width,
            ones: (self.ones ^ other.ones) & !unknowns,
            unknowns,
        }
    }

    /// Each bit inverted: x and z give x.
    pub fn not(self) -> Vec4
        ensures { result ≡ not_value self }
    {
        let maybe = self.maybe_one();
        Vec4 {
            width: self.width,
            ones: mask(self.width) ^ maybe,
            unknowns: self.unknowns,
        }
    }

    /// What two branches give under an unknown condition: equal 0 or 1 stays, all else is x.
    pub fn merge(self, other: Vec4) -> Vec4
        requires { length self ≡ length other }
        ensures { result ≡ merged self other }
    {
        let surely = self.surely_one() & other.surely_one();
        let maybe = self.maybe_one() | other.maybe_one();
        Vec4 {
            width: self.width,
            ones: surely,
            unknowns: surely ^ maybe,
        }
    }

    /// And over all bits: 0 where some bit is 0, else x where some bit is x or z, else 1.
    pub fn reduce_and(self) -> Bit
        ensures { result ≡ reduced and_bit One self }
    {
        self.not().reduce_or().not()
    }

    /// Or over all bits: 1 where some bit is 1, else x where some bit is x or z, else 0.
    pub fn reduce_or(self) -> Bit
        ensures { result ≡ reduced or_bit Zero self }
    {
        self.truth().as_bit()
    }

    /// Exclusive or over all bits: x where some bit is x or z, else whether the number of ones is odd.
    pub fn reduce_xor(self) -> Bit
        ensures { result ≡ reduced xor_bit Zero self }
    {
        if self.unknowns != 0 {
            Bit::X
        } else if self.ones.count_ones() % 2 == 1 {
            Bit::One
        } else {
            Bit::Zero
        }
    }
}
