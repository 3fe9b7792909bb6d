// Arithmetic: all x where an operand holds x or z, and where a divisor is 0.

ghost use Rattle.std.specs.Prelude.{◌≡◌, true, false, length};
ghost use Rattle.four_value.specs.Bits.{is_one};
ghost use Rattle.four_value.specs.Values.{IsWidth, sum_of, difference_of, product_of, quotient_of, remainder_of, whole_number, bits_of_whole};

use super::{Vec4, mask};
use crate::logic::Bit;

impl Vec4 {
    /// The sum modulo the width.
    pub fn add(self, other: Vec4) -> Vec4
        requires { length self ≡ length other }
        ensures { result ≡ sum_of self other }
    {
        let Some(left) = self.as_number() else {
            return Vec4::filled(Bit::X, self.width());
        };
        let Some(right) = other.as_number() else {
            return Vec4::filled(Bit::X, self.width());
        };
        Vec4::from_number(left.wrapping_add(right), self.width())
    }

    /// The difference modulo the width.
    pub fn sub(self, other: Vec4) -> Vec4
        requires { length self ≡ length other }
        ensures { result ≡ difference_of self other }
    {
        let Some(left) = self.as_number() else {
            return Vec4::filled(Bit::X, self.width());
        };
        let Some(right) = other.as_number() else {
            return Vec4::filled(Bit::X, self.width());
        };
        Vec4::from_number(left.wrapping_sub(right), self.width())
    }

    /// The product modulo the width.
    pub fn mul(self, other: Vec4) -> Vec4
        requires { length self ≡ length other }
        ensures { result ≡ product_of self other }
    {
        let Some(left) = self.as_number() else {
            return Vec4::filled(Bit::X, self.width());
        };
        let Some(right) = other.as_number() else {
            return Vec4::filled(Bit::X, self.width());
        };
        Vec4::from_number(left.wrapping_mul(right), self.width())
    }

    /// The unsigned quotient, rounded down.
    pub fn div(self, other: Vec4) -> Vec4
        requires { length self ≡ length other }
        ensures { result ≡ quotient_of false self other }
    {
        let Some(left) = self.as_number() else {
            return Vec4::filled(Bit::X, self.width());
        };
        let Some(right) = other.as_number() else {
            return Vec4::filled(Bit::X, self.width());
        };
        if right == 0 {
            return Vec4::filled(Bit::X, self.width());
        }
        Vec4::from_number(left / right, self.width())
    }

    /// The unsigned remainder.
    pub fn rem(self, other: Vec4) -> Vec4
        requires { length self ≡ length other }
        ensures { result ≡ remainder_of false self other }
    {
        let Some(left) = self.as_number() else {
            return Vec4::filled(Bit::X, self.width());
        };
        let Some(right) = other.as_number() else {
            return Vec4::filled(Bit::X, self.width());
        };
        if right == 0 {
            return Vec4::filled(Bit::X, self.width());
        }
        Vec4::from_number(left % right, self.width())
    }

    /// The quotient in two's complement, cut towards 0; one out of range wraps.
    pub fn sdiv(self, other: Vec4) -> Vec4
        requires { length self ≡ length other }
        ensures { result ≡ quotient_of true self other }
    {
        let Some(left) = self.as_signed() else {
            return Vec4::filled(Bit::X, self.width());
        };
        let Some(right) = other.as_signed() else {
            return Vec4::filled(Bit::X, self.width());
        };
        if right == 0 {
            return Vec4::filled(Bit::X, self.width());
        }
        Vec4::from_signed(left.wrapping_div(right), self.width())
    }

    /// The remainder in two's complement, with the sign of the left operand.
    pub fn srem(self, other: Vec4) -> Vec4
        requires { length self ≡ length other }
        ensures { result ≡ remainder_of true self other }
    {
        let Some(left) = self.as_signed() else {
            return Vec4::filled(Bit::X, self.width());
        };
        let Some(right) = other.as_signed() else {
            return Vec4::filled(Bit::X, self.width());
        };
        if right == 0 {
            return Vec4::filled(Bit::X, self.width());
        }
        Vec4::from_signed(left.wrapping_rem(right), self.width())
    }

    // the whole number that the value spells in two's complement; none where it holds x or z
    pub(super) fn as_signed(self) -> Option<i128>
        ensures { result ≡ whole_number true self }
    {
        let width = self.width();
        let Some(number) = self.as_number() else {
            return None;
        };
        if self.top_is_one() {
            Some((number | !mask(width)).cast_signed())
        } else {
            Some(number.cast_signed())
        }
    }

    // the low bits of a whole number in two's complement
    fn from_signed(value: i128, width: u8) -> Vec4
        requires { IsWidth width }
        ensures { result ≡ bits_of_whole width value }
    {
        Vec4::from_number(value.cast_unsigned(), width)
    }
}
