// Shifts: all x where the amount, which is unsigned, holds x or z.

ghost use Rattle.std.specs.Prelude.{◌≡◌, true, false, ◌++◌, drop, replicate};
ghost use Rattle.four_value.specs.Values.{number_of, shifted, shifted_left, shifted_right};

use super::{Vec4, mask};
use crate::logic::Bit;

impl Vec4 {
    /// Shifted to the left, filled with 0.
    pub fn shl(self, amount: Vec4) -> Vec4
        ensures { result ≡ shifted_left self amount }
    {
        let Some(amount) = amount.as_number() else {
            return Vec4::filled(Bit::X, self.width());
        };
        if amount >= u128::from(self.width()) {
            return Vec4::filled(Bit::Zero, self.width());
        }
        Vec4 {
            width: self.width,
            ones: (self.ones << amount) & mask(self.width),
            unknowns: (self.unknowns << amount) & mask(self.width),
        }
    }

    /// Shifted to the right, filled with 0.
    pub fn shr(self, amount: Vec4) -> Vec4
        ensures { result ≡ shifted_right false self amount }
    {
        self.shr_filled(amount, Bit::Zero)
    }

    /// Shifted to the right, filled with the most significant bit.
    pub fn sshr(self, amount: Vec4) -> Vec4
        ensures { result ≡ shifted_right true self amount }
    {
        self.shr_filled(amount, self.top())
    }

    // shifted to the right, filled with a bit
    fn shr_filled(self, amount: Vec4, fill: Bit) -> Vec4
        ensures { result ≡ shifted (λ n. drop n self ++ replicate n fill) self (number_of amount) }
    {
        let Some(amount) = amount.as_number() else {
            return Vec4::filled(Bit::X, self.width());
        };
        if amount >= u128::from(self.width()) {
            return Vec4::filled(fill, self.width());
        }
        if amount == 0 {
            return self;
        }
        Vec4::filled(fill, amount as u8).above(self.from_place(amount as u8))
    }
}
