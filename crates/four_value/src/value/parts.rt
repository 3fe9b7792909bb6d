// Parts of a value, values side by side, and other widths.

ghost use Rattle.std.specs.Prelude.{◌≡◌, true, false, ◌≤◌, ◌<◌, ◌+◌, length, drop, MatchResult};
ghost use Rattle.four_value.specs.Values.{IsWidth, part_of, with_part, joined_to, resized};

use super::{Vec4, mask};
use crate::logic::{Bit, Wide};

impl Vec4 {
    /// The `width` bits, 1 to 128, from the place `low` on; bits outside the value are x.
    pub fn part(self, low: u32, width: u8) -> Vec4
        requires { IsWidth width }
        ensures { result ≡ part_of self low width }
    {
        let own_width = self.width();
        if low >= u32::from(own_width) {
            return Vec4::filled(Bit::X, width);
        }
        let inside = self.from_place(low as u8);
        let kept = own_width - low as u8;
        if width <= kept {
            inside.resize(width)
        } else {
            Vec4::filled(Bit::X, width - kept).above(inside)
        }
    }

    /// The value with `part` put in from the place `low` on; bits that fall outside the value are dropped.
    pub fn place(self, low: u32, part: Vec4) -> Vec4
        ensures { result ≡ with_part self low part }
    {
        if low >= u32::from(self.width) {
            return self;
        }
        let hole = (mask(part.width) << low) & mask(self.width);
        Vec4 {
            width: self.width,
            ones: (self.ones & !hole) | ((part.ones << low) & hole),
            unknowns: (self.unknowns & !hole) | ((part.unknowns << low) & hole),
        }
    }

    /// The value on the left of another, whose bits are the less significant ones.
    ///
    /// # Errors
    ///
    /// `Wide` exactly where both have more than 128 bits together.
    pub fn join(self, low: Vec4) -> Result<Vec4, Wide>
        ensures { MatchResult result (λ v. (v ≡ joined_to self low) × (length self + length low ≤ 128))
            (λ e. (e.len ≡ length self + length low) × (128 < length self + length low)) }
    {
        let width = u32::from(self.width) + u32::from(low.width);
        if width > 128 {
            return Err(Wide {
                len: u64::from(width),
            });
        }
        Ok(self.above(low))
    }

    /// The value at another width, 1 to 128: extended by 0, or cut.
    pub fn resize(self, width: u8) -> Vec4
        requires { IsWidth width }
        ensures { result ≡ resized false width self }
    {
        Vec4 {
            width,
            ones: self.ones & mask(width),
            unknowns: self.unknowns & mask(width),
        }
    }

    /// The value at another width, 1 to 128: extended by its most significant bit, or cut.
    pub fn sresize(self, width: u8) -> Vec4
        requires { IsWidth width }
        ensures { result ≡ resized true width self }
    {
        let own_width = self.width();
        if width <= own_width {
            self.resize(width)
        } else {
            Vec4::filled(self.top(), width - own_width).above(self)
        }
    }

    /// The value at another width, 1 to 128: extended by its sign where it is `signed`, else by 0, or cut.
    pub fn resize_by_sign(self, signed: bool, width: u8) -> Vec4
        requires { IsWidth width }
        ensures { result ≡ resized signed width self }
    {
        if signed {
            self.sresize(width)
        } else {
            self.resize(width)
        }
    }

    // the value on the left of another, where there is room
    pub(super) fn above(self, low: Vec4) -> Vec4
        requires { length self + length low ≤ 128 }
        ensures { result ≡ joined_to self low }
    {
        Vec4 {
            width: self.width + low.width,
            ones: (self.ones << low.width) | low.ones,
            unknowns: (self.unknowns << low.width) | low.unknowns,
        }
    }

    // the bits from a place within the value on
    pub(super) fn from_place(self, low: u8) -> Vec4
        requires { low < length self }
        ensures { result ≡ drop low self }
    {
        Vec4 {
            width: self.width - low,
            ones: self.ones >> low,
            unknowns: self.unknowns >> low,
        }
    }
}
