// The value of a number (IEEE 1364-2001, clause 2.5.1).

ghost use Rattle.std.specs.Prelude.{◌≡◌, ◌≤◌, ◌+◌, ◌*◌, ◌%◌, ◌^◌, ◌++◌, true, IfOk, IfSome, IfNone, nat_eq, length, take, replicate};
ghost use Rattle.four_value.specs.Values.{IsWidth, bits_of};
ghost use Rattle.four_value.specs.Bits.{bit_of};
ghost use Rattle.v_scan.specs.Bytes as bytes;
ghost use Rattle.v_scan.specs.Numbers as numbers;

use crate::bytes::{Base, is_unknown_digit};
use four_value::{Bit, Vec4};
use std::alloc::Global;
use v_tree::NumberForm;
use vf_base::NoMemory;

/// The number that decimal digits spell, if it is below 2 to the 128.
pub fn decimal(digits: &[u8]) -> Option<u128>
    requires { bytes.each bytes.goes_in_decimal digits.now ≡ true }
    ensures some { IfSome result (λ n. n ≡ numbers.decimal_number digits.now) }
    ensures none { IfNone result (2 ^ 128 ≤ numbers.decimal_number digits.now) }
{
    let mut number: u128 = 0;
    'digits: for b in digits {
        if *b != b'_' {
            let Some(longer) = with_digit(number, *b - b'0') else {
                return None;
            };
            number = longer;
        }
    }
    Some(number)
}

/// A number with one more decimal digit on its right, if that is below 2 to the 128.
fn with_digit(number: u128, digit: u8) -> Option<u128>
    ensures some { IfSome result (λ n. n ≡ 10 * number + digit) }
    ensures none { IfNone result (2 ^ 128 ≤ 10 * number + digit) }
{
    match number.checked_mul(10) {
        Some(shifted) => shifted.checked_add(u128::from(digit)),
        None => None,
    }
}

/// The size that is spelled, 1 to 128; 32 where there is none.
pub fn width_of(size: &[u8]) -> Option<u8>
    requires { bytes.each bytes.goes_in_decimal size.now ≡ true }
    ensures { result ≡ numbers.width_of size.now }
{
    if size.is_empty() {
        return Some(32);
    }
    match decimal(size) {
        Some(width) => {
            if 1 <= width && width <= 128 {
                Some(width as u8)
            } else {
                None
            }
        }
        None => None,
    }
}

/// The value of a decimal number alone, which is at most 4,294,967,295.
pub fn plain_value(digits: &[u8]) -> Option<(Vec4, NumberForm)>
    requires { bytes.each bytes.goes_in_decimal digits.now ≡ true }
    ensures { result ≡ numbers.plain_value digits.now }
{
    match decimal(digits) {
        Some(number) => {
            if number <= 4_294_967_295 {
                Some((Vec4::from_number(number, 32), NumberForm::Plain))
            } else {
                None
            }
        }
        None => None,
    }
}

/// The value of digits at a width, none where they spell too much.
pub fn digits_value(
    alloc: Global,
    base: Base,
    width: u8,
    digits: &[u8],
) -> Result<Option<Vec4>, NoMemory>
    requires width { IsWidth width }
    requires digits { numbers.is_digits base digits.now ≡ true }
    ensures { IfOk result (λ value. value ≡ numbers.digits_value base width digits.now) }
{
    match base {
        Base::Decimal => Ok(decimal_value(width, digits)),
        Base::Binary => coded_value(alloc, Base::Binary, width, digits),
        Base::Octal => coded_value(alloc, Base::Octal, width, digits),
        Base::Hexadecimal => coded_value(alloc, Base::Hexadecimal, width, digits),
    }
}

/// The value of decimal digits at a width, which is below 2 to the 128.
fn decimal_value(width: u8, digits: &[u8]) -> Option<Vec4>
    requires width { IsWidth width }
    requires digits { numbers.is_digits Base.Decimal digits.now ≡ true }
    ensures { result ≡ numbers.decimal_value width digits.now }
{
    match digits {
        [first, ..] => {
            if is_unknown_digit(*first) {
                return Some(Vec4::filled(unknown_bit(*first), width));
            }
            match decimal(digits) {
                Some(number) => Some(Vec4::from_number(number, width)),
                None => None,
            }
        }
        [] => None,
    }
}

/// The value at a width of digits that spell at most 256 bits.
fn coded_value(
    alloc: Global,
    base: Base,
    width: u8,
    digits: &[u8],
) -> Result<Option<Vec4>, NoMemory>
    requires { IsWidth width }
    ensures { IfOk result (λ value. value ≡ numbers.coded_value base width digits.now) }
{
    let mut bits = digits_bits(alloc, base, digits)?;
    if bits.len() > 256 {
        return Ok(None);
    }
    push_copies(&mut bits, fill_of(digits), width)?;
    Ok(Some(low_bits(&bits, width)))
}

/// The value of the `width` low bits.
fn low_bits(bits: &[Bit], width: u8) -> Vec4
    requires width { IsWidth width }
    requires enough { width ≤ length bits.now }
    ensures { result ≡ take width bits.now }
{
    Vec4::from_bits(&bits[..width as usize]).unwrap()
}

/// How a number with a base is written.
pub fn form_of(size: &[u8], signed: bool) -> NumberForm
    ensures { result ≡ numbers.form_of size.now signed }
{
    match (size.is_empty(), signed) {
        (true, false) => NumberForm::Unsized,
        (true, true) => NumberForm::UnsizedSigned,
        (false, false) => NumberForm::Sized,
        (false, true) => NumberForm::SizedSigned,
    }
}

/// The bits that digits spell, the least significant first.
fn digits_bits(alloc: Global, base: Base, digits: &[u8]) -> Result<Vec<Bit>, NoMemory>
    ensures { IfOk result (λ bits. bits.items ≡ numbers.digits_bits base digits.now) }
{
    let mut bits = Vec::new(alloc);
    let mut at = digits.len();
    'digits: while at > 0 {
        at -= 1;
        push_digit(&mut bits, base, digits[at])?;
    }
    Ok(bits)
}

/// Puts the bits of a digit behind others.
fn push_digit(bits: &mut Vec<Bit>, base: Base, digit: u8) -> Result<(), NoMemory>
    ensures { IfOk result (λ _. bits.new.items ≡ bits.old.items ++ numbers.digit_bits base digit) }
{
    if digit == b'_' {
        return Ok(());
    }
    if is_unknown_digit(digit) {
        return push_copies(bits, unknown_bit(digit), base.bits_per_digit());
    }
    push_number(bits, digit_number(digit), base.bits_per_digit())
}

/// Puts copies of a bit behind others.
fn push_copies(bits: &mut Vec<Bit>, bit: Bit, count: u8) -> Result<(), NoMemory>
    ensures { IfOk result (λ _. bits.new.items ≡ bits.old.items ++ replicate count bit) }
{
    'copies: for _ in 0..count {
        bits.push(bit)?;
    }
    Ok(())
}

/// Puts the low bits of a number behind others, the least significant first.
fn push_number(bits: &mut Vec<Bit>, number: u8, count: u8) -> Result<(), NoMemory>
    ensures { IfOk result (λ _. bits.new.items ≡ bits.old.items ++ bits_of count number) }
{
    let mut rest = number;
    'places: for _ in 0..count {
        bits.push(lowest_bit(rest))?;
        rest /= 2;
    }
    Ok(())
}

/// The least significant bit of a number.
fn lowest_bit(number: u8) -> Bit
    ensures { result ≡ bit_of (nat_eq (number % 2) 1) }
{
    if number % 2 == 1 { Bit::One } else { Bit::Zero }
}

/// The number that a digit spells.
fn digit_number(digit: u8) -> u8
    ensures { result ≡ numbers.digit_number digit }
{
    if digit <= b'9' {
        digit.saturating_sub(b'0')
    } else if digit <= b'F' {
        digit.saturating_sub(55)
    } else {
        digit.saturating_sub(87)
    }
}

/// The bit that an unknown digit spells: `?` is z.
fn unknown_bit(digit: u8) -> Bit
    ensures { result ≡ numbers.unknown_bit digit }
{
    if digit == b'x' || digit == b'X' {
        Bit::X
    } else {
        Bit::Z
    }
}

/// What a number is extended by on its left.
fn fill_of(digits: &[u8]) -> Bit
    ensures { result ≡ numbers.fill_of digits.now }
{
    match digits {
        [first, ..] => {
            if is_unknown_digit(*first) {
                unknown_bit(*first)
            } else {
                Bit::Zero
            }
        }
        [] => Bit::Zero,
    }
}
