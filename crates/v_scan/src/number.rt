// The number at the front of a text (IEEE 1364-2001, clause 2.5).

ghost use Rattle.std.specs.Prelude.{◌≡◌, true, not, IfOk, IfSome, IfNone};
ghost use Rattle.v_scan.specs.Bytes as bytes;
ghost use Rattle.v_scan.specs.Numbers as numbers;
ghost use Rattle.v_scan.specs.Reading as read;

use crate::bytes::{Base, Class, after_byte, before, behind, split};
use crate::value::{digits_value, form_of, plain_value, width_of};
use four_value::Vec4;
use std::alloc::Global;
use v_tree::NumberForm;
use vf_base::NoMemory;

/// The sign, the base and the digits of a number, and the bytes behind it.
#[derive(Clone, Copy)]
struct Based<'t> {
    signed: bool,
    base: Base,
    digits: &'t [u8],
    back: &'t [u8],
}

/// The number at the front, none where it is refused, and the bytes behind it.
pub fn number<'t>(
    alloc: Global,
    text: &'t [u8],
) -> Result<(Option<(Vec4, NumberForm)>, &'t [u8]), NoMemory>
    ensures { IfOk result (λ x. read.TellsNumber (read.number_at text.now) x.0 x.1.now) }
{
    let (size, after) = split(Class::Decimal, text);
    let Some(tail) = after_byte(b'\'', behind(Class::Blank, after)) else {
        return Ok((plain_value(size), after));
    };
    let Some(found) = base_and_digits(tail) else {
        return Ok((None, tail));
    };
    let value = value_of(alloc, size, found.signed, found.base, found.digits)?;
    Ok((value, found.back))
}

/// The value of a number with a base.
fn value_of(
    alloc: Global,
    size: &[u8],
    signed: bool,
    base: Base,
    digits: &[u8],
) -> Result<Option<(Vec4, NumberForm)>, NoMemory>
    requires size { bytes.each bytes.goes_in_decimal size.now ≡ true }
    requires digits { numbers.is_digits base digits.now ≡ true }
    ensures { IfOk result (λ value. value ≡ numbers.written_as (numbers.form_of size.now signed) (numbers.value_in (numbers.width_of size.now) base digits.now)) }
{
    let Some(width) = width_of(size) else {
        return Ok(None);
    };
    match digits_value(alloc, base, width, digits)? {
        Some(value) => Ok(Some((value, form_of(size, signed)))),
        None => Ok(None),
    }
}

/// What stands behind the quote of a number, if it has a base and digits.
fn base_and_digits(tail: &[u8]) -> Option<Based<'_>>
    ensures found { IfSome result (λ b. read.IsTail tail.now b.signed b.base b.digits.now b.back.now) }
    ensures none { IfNone result (read.tail_at tail.now ≡ read.NoDigits) }
{
    let (signed, after) = sign(tail);
    let [letter, after @ ..] = after else {
        return None;
    };
    let base = Base::of_letter(*letter)?;
    let text = behind(Class::Blank, after);
    let back = behind_digits(base, text);
    let digits = before(text, back);
    if digits.is_empty() {
        return None;
    }
    Some(Based {
        signed,
        base,
        digits,
        back,
    })
}

/// Whether a sign stands at the front, and the bytes behind it.
fn sign(tail: &[u8]) -> (bool, &[u8])
    ensures signed { result.0 ≡ not (numbers.is_empty (read.sign_at tail.now)) }
    ensures back { result.1.now ≡ read.behind_sign tail.now }
{
    match tail {
        [first, after @ ..] => {
            if *first == b's' || *first == b'S' {
                (true, after)
            } else {
                (false, tail)
            }
        }
        [] => (false, tail),
    }
}

/// The bytes behind the digits of a base.
fn behind_digits(base: Base, text: &[u8]) -> &[u8]
    ensures { result.now ≡ read.behind_digits base text.now }
{
    match text {
        [first, after @ ..] => {
            if base.has_digit(*first) {
                behind(Class::Digits(base), after)
            } else if base.stands_alone(*first) {
                after
            } else {
                text
            }
        }
        [] => text,
    }
}
