// Numbers in decimal without leading zeros.

ghost use Rattle.std.specs.Prelude.{◌≡◌, ◌≤◌, ◌+◌, ◌-◌, ◌*◌, ◌<◌, ◌^◌, nat_eq, slice_index};
ghost use Rattle.std.specs.Option.{SomeIff};
ghost use Rattle.cert_laws.specs.Claims.{number_within, lettered, most_long, most_short};

use text_lines::digits_value;

/// The number of 64 bits that one more digit makes of a number.
fn with_digit(tens: u64, digit: u8) -> Option<u64>
    ensures { SomeIff result ((48 ≤ digit) × (digit ≤ 57) × (tens * 10 + (digit - 48) < 2 ^ 64)) (tens * 10 + (digit - 48)) }
{
    if digit < 48 {
        return None;
    }
    if 57 < digit {
        return None;
    }
    let Some(all) = tens.checked_mul(10) else {
        return None;
    };
    all.checked_add(u64::from(digit - 48))
}

/// Whether some digits begin with a zero.
fn begins_with_zero(digits: &[u8]) -> bool
    ensures { result ≡ nat_eq (slice_index digits.now 0) 48 }
{
    match digits {
        [] => false,
        [first, ..] => *first == b'0',
    }
}

/// The number of 64 bits that a word spells.
pub fn number(word: &[u8]) -> Option<u64>
    ensures { result ≡ number_within most_long word.now }
{
    let Some((last, front)) = word.split_last() else {
        return None;
    };
    if front.len() > 19 {
        return None;
    }
    if begins_with_zero(front) {
        return None;
    }
    let Some(tens) = digits_value(front) else {
        return None;
    };
    with_digit(tens, *last)
}

/// The number of 32 bits that a word spells.
pub fn short_number(word: &[u8]) -> Option<u32>
    ensures { result ≡ number_within most_short word.now }
{
    let Some(number) = number(word) else {
        return None;
    };
    if u64::from(u32::MAX) < number {
        return None;
    }
    Some(number as u32)
}

/// The number of 32 bits that a word spells behind a letter.
pub fn lettered(letter: u8, word: &[u8]) -> Option<u32>
    ensures { result ≡ lettered letter most_short word.now }
{
    let Some((first, digits)) = word.split_first() else {
        return None;
    };
    if *first != letter {
        return None;
    }
    short_number(digits)
}
