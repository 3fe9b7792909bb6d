// Numbers in decimal.

ghost use Rattle.std.specs.Prelude.{◌≡◌, ◌≤◌, length};
ghost use Rattle.text_lines.specs.Text.{is_digit, number_after};

/// Whether a byte is a decimal digit.
fn is_digit(byte: u8) -> bool
    ensures { result ≡ is_digit byte }
{
    48 <= byte && byte <= 57
}

/// The number that some digits spell, 0 where there are none; none where a byte is no digit.
///
/// Any number of nineteen digits fits.
pub fn digits_value(word: &[u8]) -> Option<u64>
    requires { length word.now ≤ 19 }
    ensures { result ≡ number_after 0 word.now }
{
    let mut value: u64 = 0;
    for digit in word {
        if !is_digit(*digit) {
            return None;
        }
        value = value * 10 + u64::from(*digit - 48);
    }
    Some(value)
}
