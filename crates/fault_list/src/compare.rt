// Whether a word is how a site is spelled; nothing is written down for it.

ghost use Rattle.std.specs.Prelude.{◌≡◌, ◌++◌, ◌∷◌, ℕ, List, false, IfSome, IfNone};
ghost use Rattle.std.specs.Fmt.{decimal};
ghost use Rattle.std.specs.Str.{bytes_eq};
ghost use Rattle.v_design.specs.Sites.{index_text};

/// Whether some digits are a number in decimal.
fn is_decimal(number: u64, digits: &[u8]) -> bool
    ensures { result ≡ bytes_eq (decimal number) digits.now }
{
    let Some((last, front)) = digits.split_last() else {
        return false;
    };
    if u64::from(*last) != 48 + number % 10 {
        return false;
    }
    if number < 10 {
        return front.is_empty();
    }
    is_decimal(number / 10, front)
}

/// Whether a word is an index between brackets, or nothing where the name has no range.
fn is_index_text(ranged: bool, index: u64, word: &[u8]) -> bool
    ensures { result ≡ bytes_eq (index_text ranged index) word.now }
{
    if !ranged {
        return word.is_empty();
    }
    let Some((first, rest)) = word.split_first() else {
        return false;
    };
    let Some((last, digits)) = rest.split_last() else {
        return false;
    };
    if *first != b'[' || *last != b']' {
        return false;
    }
    is_decimal(index, digits)
}

/// Whether a word is a name and what stands behind it.
fn after_name<'w>(name: &[u8], word: &'w [u8]) -> Option<&'w [u8]>
    ensures found { IfSome result (λ rest. (behind : List ℕ) → bytes_eq (name.now ++ behind) word.entry.now ≡ bytes_eq behind rest.now) }
    ensures none { IfNone result ((behind : List ℕ) → bytes_eq (name.now ++ behind) word.entry.now ≡ false) }
{
    match word.strip_prefix(name) {
        Some(rest) => Some(rest),
        None => None,
    }
}

/// Whether a word spells a bit by a name with these declared indexes.
pub fn is_bit_name(name: &[u8], ranged: bool, index: u64, word: &[u8]) -> bool
    ensures { result ≡ bytes_eq (name.now ++ index_text ranged index) word.now }
{
    match after_name(name, word) {
        Some(rest) => is_index_text(ranged, index, rest),
        None => false,
    }
}

/// Whether a word spells an input terminal of a gate.
pub fn is_terminal_name(name: &[u8], terminal: u32, word: &[u8]) -> bool
    ensures { result ≡ bytes_eq (name.now ++ 46 ∷ decimal terminal) word.now }
{
    match after_name(name, word) {
        Some(rest) => is_terminal_text(terminal, rest),
        None => false,
    }
}

/// Whether a word is a point and a terminal's number.
fn is_terminal_text(terminal: u32, word: &[u8]) -> bool
    ensures { result ≡ bytes_eq (46 ∷ decimal terminal) word.now }
{
    let Some((first, digits)) = word.split_first() else {
        return false;
    };
    if *first != b'.' {
        return false;
    }
    is_decimal(u64::from(terminal), digits)
}
