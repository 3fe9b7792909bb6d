// Bits of words.

ghost use Rattle.std.specs.Prelude.{◌≡◌, ℕ, ◌*◌, ◌<◌, ◌≤◌, ◌^◌, length, get_or, vec_len};
ghost use Rattle.number_set.specs.Members.{bit_is_set, is_set, IsFirstFrom};

/// The first bit of a word that is set and not before a place.
fn first_bit(word: u64, from: u32) -> Option<u32>
    requires { from < 64 }
    ensures { IsFirstFrom (bit_is_set word) 64 from result }
{
    let rest = word >> from;
    if rest == 0 {
        return None;
    }
    Some(from + rest.trailing_zeros())
}

/// The first bit of the words before a place that is set and not before another.
pub(crate) fn first_set(words: &[u64], from: usize, past: usize) -> Option<usize>
    requires fits { 64 * length words.now < 2 ^ 63 }
    requires within { past ≤ length words.now }
    ensures { IsFirstFrom (is_set words.now) (64 * past) from result }
{
    let first = from / 64;
    if first >= past {
        return None;
    }
    if let Some(bit) = first_bit(words[first], (from % 64) as u32) {
        return Some(first * 64 + bit as usize);
    }
    'words: for place in first + 1..past {
        if let Some(bit) = first_bit(words[place], 0) {
            return Some(place * 64 + bit as usize);
        }
    }
    None
}

/// Clears all words, of which those outside two places are clear.
pub(crate) fn clear_words(words: &mut Vec<u64>, first: usize, past: usize)
    requires within { past ≤ vec_len words.old }
    requires below { (place : ℕ) → place < first → get_or words.old.items place 0 ≡ 0 }
    requires above { (place : ℕ) → past ≤ place → get_or words.old.items place 0 ≡ 0 }
    ensures same { vec_len words.new ≡ vec_len words.old }
    ensures clear { (place : ℕ) → get_or words.new.items place 0 ≡ 0 }
{
    'words: for place in first..past {
        words[place] = 0;
    }
}
