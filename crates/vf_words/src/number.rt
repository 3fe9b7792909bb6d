// The numbers of the command line.

ghost use Rattle.std.specs.Prelude.{◌≡◌};
ghost use Rattle.vf_words.specs.Number.{number_between, is_plain};

/// The number from the least to the most that the word is the decimal text of.
pub(crate) fn number_between(word: &str, least: u32, most: u32) -> Option<u32>
    ensures { result ≡ number_between least most word.now }
{
    let Ok(number) = word.parse::<u32>() else {
        return None;
    };
    if !is_plain(word.as_bytes()) || number < least || most < number {
        return None;
    }
    Some(number)
}

/// Whether a word has neither a sign nor a leading zero.
fn is_plain(word: &[u8]) -> bool
    ensures { result ≡ is_plain word.now }
{
    match word {
        [] => true,
        [only] => *only != b'+',
        [first, ..] => *first != b'+' && *first != b'0',
    }
}
