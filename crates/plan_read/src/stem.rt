// The part of a word that names an object or a gate.

ghost use Rattle.std.specs.Prelude.{◌≡◌};
ghost use Rattle.plan_read.specs.Stems.{stem, front};

/// The bytes of a word before the first `[`: the name of an object, without an index.
pub fn stem(word: &[u8]) -> &[u8]
    ensures { result.now ≡ stem word.now }
{
    'bytes: for (i, byte) in word.iter().enumerate() {
        if *byte == b'[' {
            return &word[..i];
        }
    }
    word
}

/// The bytes of a word before the last point, none where there is no point: the name of a gate, without a terminal.
pub fn front(word: &[u8]) -> &[u8]
    ensures { result.now ≡ front word.now }
{
    'bytes: for i in (0..word.len()).rev() {
        if word[i] == b'.' {
            return &word[..i];
        }
    }
    &word[..0]
}
