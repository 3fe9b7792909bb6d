// Bytes as text, one character a byte.

use std::alloc::{AllocError, Global};

/// The bytes that the characters stand for; none where one of them stands for no byte.
pub fn bytes_of(alloc: Global, text: &str) -> Result<Option<Vec<u8>>, AllocError> {
    let mut bytes = Vec::new(alloc);
    for character in text.chars() {
        let Ok(byte) = u8::try_from(u32::from(character)) else {
            return Ok(None);
        };
        bytes.push(byte)?;
    }
    Ok(Some(bytes))
}

/// The text in which each of the first bytes, at most so many, is a character.
pub fn text_of(alloc: Global, bytes: &[u8], most: usize) -> Result<String, AllocError> {
    let mut text = String::new(alloc);
    for byte in bytes.iter().take(most) {
        text.push(char::from(*byte))?;
    }
    Ok(text)
}
