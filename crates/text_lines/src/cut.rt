// The lines of a text and the words of a line.

ghost use Rattle.std.specs.Prelude.{◌≡◌, ◌<◌, ◌≤◌, ◌++◌, ◌∷◌, ◌+◌, [], IfOk, OnOk, length, take, true, false, slice_index};
ghost use Rattle.std.specs.List.{AllByRecursion};
ghost use Rattle.text_lines.specs.Text.{lines_of, words_of, is_line_feed, is_space, is_word, is_hash, before_comment, without_return, kept};
ghost use Rattle.text_lines.specs.Plain.{plain_texts};

use std::alloc::Global;
use vf_base::NoMemory;

/// Whether a byte ends a line.
fn is_line_feed(byte: u8) -> bool
    ensures { result ≡ is_line_feed byte }
{
    byte == b'\n'
}

/// Whether a byte parts words.
fn is_space(byte: u8) -> bool
    ensures { result ≡ is_space byte }
{
    byte == b' ' || byte == b'\t'
}

/// Whether a byte begins a comment.
fn is_hash(byte: u8) -> bool
    ensures { result ≡ is_hash byte }
{
    byte == b'#'
}

/// Whether a piece between spaces has bytes.
fn is_word(bytes: &[u8]) -> bool
    ensures { result ≡ is_word bytes.now }
{
    !bytes.is_empty()
}

/// How many bytes stand before the first line feed.
fn line_length(text: &[u8]) -> usize
    ensures count { result ≤ length text.now }
    ensures line { AllByRecursion (λ b. is_line_feed b ≡ false) (take result text.now) }
    ensures ends { result < length text.now → is_line_feed (slice_index text.now result) ≡ true }
{
    for (i, byte) in text.iter().enumerate() {
        if is_line_feed(*byte) {
            return i;
        }
    }
    text.len()
}

/// How many bytes stand before the first space.
fn word_length(text: &[u8]) -> usize
    ensures count { result ≤ length text.now }
    ensures word { AllByRecursion (λ b. is_space b ≡ false) (take result text.now) }
    ensures ends { result < length text.now → is_space (slice_index text.now result) ≡ true }
{
    for (i, byte) in text.iter().enumerate() {
        if is_space(*byte) {
            return i;
        }
    }
    text.len()
}

/// The text after its first piece and the byte behind it.
fn rest_of(text: &[u8], count: usize) -> &[u8]
    requires { count < length text.now }
    ensures { text.now ≡ take count text.now ++ slice_index text.now count ∷ result.now }
{
    &text[count + 1..]
}

/// The text's first piece.
fn piece(text: &[u8], count: usize) -> &[u8]
    requires { count ≤ length text.now }
    ensures { result.now ≡ take count text.now }
{
    &text[..count]
}

/// A line without the carriage return before its line feed.
fn without_return(line: &[u8]) -> &[u8]
    ensures { result.now ≡ without_return line.now }
{
    if !line.is_empty() && line[line.len() - 1] == b'\r' {
        piece(line, line.len() - 1)
    } else {
        line
    }
}

/// A line's text before its comment.
fn before_comment(line: &[u8]) -> &[u8]
    ensures { result.now ≡ before_comment line.now }
{
    for (i, byte) in line.iter().enumerate() {
        if is_hash(*byte) {
            return piece(line, i);
        }
    }
    line
}

/// Adds a line.
fn push_line<'t>(lines: &mut Vec<&'t [u8]>, line: &'t [u8]) -> Result<(), NoMemory>
    ensures added { OnOk result (plain_texts lines.new.items ≡ plain_texts lines.old.items ++ line.now ∷ []) }
    ensures one { OnOk result (length lines.new.items ≡ length lines.old.items + 1) }
{
    lines.push(line)?;
    Ok(())
}

/// Adds a piece that has bytes.
fn push_word<'t>(words: &mut Vec<&'t [u8]>, piece: &'t [u8]) -> Result<(), NoMemory>
    ensures added { OnOk result (plain_texts words.new.items ≡ plain_texts words.old.items ++ kept piece.now) }
    ensures most { OnOk result (length words.new.items ≤ length words.old.items + length piece.now) }
{
    if is_word(piece) {
        words.push(piece)?;
    }
    Ok(())
}

/// The lines of a text.
pub fn lines<'t>(alloc: Global, text: &'t [u8]) -> Result<Vec<&'t [u8]>, NoMemory>
    ensures lines { IfOk result (λ lines. plain_texts lines.items ≡ lines_of text.now) }
    ensures few { IfOk result (λ lines. length lines.items ≤ length text.now) }
{
    let mut lines = Vec::new(alloc);
    let mut rest = text;
    'lines: while line_length(rest) < rest.len() {
        let count = line_length(rest);
        if count < rest.len() {
            push_line(&mut lines, without_return(piece(rest, count)))?;
            rest = rest_of(rest, count);
        }
    }
    push_word(&mut lines, rest)?;
    Ok(lines)
}

/// The words of a line, in place of those that stood there.
pub fn words<'t>(words: &mut Vec<&'t [u8]>, line: &'t [u8]) -> Result<(), NoMemory>
    ensures { OnOk result (plain_texts words.new.items ≡ words_of line.now) }
{
    words.clear();
    let mut rest = before_comment(line);
    'pieces: while word_length(rest) < rest.len() {
        let count = word_length(rest);
        if count < rest.len() {
            push_word(words, piece(rest, count))?;
            rest = rest_of(rest, count);
        }
    }
    push_word(words, rest)?;
    Ok(())
}
