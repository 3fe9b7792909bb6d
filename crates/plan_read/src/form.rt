// What a line's words say.

ghost use Rattle.std.specs.Prelude.{◌≡◌, ◌∷◌, []};
ghost use Rattle.text_lines.specs.Plain.{plain_texts};
ghost use Rattle.plan_read.specs.Forms.{number_of, end_line, strobe_line, strobes_line, fault_line, faults_line, line_of};
ghost use Rattle.plan_read.specs.Plain.{plain_line};

use crate::row::Row;
use text_lines::digits_value;

/// What a line says. A single strobe is a row of one.
#[derive(Clone, Copy, Debug)]
pub enum Line<'t> {
    Empty,
    Ends(u64),
    Watches(&'t [u8]),
    Strobes(Row),
    Lists(&'t [u8], bool),
    ListsAll,
    Formless,
}

/// A number of 1 to 13 digits.
fn number(word: &[u8]) -> Option<u64>
    ensures { result ≡ number_of word.now }
{
    if word.is_empty() || word.len() > 13 {
        return None;
    }
    digits_value(word)
}

/// `end TIME`.
fn end_line(time: Option<u64>) -> Line<'static>
    ensures { plain_line result ≡ end_line time }
{
    match time {
        Some(time) => Line::Ends(time),
        None => Line::Formless,
    }
}

/// `strobe TIME`.
fn strobe_line(time: Option<u64>) -> Line<'static>
    ensures { plain_line result ≡ strobe_line time }
{
    match time {
        Some(time) => Line::Strobes(Row {
            from: time,
            step: 1,
            to: time,
        }),
        None => Line::Formless,
    }
}

/// `strobe FROM STEP TO`.
fn strobes_line(from: Option<u64>, step: Option<u64>, to: Option<u64>) -> Line<'static>
    ensures { plain_line result ≡ strobes_line from step to }
{
    match from {
        None => Line::Formless,
        Some(from) => match step {
            None => Line::Formless,
            Some(step) => match to {
                None => Line::Formless,
                Some(to) => {
                    if 1 <= step && from <= to {
                        Line::Strobes(Row { from, step, to })
                    } else {
                        Line::Formless
                    }
                }
            },
        },
    }
}

/// `fault NAME 0` or `fault NAME 1`.
fn fault_line<'t>(name: &'t [u8], bit: &[u8]) -> Line<'t>
    ensures { plain_line result ≡ fault_line name.entry.now bit.now }
{
    if bit == b"0".as_slice() {
        Line::Lists(name, false)
    } else if bit == b"1".as_slice() {
        Line::Lists(name, true)
    } else {
        Line::Formless
    }
}

/// `faults all`.
fn faults_line(word: &[u8]) -> Line<'static>
    ensures { plain_line result ≡ faults_line word.now }
{
    if word == b"all".as_slice() {
        Line::ListsAll
    } else {
        Line::Formless
    }
}

/// The line of two words.
fn line_of_two<'t>(form: &[u8], word: &'t [u8]) -> Line<'t>
    ensures { plain_line result ≡ line_of (form.now ∷ word.entry.now ∷ []) }
{
    if form == b"watch".as_slice() {
        Line::Watches(word)
    } else if form == b"strobe".as_slice() {
        strobe_line(number(word))
    } else if form == b"end".as_slice() {
        end_line(number(word))
    } else if form == b"faults".as_slice() {
        faults_line(word)
    } else {
        Line::Formless
    }
}

/// What the words of a line say.
pub fn line_of<'t>(words: &[&'t [u8]]) -> Line<'t>
    ensures { plain_line result ≡ line_of (plain_texts words.now) }
{
    match words {
        [] => Line::Empty,
        [_] => Line::Formless,
        [form, word] => line_of_two(form, word),
        [form, name, bit] => {
            if *form == b"fault".as_slice() {
                fault_line(name, bit)
            } else {
                Line::Formless
            }
        }
        [form, from, step, to] => {
            if *form == b"strobe".as_slice() {
                strobes_line(number(from), number(step), number(to))
            } else {
                Line::Formless
            }
        }
        [_, _, _, _, _, ..] => Line::Formless,
    }
}
