// What is printed of a case that differs.

use crate::case::Answer;
use crate::latin::text_of;
use std::alloc::Global;
use std::io;

/// The most bytes of an output that are shown.
const MOST_SHOWN: usize = 2_000;

/// Prints an answer under a title.
fn print_answer(rt: &impl Print, alloc: Global, title: &str, answer: &Answer) -> io::Result<()> {
    let status = answer.status;
    let message = text_of(alloc, &answer.message, MOST_SHOWN)?;
    let output = text_of(alloc, &answer.output, MOST_SHOWN)?;
    println!(rt; "> {title} {status} {message}")?;
    println!(rt; "{output}")
}

/// Prints the words of a run.
fn print_words(rt: &impl Print, words: &[String]) -> io::Result<()> {
    print!(rt; "> words")?;
    for word in words {
        print!(rt; " {word}")?;
    }
    println!(rt;)
}

/// Prints a case whose answer differs from what is wanted: its name, its words and both answers.
pub fn print_difference(
    rt: &impl Print,
    alloc: Global,
    name: &str,
    words: &[String],
    wanted: &Answer,
    got: &Answer,
) -> io::Result<()> {
    println!(rt; "--- {name}")?;
    print_words(rt, words)?;
    print_answer(rt, alloc, "wanted", wanted)?;
    print_answer(rt, alloc, "got", got)
}
