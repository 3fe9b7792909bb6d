// What a line behind the claim says.

ghost use Rattle.std.specs.Prelude.{◌≡◌, ◌∷◌, ◌++◌, [], codes};
ghost use Rattle.std.specs.Str.{bytes_eq};
ghost use Rattle.cert_laws.specs.Valid.{line_by, line_of, slot_line, phase_line};
ghost use Rattle.cert_text.specs.Views.{cert_line_said};

use crate::number::number;
use crate::parts::cut;

/// A line of a run.
#[derive(Clone, Copy, PartialEq, Eq, Debug)]
pub enum RunLine {
    /// The slot of a time begins with its first phase.
    Slot(u64),
    /// The phase of a number of the slot begins, counted from 1.
    Phase(u64),
    /// A process takes so many steps.
    Steps(u64, u64),
    /// So many nonblocking updates of a process are made.
    Updates(u64, u64),
}

/// A line of a certificate behind its first two.
#[derive(Clone, Copy, PartialEq, Eq, Debug)]
pub enum CertLine {
    /// The good machine's run follows.
    Good,
    /// The faulty machine's run follows.
    Faulty,
    /// A line of the run.
    Run(RunLine),
    /// The certificate ends.
    End,
}

/// Whether a line is the first one of a certificate.
pub fn is_head(line: &[u8]) -> bool
    ensures { result ≡ bytes_eq line.now (codes "vfault cert 1") }
{
    line == b"vfault cert 1".as_slice()
}

/// The line of one part.
fn line_of_one(word: &[u8]) -> Option<CertLine>
    ensures { cert_line_said result ≡ line_by (word.now ∷ []) }
{
    if word == b"good".as_slice() {
        Some(CertLine::Good)
    } else if word == b"faulty".as_slice() {
        Some(CertLine::Faulty)
    } else if word == b"end".as_slice() {
        Some(CertLine::End)
    } else {
        None
    }
}

/// The line of two parts.
fn line_of_two(word: &[u8], numeral: &[u8]) -> Option<CertLine>
    ensures { cert_line_said result ≡ line_by (word.now ∷ numeral.now ∷ []) }
{
    if word == b"slot".as_slice() {
        let time = number(numeral)?;
        Some(CertLine::Run(RunLine::Slot(time)))
    } else if word == b"phase".as_slice() {
        let phase = number(numeral)?;
        Some(CertLine::Run(RunLine::Phase(phase)))
    } else {
        None
    }
}

/// The line of three parts.
fn line_of_three(word: &[u8], process: &[u8], count: &[u8]) -> Option<CertLine>
    ensures { cert_line_said result ≡ line_by (word.now ∷ process.now ∷ count.now ∷ []) }
{
    if word == b"p".as_slice() {
        let process = number(process)?;
        let count = number(count)?;
        Some(CertLine::Run(RunLine::Steps(process, count)))
    } else if word == b"u".as_slice() {
        let process = number(process)?;
        let count = number(count)?;
        Some(CertLine::Run(RunLine::Updates(process, count)))
    } else {
        None
    }
}

/// What a line behind the claim says; None of a line of no form. It takes no memory.
pub fn read_cert_line(line: &[u8]) -> Option<CertLine>
    ensures { cert_line_said result ≡ line_of line.now }
{
    let (word, rest) = cut(b' ', line);
    let Some(rest) = rest else {
        return line_of_one(word);
    };
    let (first, rest) = cut(b' ', rest);
    let Some(rest) = rest else {
        return line_of_two(word, first);
    };
    let (second, rest) = cut(b' ', rest);
    match rest {
        None => line_of_three(word, first, second),
        Some(_) => None,
    }
}
