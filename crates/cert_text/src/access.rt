// An access as the line of a race claims it.

ghost use Rattle.std.specs.Prelude.{◌≡◌, IfOk, IfSome, option_map, is_some};
ghost use Rattle.v_design.specs.PlainDesigns.{design_of};
ghost use Rattle.grade_report.specs.Report.{kind_text};
ghost use Rattle.cert_laws.specs.Claims.{is_kind, access_of};
ghost use Rattle.cert_text.specs.Views.{access_said};

use crate::number::lettered;
use crate::object::is_object;
use std::alloc::Global;
use v_design::Design;
use vf_base::{AccessKind, NoMemory, ProcId};

/// An access as a line claims it: what is done to an object, by which process, in which line of the design's text.
#[derive(Clone, Copy, Debug)]
pub struct ClaimedAccess<'t> {
    /// What is done.
    pub kind: AccessKind,
    /// The object, as it prints.
    pub object: &'t [u8],
    /// The process.
    pub process: ProcId,
    /// The line, from 1.
    pub line: u32,
}

/// The kind of access that a word spells.
fn kind_of(word: &[u8]) -> Option<AccessKind>
    ensures found { IfSome result (λ kind. word.now ≡ kind_text kind) }
    ensures some { is_some result ≡ is_kind word.now }
{
    if word == b"read".as_slice() {
        Some(AccessKind::Read)
    } else if word == b"write".as_slice() {
        Some(AccessKind::Write)
    } else if word == b"await".as_slice() {
        Some(AccessKind::Await)
    } else if word == b"ended".as_slice() {
        Some(AccessKind::Ended)
    } else if word == b"held".as_slice() {
        Some(AccessKind::Held)
    } else if word == b"settle".as_slice() {
        Some(AccessKind::Settle)
    } else {
        None
    }
}

/// The access that the words of its kind, its object, its process and its line spell; None where one of them is of no such form.
pub fn access_of<'t>(
    alloc: Global,
    design: &Design,
    kind: &[u8],
    object: &'t [u8],
    process: &[u8],
    line: &[u8],
) -> Result<Option<ClaimedAccess<'t>>, NoMemory>
    ensures { IfOk result (λ access. option_map access_said access ≡ access_of (design_of design.now) kind.now object.entry.now process.now line.now) }
{
    let Some(kind) = kind_of(kind) else {
        return Ok(None);
    };
    let Some(process) = lettered(b'p', process) else {
        return Ok(None);
    };
    let Some(line) = lettered(b'l', line) else {
        return Ok(None);
    };
    if design.processes.as_slice().len() <= process as usize {
        return Ok(None);
    }
    if !is_object(alloc, design, object)? {
        return Ok(None);
    }
    Ok(Some(ClaimedAccess {
        kind,
        object,
        process: ProcId(process),
        line,
    }))
}
