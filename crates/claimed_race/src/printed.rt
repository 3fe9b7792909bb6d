// Whether an access prints as a text.

ghost use Rattle.std.specs.Prelude.{◌≡◌, ◌≢◌, ℕ, List, [], ◌∷◌, ◌++◌, IfOk, OnOk};
ghost use Rattle.std.specs.Option.{MatchOption};
ghost use Rattle.std.specs.Str.{bytes_eq};
ghost use Rattle.vf_base.specs.Base.{process_number, reported_access};
ghost use Rattle.v_design.specs.PlainDesigns.{design_of};
ghost use Rattle.grade_report.specs.Report.{kind_text, access_text};
ghost use Rattle.claimed_race.specs.Tails.{tail_text};

use cert_text::{ClaimedAccess, prints_access};
use fault_list::{append, append_number};
use std::alloc::Global;
use v_design::Design;
use vf_base::{Access, AccessKind, NoMemory};

/// What stands before the object in the text of an access.
fn head_of(kind: AccessKind) -> &'static [u8]
    ensures { result.now ≡ kind_text kind ++ 32 ∷ [] }
{
    match kind {
        AccessKind::Read => b"read ",
        AccessKind::Write => b"write ",
        AccessKind::Await => b"await ",
        AccessKind::Ended => b"ended ",
        AccessKind::Held => b"held ",
        AccessKind::Settle => b"settle ",
    }
}

/// Writes what stands behind the object in the text of an access, in place of what stood there.
fn write_tail(alloc: Global, tail: &mut Vec<u8>, access: Access) -> Result<(), NoMemory>
    ensures { OnOk result (tail.new.items ≡ tail_text (process_number access.process) access.line) }
{
    tail.clear();
    append(tail, b" p")?;
    append_number(alloc, tail, u64::from(access.process.0))?;
    append(tail, b" l")?;
    append_number(alloc, tail, u64::from(access.line))?;
    Ok(())
}

/// What stands in a text behind another, with which it begins.
fn behind<'t>(text: &'t [u8], head: &[u8]) -> Option<&'t [u8]>
    ensures { MatchOption result ((rest : List ℕ) → text.now ≢ head.now ++ rest) (λ rest. text.now ≡ head.now ++ rest.now) }
{
    text.strip_prefix(head)
}

/// What stands in a text before another, with which it ends.
fn before<'t>(text: &'t [u8], tail: &[u8]) -> Option<&'t [u8]>
    ensures { MatchOption result ((front : List ℕ) → text.now ≢ front ++ tail.now) (λ front. text.now ≡ front.now ++ tail.now) }
{
    text.strip_suffix(tail)
}

/// Whether an access prints as a text; `tail` is room for a part of its own.
pub(crate) fn prints_as(
    alloc: Global,
    design: &Design,
    tail: &mut Vec<u8>,
    access: Access,
    text: &[u8],
) -> Result<bool, NoMemory>
    ensures { IfOk result (λ same. same ≡ bytes_eq (access_text (design_of design.now) (reported_access access)) text.now) }
{
    let Some(rest) = behind(text, head_of(access.kind)) else {
        return Ok(false);
    };
    write_tail(alloc, tail, access)?;
    let Some(object) = before(rest, tail.as_slice()) else {
        return Ok(false);
    };
    let claimed = ClaimedAccess {
        kind: access.kind,
        object,
        process: access.process,
        line: access.line,
    };
    prints_access(alloc, design, access, &claimed)
}
