// The text of a claimed access.

ghost use Rattle.std.specs.Prelude.{◌≡◌, IfOk};
ghost use Rattle.grade_report.specs.Report.{kind_text};
ghost use Rattle.cert_text.specs.Views.{access_said};

use cert_text::ClaimedAccess;
use fault_list::{append, append_number};
use std::alloc::Global;
use vf_base::{AccessKind, NoMemory};

/// The word of an access.
fn kind_word(kind: AccessKind) -> &'static [u8]
    ensures { result.now ≡ kind_text kind }
{
    match kind {
        AccessKind::Read => b"read",
        AccessKind::Write => b"write",
        AccessKind::Await => b"await",
        AccessKind::Ended => b"ended",
        AccessKind::Held => b"held",
        AccessKind::Settle => b"settle",
    }
}

/// The text of an access, as the line of a race claims it.
pub(crate) fn access_text(alloc: Global, access: &ClaimedAccess<'_>) -> Result<Vec<u8>, NoMemory>
    ensures { IfOk result (λ text. text.items ≡ access_said access.now) }
{
    let mut text = Vec::new(alloc);
    append(&mut text, kind_word(access.kind))?;
    append(&mut text, b" ")?;
    append(&mut text, access.object)?;
    append(&mut text, b" p")?;
    append_number(alloc, &mut text, u64::from(access.process.0))?;
    append(&mut text, b" l")?;
    append_number(alloc, &mut text, u64::from(access.line))?;
    Ok(text)
}
