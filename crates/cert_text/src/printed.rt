// Whether an access prints as the line of a race claims it.

ghost use Rattle.std.specs.Prelude.{◌≡◌, IfOk};
ghost use Rattle.std.specs.Str.{bytes_eq};
ghost use Rattle.vf_base.specs.Base.{reported_access};
ghost use Rattle.v_design.specs.PlainDesigns.{design_of};
ghost use Rattle.grade_report.specs.Report.{access_text};
ghost use Rattle.cert_text.specs.Views.{access_said};

use crate::access::ClaimedAccess;
use crate::object::prints_object;
use std::alloc::Global;
use v_design::Design;
use vf_base::{Access, NoMemory};

/// Whether an access prints as a line claims it. The text of its object is made only where its kind, its process and its line are those of the claim.
///
/// # Errors
///
/// Want of memory.
pub fn prints_access(
    alloc: Global,
    design: &Design,
    access: Access,
    claimed: &ClaimedAccess<'_>,
) -> Result<bool, NoMemory>
    ensures { IfOk result (λ same. same ≡ bytes_eq (access_text (design_of design.now) (reported_access access)) (access_said claimed.now)) }
{
    if access.kind != claimed.kind {
        return Ok(false);
    }
    if access.process.0 != claimed.process.0 {
        return Ok(false);
    }
    if access.line != claimed.line {
        return Ok(false);
    }
    prints_object(alloc, design, access.object, claimed.object)
}
