// How a run of the program ends.

ghost use Rattle.std.specs.Prelude.{◌≡◌};
ghost use Rattle.vf_status.specs.Status.{number_of};

use elaborate::ElabFault;
use plan_read::PlanFault;
use response_text::ResponseFault;
use v_parse::ParseFault;
use v_scan::ScanFault;

/// A file of a form.
#[derive(Clone, Copy, Debug, PartialEq, Eq)]
pub enum Which {
    Design,
    Plan,
    Response,
    Cert,
}

/// Why a design, a plan or a response is refused; never for a text's length or for want of memory.
#[derive(Clone, Copy, Debug, PartialEq, Eq)]
pub enum Refusal {
    /// The design's text has no tokens.
    Scan(ScanFault),
    /// The tokens spell no unit.
    Parse(ParseFault),
    /// The unit has no flat design.
    Elab(ElabFault),
    /// The plan isn't defined over the design.
    Plan(PlanFault),
    /// The response isn't one to the plan.
    Response(ResponseFault),
    /// The dictionary of the design and the plan would be too large: strobes times watched bits and sixteen, times faults.
    TooLarge(u64),
    /// The plan lists fewer faults than this place, from 1.
    NoFault(u32),
}

/// How a run of the program ends.
#[derive(Clone, Copy, Debug, PartialEq, Eq)]
pub enum Status {
    /// The whole output was put.
    Done,
    /// The design, the plan or the response is refused.
    Refused(Refusal),
    /// The words are of no form.
    Usage,
    /// A file wasn't read.
    ReadFault(Which),
    /// The output wasn't put whole.
    WriteFault,
    /// Want of memory.
    NoMemory,
    /// The good machine takes too many steps in the slot of this time.
    GoodLoop(u64),
    /// A file has more bytes than it may have.
    TooLong(Which),
}

/// The number with which the program ends.
pub fn code(status: &Status) -> u8
    ensures { result ≡ number_of status.now }
{
    match status {
        Status::Done => 0,
        Status::Refused(_) => 1,
        Status::Usage => 2,
        Status::ReadFault(_) => 3,
        Status::WriteFault => 4,
        Status::NoMemory => 5,
        Status::GoodLoop(_) => 6,
        Status::TooLong(_) => 7,
    }
}
