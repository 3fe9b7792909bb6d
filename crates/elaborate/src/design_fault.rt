// Why a text has no design.

ghost use Rattle.std.specs.Prelude.{◌≡◌};
ghost use Rattle.elaborate.specs.Meanings as meanings;

use crate::ElabFault;
use thiserror::Error;
use v_parse::ParseFault;
use v_scan::ScanFault;

/// Why a text has no design: what is wrong with its tokens, else with what they spell, else with the design itself.
#[derive(Clone, Copy, Debug, PartialEq, Eq, Error)]
pub enum DesignFault {
    /// The text has no tokens; never for want of memory.
    #[error("the text has no tokens")]
    Scan(ScanFault),
    /// The tokens spell no unit; never for want of memory.
    #[error("the tokens spell no unit")]
    Parse(ParseFault),
    /// The unit has no flat design; never for want of memory.
    #[error("the unit has no flat design")]
    Elab(ElabFault),
    #[error("out of memory")]
    NoMemory,
}

/// The fault of a text that has no tokens.
pub(crate) fn scan_fault(fault: ScanFault) -> DesignFault
    ensures { result ≡ meanings.scan_fault fault }
{
    match fault {
        ScanFault::NoMemory => DesignFault::NoMemory,
        told => DesignFault::Scan(told),
    }
}

/// The fault of a text whose tokens spell no unit.
pub(crate) fn parse_fault(fault: ParseFault) -> DesignFault
    ensures { result ≡ meanings.parse_fault fault }
{
    match fault {
        ParseFault::NoMemory => DesignFault::NoMemory,
        told => DesignFault::Parse(told),
    }
}

/// The fault of a text whose unit has no design.
pub(crate) fn elab_fault(fault: ElabFault) -> DesignFault
    ensures { result ≡ meanings.elab_fault fault }
{
    match fault {
        ElabFault::NoMemory => DesignFault::NoMemory,
        told => DesignFault::Elab(told),
    }
}
