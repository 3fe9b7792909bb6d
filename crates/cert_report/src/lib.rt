//! The outputs on certificates: the certificate of a listed fault, and what the audit of a certificate finds.
//!
//! The place of a fault in a plan's list means one certificate, or one reason why there is none: no fault of that place, or a loop of the good machine
//! (`specs/Certificates`). `certify_output` answers exactly this, or wants memory; the line in it holds of every legal order of events (IEEE 1364-2001,
//! clause 5), and its text is read back as a valid certificate. `audit_output` answers `yes` and the second line where no line of a certificate fails, and
//! else the number of the first that does; what a `yes` says holds of every legal order (`specs/Audits`). The formats are this program's own.
#![tactic(auto)]

mod audit;
mod certify;
mod fault;

pub use audit::{MAX_CERT_BYTES, audit_output};
pub use certify::certify_output;
pub use fault::CertifyFault;
