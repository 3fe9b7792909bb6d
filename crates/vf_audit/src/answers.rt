// What an audit answers.

use v_design::Fault;
use vf_base::End;

/// The fault and the end that a valid certificate shows, or the number, from 1, of its first line that fails.
#[derive(Clone, Copy, Debug, PartialEq, Eq)]
pub enum Audited {
    Yes(Fault, End),
    No(u32),
}
