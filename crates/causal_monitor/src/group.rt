// Groups of accesses of one object.

ghost use Rattle.std.specs.Prelude.{◌≡◌};
ghost use Rattle.causal_monitor.specs.Links.{is_in_group, group_against};
ghost use Rattle.causal_monitor.specs.Notes.{noted_access};

use crate::noted::Noted;
use vf_base::AccessKind;

/// Accesses of an object: all, those that write it or settle it, or those that look at it.
#[derive(Clone, Copy, PartialEq, Eq, Debug)]
pub(crate) enum Group {
    All,
    Changes,
    Looks,
}

/// Whether an access is of a group.
pub(crate) fn is_in_group(group: Group, noted: &Noted) -> bool
    ensures { result ≡ is_in_group group (noted_access noted.now).act }
{
    match group {
        Group::All => true,
        Group::Changes => is_change(noted),
        Group::Looks => !is_change(noted),
    }
}

/// Whether an access writes or settles its object.
fn is_change(noted: &Noted) -> bool
    ensures { result ≡ is_in_group Group.Changes (noted_access noted.now).act }
{
    match noted.access.kind {
        AccessKind::Read => false,
        AccessKind::Write => true,
        AccessKind::Await => false,
        AccessKind::Ended => false,
        AccessKind::Held => false,
        AccessKind::Settle => true,
    }
}

/// The group that has each access of an object with which an access may conflict.
pub(crate) fn group_against(noted: &Noted) -> Group
    ensures { result ≡ group_against (noted_access noted.now).act }
{
    match noted.access.kind {
        AccessKind::Read => Group::Changes,
        AccessKind::Write => Group::All,
        AccessKind::Await => Group::Changes,
        AccessKind::Ended => Group::Changes,
        AccessKind::Held => Group::Changes,
        AccessKind::Settle => Group::Looks,
    }
}
