// What is wrong in a text, and which of several faults comes first.

ghost use Rattle.std.specs.Prelude.{◌≡◌, Some, option_map};
ghost use Rattle.v_names.specs.Faults.{rank_of_wrong, is_before, same_place, comes_before};
ghost use Rattle.v_names.specs.FaultLaws.{first_of};
ghost use Rattle.v_names.specs.FaultViews.{wrong_of, fault_of};
ghost use Rattle.vf_base.specs.Base.{source_place};

use vf_base::Place;

/// What is wrong at a place.
#[derive(Clone, Copy, Debug, PartialEq, Eq)]
pub enum Reason {
    /// A name that isn't declared.
    UnknownName,
    /// A name that is declared already.
    DeclaredTwice,
    /// What isn't constant, or isn't a constant of its place.
    NoConstant,
    /// A width of 0 or over the most.
    BadWidth,
    /// A connection or a terminal that doesn't fit.
    BadConnection,
    /// A name that is used as what it isn't.
    WrongKind,
    /// An instance that stands too deep.
    TooDeep,
}

/// A fault with its place.
#[derive(Clone, Copy, Debug, PartialEq, Eq)]
pub struct Found {
    pub place: Place,
    pub reason: Reason,
}

/// Where a reason stands among those of one place.
fn rank(reason: Reason) -> u8
    ensures { result ≡ rank_of_wrong (wrong_of reason) }
{
    match reason {
        Reason::UnknownName => 0,
        Reason::DeclaredTwice => 1,
        Reason::NoConstant => 2,
        Reason::BadWidth => 3,
        Reason::BadConnection => 4,
        Reason::WrongKind => 5,
        Reason::TooDeep => 6,
    }
}

/// Whether a place stands before another in the text.
fn stands_before(one: Place, other: Place) -> bool
    ensures { result ≡ is_before (source_place one) (source_place other) }
{
    one.line < other.line || (one.line == other.line && one.column < other.column)
}

/// Whether two places are one.
fn is_same(one: Place, other: Place) -> bool
    ensures { result ≡ same_place (source_place one) (source_place other) }
{
    one.line == other.line && one.column == other.column
}

/// Whether a fault comes before another: by its place, and at one place by its reason.
fn comes_first(one: Found, other: Found) -> bool
    ensures { result ≡ comes_before (fault_of one) (fault_of other) }
{
    stands_before(one.place, other.place)
        || (is_same(one.place, other.place) && rank(one.reason) < rank(other.reason))
}

/// The fault that comes first of those before, if there are any, and one more: by its place, and at one place by its reason.
pub fn first_with(before: Option<Found>, found: Found) -> Found
    ensures { Some (fault_of result) ≡ first_of (option_map fault_of before) (Some (fault_of found)) }
{
    match before {
        None => found,
        Some(first) => {
            if comes_first(found, first) {
                found
            } else {
                first
            }
        }
    }
}
