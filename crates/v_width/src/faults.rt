// The first fault of expressions that are sized together.

ghost use Rattle.std.specs.Prelude.{◌≡◌, ◌||◌, ◌++◌, [], ◌∷◌, List};
ghost use Rattle.vf_base.specs.Base.{source_place};
ghost use Rattle.v_names.specs.Faults.{BadWidth, WrongKind, Fault, fault_at, first_fault};
ghost use Rattle.v_names.specs.FaultLaws.{first_of};
ghost use Rattle.v_names.specs.Readings.{group_faults};
ghost use Rattle.v_width.specs.Summaries.{found_fault, AreFaults, first_of_group};

use v_names::{Found, Reason, first_with};
use vf_base::Place;

/// What is wrong with expressions that are sized together: a bad width counts only where no name among them is of the wrong kind.
#[derive(Clone, Copy)]
pub struct Faults {
    /// The first fault of what is sized together.
    pub all: Option<Found>,
    /// The first of those that is no bad width.
    pub other: Option<Found>,
    /// The first fault of the parts that are sized apart.
    pub inside: Option<Found>,
    /// Whether a name is of the wrong kind.
    pub wrong_kind: bool,
}

/// The first of two faults that may be there.
fn first(one: Option<Found>, other: Option<Found>) -> Option<Found>
    ensures { found_fault result ≡ first_of (found_fault one) (found_fault other) }
{
    match one {
        None => other,
        Some(found) => match other {
            None => Some(found),
            Some(next) => Some(first_with(Some(found), next)),
        },
    }
}

/// No faults.
pub fn no_faults() -> Faults
    ensures { AreFaults [] [] result }
{
    Faults {
        all: None,
        other: None,
        inside: None,
        wrong_kind: false,
    }
}

/// A bad width.
pub fn bad_width(place: Place) -> Faults
    ensures { AreFaults (fault_at (source_place place) BadWidth ∷ []) [] result }
{
    Faults {
        all: Some(Found {
            place,
            reason: Reason::BadWidth,
        }),
        other: None,
        inside: None,
        wrong_kind: false,
    }
}

/// A name of the wrong kind.
pub fn wrong_kind(place: Place) -> Faults
    ensures { AreFaults (fault_at (source_place place) WrongKind ∷ []) [] result }
{
    let found = Some(Found {
        place,
        reason: Reason::WrongKind,
    });
    Faults {
        all: found,
        other: found,
        inside: None,
        wrong_kind: true,
    }
}

/// Whether one of two tests holds.
fn either(one: bool, other: bool) -> bool
    ensures { result ≡ (one || other) }
{
    if one { true } else { other }
}

/// The faults of two expressions that are sized together.
pub fn together(one: Faults, other: Faults) -> Faults
    ensures { (here inside more_here more_inside : List Fault) → AreFaults here inside one → AreFaults more_here more_inside other → AreFaults (here ++ more_here) (inside ++ more_inside) result }
{
    let all = first(one.all, other.all);
    let kept = first(one.other, other.other);
    let inside = first(one.inside, other.inside);
    let wrong_kind = either(one.wrong_kind, other.wrong_kind);
    Faults {
        all,
        other: kept,
        inside,
        wrong_kind,
    }
}

/// The first fault of a group.
pub fn first_of_group(faults: Faults) -> Option<Found>
    ensures { found_fault result ≡ first_of_group faults.wrong_kind (found_fault faults.all) (found_fault faults.other) (found_fault faults.inside) }
{
    if faults.wrong_kind {
        first(faults.other, faults.inside)
    } else {
        first(faults.all, faults.inside)
    }
}

/// What comes first of what is wrong with expressions that are sized together.
pub fn first_fault(faults: Faults) -> Option<Found>
    ensures { (here inside : List Fault) → AreFaults here inside faults → found_fault result ≡ first_fault (group_faults here inside) }
{
    first_of_group(faults)
}

/// The faults of a group as those of a part that is sized apart.
pub fn apart(faults: Faults) -> Faults
    ensures { (here inside : List Fault) → AreFaults here inside faults → AreFaults [] (group_faults here inside) result }
{
    let inside = first_of_group(faults);
    Faults {
        all: None,
        other: None,
        inside,
        wrong_kind: faults.wrong_kind,
    }
}
