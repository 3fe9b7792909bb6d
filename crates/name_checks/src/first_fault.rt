// The first of the faults that are found.

ghost use Rattle.std.specs.Prelude.{◌≡◌, None, Some, option_map};
ghost use Rattle.v_names.specs.FaultLaws.{first_of};
ghost use Rattle.v_names.specs.FaultViews.{fault_of};

use std::marker::Model;
use v_names::{Found, first_with};

/// The fault that comes first of those that were noted so far, if there are any: by its place, and at one place by its reason.
#[derive(Drop)]
pub struct FirstFault {
    found: Option<Found>,
}

impl Model for FirstFault {
    ghost use Rattle.std.specs.Prelude.{Option, option_map};
    ghost use Rattle.v_names.specs.Faults.{Fault};
    ghost use Rattle.v_names.specs.FaultViews.{fault_of};

    ghost Value = { Option Fault };

    ghost view = { λ f. option_map fault_of f.found };
}

impl FirstFault {
    /// No fault yet.
    pub fn new() -> FirstFault
        ensures { result ≡ None }
    {
        FirstFault { found: None }
    }

    /// The first fault.
    pub fn found(&self) -> Option<Found>
        ensures { option_map fault_of result ≡ self.now }
    {
        self.found
    }

    /// Notes a fault.
    pub fn note(&mut self, found: Found)
        ensures { self.new ≡ first_of self.old (Some (fault_of found)) }
    {
        self.found = Some(first_with(self.found, found));
    }

    /// Notes a fault that may be there.
    pub fn note_if_some(&mut self, found: Option<Found>)
        ensures { self.new ≡ first_of self.old (option_map fault_of found) }
    {
        if let Some(found) = found {
            self.note(found);
        }
    }
}
