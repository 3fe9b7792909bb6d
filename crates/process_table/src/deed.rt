// What a step and a turn did.

ghost use Rattle.std.specs.Prelude.{◌≡◌};
ghost use Rattle.std.specs.Option.{option_map};
ghost use Rattle.v_design.specs.Plain.{update_of};
ghost use Rattle.process_code.specs.RunEnds.{act_by};
ghost use Rattle.process_table.specs.Deeds.{written_by};
ghost use Rattle.process_table.specs.Known.{told_act};

use process_code::StepAct;
use v_design::{Due, Update};
use vf_base::ObjectId;

/// What a step did to an object.
#[derive(Clone, Copy, Debug)]
pub enum Act {
    /// It read an object.
    Read(ObjectId),
    /// It wrote some bits of an object.
    Write(Update),
}

/// What a step did: the line of its statement, what it did to an object, if it touched one, the update that it appended, if it did, whether it began a wait, and
/// whether its process is still ready; where it isn't, the step ended the process's run.
#[derive(Clone, Copy, Debug)]
pub struct Stepped {
    pub line: u32,
    pub act: Option<Act>,
    pub later: Option<Due>,
    pub waits: bool,
    pub ready: bool,
}

impl Stepped {
    /// The update that the step wrote, if it did.
    pub fn write(&self) -> Option<Update>
        ensures { option_map update_of result ≡ written_by self.now.act }
    {
        match self.act {
            Some(Act::Write(update)) => Some(update),
            Some(Act::Read(_)) => None,
            None => None,
        }
    }

    /// The step's act, as a step of a run keeps it.
    pub fn kept_act(&self) -> StepAct
        ensures { act_by result ≡ told_act self.now.act self.now.later }
    {
        match self.act {
            Some(Act::Read(object)) => StepAct::Read(object),
            Some(Act::Write(update)) => StepAct::Write(update),
            None => match self.later {
                Some(due) => StepAct::Append(due),
                None => StepAct::Inner,
            },
        }
    }
}

/// A turn between two phases: postponed processes become ready, updates that are due are activated, or time moves on, in steps.
#[derive(Clone, Copy, PartialEq, Eq, Debug)]
pub enum TableTurn {
    Postponed,
    Updates,
    Time(u64),
}
