//! What the processes of a first run do between its slots (slots and phases by IEEE 1364-2001, clause 5; processes by clause 9).
//!
//! Between two slots no process is ready. So what a process does there is told by its process runs: it does what it did before the slot where it had no run in it,
//! and else what the last of its runs in the slot left it doing. What nonblocking updates it has pending there its runs tell too: of those that it had pending before
//! and those that its runs appended, the ones that are due later than the slot. Nothing else is left to do: no node has work, and each lane is empty. The functions
//! here do nothing when they run; their contracts are the laws.
#![tactic(auto)]

ghost use Rattle.between_slots.specs.Between.{SlotsRest, SlotsLeave, RunsLead};
ghost use Rattle.between_slots.specs.Updates.{StatesRest, StatesHaveWidths, RestingStatesAreTold, SlotsTakeNoTime, UpdatesArePending};

/// At the end of a slot of the first run that isn't hyperactive no event is possible; each process does what its runs of the slot left it doing; and what it does
/// after so many slots of the good first run its runs of the slots since others lead to.
pub fn runs_lead()
    ensures rest { SlotsRest }
    ensures slot { SlotsLeave }
    ensures runs { RunsLead }
{
    order_laws::slots();
    order_laws::nets();
    order_laws::first_run_goes_on();
    machine_laws::slot_goes_on();
    machine_laws::stretches_go_on();
}

/// After so many slots of the good first run a state has a part for each part of the design, each value as wide as its object, no node has work and each lane is empty,
/// so that it is told by its time, its values, and what its processes do and have pending. Its time is that of the last slot, and each process has those updates pending, of all that it had pending
/// some slots before and that its runs appended since then, that are due after that slot.
pub fn updates_pend()
    ensures rest { StatesRest }
    ensures widths { StatesHaveWidths }
    ensures told { RestingStatesAreTold }
    ensures time { SlotsTakeNoTime }
    ensures updates { UpdatesArePending }
{
    order_laws::slots();
    order_laws::nets();
    order_laws::first_run_goes_on();
    machine_laws::slot_goes_on();
    machine_laws::stretches_go_on();
    copy_laws::shared_runs();
    copy_laws::own_runs();
}
