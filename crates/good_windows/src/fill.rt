// The slots of one more window.

ghost use Rattle.std.specs.Prelude.{◌≡◌, ◌+◌, ◌≤◌, ◌^◌, IfOk, OnOk};
ghost use Rattle.run_trace.specs.Windows.{AreBeside};
ghost use Rattle.good_windows.specs.Next.{steps_of_slots};
ghost use Rattle.good_windows.specs.Stages.{IsUsable, run_through};
ghost use Rattle.good_windows.specs.Puts.{IsFilled};

use crate::slot::{Put, next_within, put_slot};
use crate::stage::{Stage, stage_by};
use causal_monitor::SlotLog;
use machine::Machine;
use run_trace::RunTrace;
use std::sync::ledger::Ledger;
use v_design::World;
use vf_base::{NoMemory, Steps};

/// How the run goes on, and whether slots were put into the trace since it was closed last.
#[derive(Clone, Copy, PartialEq, Eq, Debug)]
pub struct Filled {
    pub stage: Stage,
    pub some: bool,
}

/// Runs slots of the good first run, up to its plan's end, and puts them into the trace until the window is full or no further slot is one of a window. The memory of
/// `log` is used for each slot's.
///
/// # Errors
///
/// Want of memory.
fn fill<'s, 'd, N: World, L: Ledger>(
    end: u64,
    machine: &mut Machine<'d>,
    run: &mut RunTrace<'s, 'd, N>,
    log: &mut SlotLog,
    steps: &mut Steps<L>,
) -> Result<Filled, NoMemory>
    requires end { N.plan.end ≡ end }
    requires limit { N.plan.end ≤ 2 ^ 63 }
    requires usable { IsUsable N.design N.plan machine.old run.old.trace Stage.Open }
    requires beside { AreBeside run.old }
    ensures filled { IfOk result (λ filled. IsFilled N.design N.plan run.old.trace.closed machine.new run.new.trace filled) }
    ensures beside { OnOk result (AreBeside run.new) }
    ensures ticks { IfOk result (λ filled. steps.new + steps_of_slots N.design N.plan run.old.trace.pushed ≤
        steps.old + steps_of_slots N.design N.plan (run_through run.new.trace.pushed filled.stage)) }
{
    let mut some = false;
    let mut next = next_within(machine, end);
    'slots: while let Some(time) = next {
        let put = put_slot(machine, run, log, time, steps)?;
        match put {
            Put::Looped => {
                return Ok(Filled {
                    stage: Stage::Looped(time),
                    some,
                });
            }
            Put::Raced(pair) => {
                return Ok(Filled {
                    stage: Stage::Raced(pair),
                    some: true,
                });
            }
            Put::Full => {
                return Ok(Filled {
                    stage: stage_by(next_within(machine, end)),
                    some: true,
                });
            }
            Put::Room => {}
        }
        some = true;
        next = next_within(machine, end);
    }
    Ok(Filled {
        stage: Stage::Through,
        some,
    })
}

/// The same, where the run may go on.
///
/// # Errors
///
/// Want of memory.
pub(crate) fn go_on<'s, 'd, N: World, L: Ledger>(
    end: u64,
    stage: Stage,
    machine: &mut Machine<'d>,
    run: &mut RunTrace<'s, 'd, N>,
    log: &mut SlotLog,
    steps: &mut Steps<L>,
) -> Result<Filled, NoMemory>
    requires end { N.plan.end ≡ end }
    requires limit { N.plan.end ≤ 2 ^ 63 }
    requires usable { IsUsable N.design N.plan machine.old run.old.trace stage }
    requires beside { AreBeside run.old }
    ensures filled { IfOk result (λ filled. IsFilled N.design N.plan run.old.trace.closed machine.new run.new.trace filled) }
    ensures beside { OnOk result (AreBeside run.new) }
    ensures ticks { IfOk result (λ filled. steps.new + steps_of_slots N.design N.plan (run_through run.old.trace.pushed stage) ≤
        steps.old + steps_of_slots N.design N.plan (run_through run.new.trace.pushed filled.stage)) }
{
    if let Stage::Open = stage {
        let filled = fill(end, machine, run, log, steps)?;
        return Ok(filled);
    }
    Ok(Filled { stage, some: false })
}
