// A design's text and a plan's.

use crate::run::run_text;
use elaborate::{DesignFault, read_design};
use plan_read::{PlanFault, read_plan};
use std::alloc::Global;
use thiserror::Error;
use v_elab::Mode;
use vf_base::NoMemory;

/// Why no turns are taken of two texts.
#[derive(Debug, Drop, Error)]
pub enum CaseFault {
    #[error("{0}")]
    Design(DesignFault),
    #[error("{0}")]
    Plan(PlanFault),
    #[error("out of memory")]
    NoMemory,
}

impl From<NoMemory> for CaseFault {
    fn from(_: NoMemory) -> Self {
        CaseFault::NoMemory
    }
}

/// The lines on the turns of the shards of a design and a plan.
pub fn case_text(alloc: Global, design: &[u8], plan: &[u8]) -> Result<String, CaseFault> {
    let design = match read_design(alloc, design, b"top", Mode::Usual) {
        Ok(design) => design,
        Err(fault) => return Err(CaseFault::Design(fault)),
    };
    let plan = match read_plan(alloc, plan, &design) {
        Ok(plan) => plan,
        Err(fault) => return Err(CaseFault::Plan(fault)),
    };
    Ok(run_text(alloc, &design, &plan)?)
}
