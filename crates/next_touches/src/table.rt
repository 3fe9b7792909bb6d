// What is remembered of a window.

ghost use Rattle.std.specs.Prelude.{◌≡◌, length, IfOk};
ghost use Rattle.next_touches.specs.Touches.{AreUnknown, KnowsTouches};

use crate::stretch::{Stretch, no_stretch};
use good_trace::{Setup, TraceWindow};
use std::alloc::Global;
use v_design::World;
use vf_base::NoMemory;

/// For each object and each process a stretch of moments of a window; the window is named by how many slots of the good first run stand before it and before its end.
#[derive(Drop)]
pub(crate) struct TouchTable {
    pub(crate) before: u64,
    pub(crate) through: u64,
    pub(crate) objects: Vec<Stretch>,
    pub(crate) processes: Vec<Stretch>,
}

/// So many stretches in which nothing is known.
fn unknown(alloc: Global, count: usize) -> Result<Vec<Stretch>, NoMemory>
    ensures { IfOk result (λ stretches. AreUnknown count stretches.items) }
{
    let none = no_stretch();
    let stretches = vec![in alloc; none; count]?;
    Ok(stretches)
}

/// A table for a design, in which nothing is known.
///
/// # Errors
///
/// Want of memory.
pub(crate) fn new_table<N: World>(
    alloc: Global,
    setup: &Setup<'_, N>,
) -> Result<TouchTable, NoMemory>
    ensures { IfOk result (KnowsTouches N.design N.plan) }
{
    let design = setup.design();
    let objects = unknown(alloc, design.objects.as_slice().len())?;
    let processes = unknown(alloc, design.processes.as_slice().len())?;
    Ok(TouchTable {
        before: 0,
        through: 0,
        objects,
        processes,
    })
}

/// Forgets what is known of all.
fn forget(stretches: &mut Vec<Stretch>)
    ensures { AreUnknown (length stretches.old.items) stretches.new.items }
{
    let none = no_stretch();
    'stretches: for place in 0..stretches.len() {
        stretches[place] = none;
    }
}

/// The table is one of a window from now on: what is known of another is forgotten.
pub(crate) fn take_up<N: World>(table: &mut TouchTable, window: &TraceWindow<N>)
    requires { KnowsTouches N.design N.plan table.old }
    ensures before { table.new.before ≡ window.now.before }
    ensures through { table.new.through ≡ window.now.through }
    ensures knows { KnowsTouches N.design N.plan table.new }
{
    let before = window.begins();
    let through = window.ends();
    if table.before == before {
        if table.through == through {
            return;
        }
    }
    forget(&mut table.objects);
    forget(&mut table.processes);
    table.before = before;
    table.through = through;
}
