// Blocks that are nodes by themselves.

ghost use Rattle.std.specs.Prelude.{◌≡◌, IfOk};
ghost use Rattle.vf_base.specs.Base.{SourcePlace};
ghost use Rattle.v_tree.specs.Trees.{SourceWaits, EventStatement};
ghost use Rattle.v_tree.specs.Views.{statement_of};
ghost use Rattle.v_comb.specs.Forms.{form_of};
ghost use Rattle.v_elab.specs.declared.Mode.TheVariants.{Usual};
ghost use Rattle.v_elab.specs.Blocks.{block_targets};
ghost use Rattle.v_elab.specs.ReadCounts.{block_reads, reads_beside, some_reads_over};
ghost use Rattle.elab_items.specs.Heres.{FindsParameters};
ghost use Rattle.input_counts.specs.FormReads.{form_reads_over};

use crate::counts::are_over;
use elab_items::block_targets;
use std::alloc::Global;
use v_comb::{Form, Waits, comb_form};
use v_elab::Mode;
use v_names::Scope;
use v_tree::Stmt;
use vf_base::NoMemory;

/// Whether a block of a form reads more objects than a node may.
fn form_reads_over(scope: &Scope<'_>, form: &Form) -> bool
    ensures { result ≡ form_reads_over scope.now (form_of form.now) }
{
    match form {
        Form::Process => false,
        Form::Net { reads, .. } => are_over(scope, reads.as_slice()),
    }
}

/// Whether a block, with the statement behind its event control, is a node by itself that reads too many objects. What it waits for is looked at
/// only where it reads too many.
fn waiting_reads_over(
    alloc: Global,
    scope: &Scope<'_>,
    block: &Stmt,
    inner: &Stmt,
) -> Result<bool, NoMemory>
    ensures { IfOk result (λ over. FindsParameters scope.now → (place : SourcePlace) (waits : SourceWaits) →
        statement_of block.now ≡ EventStatement place waits (statement_of inner.now) →
        over ≡ some_reads_over scope.now (reads_beside (block_targets scope.now (statement_of block.now)) (statement_of inner.now))) }
{
    let form = comb_form(alloc, inner, &Waits::Star)?;
    let over = form_reads_over(scope, &form);
    if !over {
        return Ok(false);
    }
    let targets = block_targets(alloc, scope, block)?;
    Ok(targets.is_some())
}

/// Whether a block is a node by itself that reads too many objects.
fn usual_reads_over(alloc: Global, scope: &Scope<'_>, block: &Stmt) -> Result<bool, NoMemory>
    ensures { IfOk result (λ over. FindsParameters scope.now → over ≡ some_reads_over scope.now (block_reads Usual scope.now (statement_of block.now))) }
{
    match block {
        Stmt::Event { body, .. } => {
            let over = waiting_reads_over(alloc, scope, block, body)?;
            Ok(over)
        }
        _ => Ok(false),
    }
}

/// Whether an `always` block is a node by itself that reads too many objects; in strict mode every block is a process.
pub fn block_reads_over(
    alloc: Global,
    mode: Mode,
    scope: &Scope<'_>,
    block: &Stmt,
) -> Result<bool, NoMemory>
    ensures { IfOk result (λ over. FindsParameters scope.now → over ≡ some_reads_over scope.now (block_reads mode scope.now (statement_of block.now))) }
{
    match mode {
        Mode::Strict => Ok(false),
        Mode::Usual => {
            let over = usual_reads_over(alloc, scope, block)?;
            Ok(over)
        }
    }
}
