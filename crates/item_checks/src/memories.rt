// Memories that an expression names.

ghost use Rattle.std.specs.Prelude.{◌≡◌, []};
ghost use Rattle.vf_base.specs.Base.{source_place};
ghost use Rattle.v_tree.specs.Trees.{named_in, named_in_parts};
ghost use Rattle.v_tree.specs.Views.{expression_of, expressions_of};
ghost use Rattle.v_names.specs.Scopes.{looked_up, is_memory};
ghost use Rattle.v_names.specs.ScopeViews.{entry_of};
ghost use Rattle.v_width.specs.Summaries.{AreFaults};
ghost use Rattle.v_elab.specs.ItemFaults.{memory_faults};
ghost use Rattle.name_checks.specs.Noted.{noted};
ghost use Rattle.item_checks.specs.Memories.{memory_fault_of, memories_faults};

use name_checks::FirstFault;
use v_names::{Entry, Found, Reason, Scope};
use v_tree::Expr;
use v_width::{Faults, no_faults, wrong_kind};
use vf_base::{Place, Text};

/// Whether a name is that of a memory.
pub fn is_memory(scope: &Scope<'_>, name: &Text) -> bool
    ensures { result ≡ is_memory (looked_up scope.now name.now) }
{
    match scope.lookup(name) {
        Some(Entry::Memory { .. }) => true,
        _ => false,
    }
}

/// Notes a name that is that of a memory.
fn note_memory(scope: &Scope<'_>, name: &Text, place: Place, first: &mut FirstFault)
    ensures { first.new ≡ noted first.old (memory_fault_of scope.now name.now (source_place place)) }
{
    if is_memory(scope, name) {
        first.note(Found {
            place,
            reason: Reason::WrongKind,
        });
    }
}

/// Notes the memories that an expression names.
#[cycle(memories)]
fn note_memories(scope: &Scope<'_>, expr: &Expr, first: &mut FirstFault)
    ensures { first.new ≡ noted first.old (memories_faults scope.now (named_in (expression_of expr.now))) }
{
    match expr {
        Expr::Number { .. } => {}
        Expr::Name { place, name } => note_memory(scope, name, *place, first),
        Expr::BitSelect { place, name, index } => {
            note_memory(scope, name, *place, first);
            note_memories(scope, index, first);
        }
        Expr::PartSelect {
            place,
            name,
            from,
            to,
        } => {
            note_memory(scope, name, *place, first);
            note_memories(scope, from, first);
            note_memories(scope, to, first);
        }
        Expr::Paren { inner, .. } => note_memories(scope, inner, first),
        Expr::Unary { operand, .. } => note_memories(scope, operand, first),
        Expr::Binary { left, right, .. } => {
            note_memories(scope, left, first);
            note_memories(scope, right, first);
        }
        Expr::Conditional {
            condition,
            first: one,
            second,
            ..
        } => {
            note_memories(scope, condition, first);
            note_memories(scope, one, first);
            note_memories(scope, second, first);
        }
        Expr::Concat { parts, .. } => note_memories_in_parts(scope, parts, first),
        Expr::Repeat { count, parts, .. } => {
            note_memories(scope, count, first);
            note_memories_in_parts(scope, parts, first);
        }
    }
}

/// Notes the memories that some expressions name.
#[cycle(memories)]
fn note_memories_in_parts(scope: &Scope<'_>, parts: &[Expr], first: &mut FirstFault)
    ensures { first.new ≡ noted first.old (memories_faults scope.now (named_in_parts (expressions_of parts.now))) }
{
    'parts: for part in parts {
        note_memories(scope, part, first);
    }
}

/// The memories that an expression names, as names of the wrong kind.
pub fn memory_faults(scope: &Scope<'_>, expr: &Expr) -> Faults
    ensures { AreFaults (memory_faults scope.now (expression_of expr.now)) [] result }
{
    let mut first = FirstFault::new();
    note_memories(scope, expr, &mut first);
    match first.found() {
        None => no_faults(),
        Some(found) => wrong_kind(found.place),
    }
}
