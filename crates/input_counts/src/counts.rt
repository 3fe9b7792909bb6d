// What some names stand for.

ghost use Rattle.std.specs.Prelude.{◌≡◌, [], IfOk, flat_map, option_map};
ghost use Rattle.v_tree.specs.Views.{expression_of};
ghost use Rattle.v_comb.specs.CombinationalForm.{each_once};
ghost use Rattle.v_comb.specs.Occurrences.{names_of_expr};
ghost use Rattle.v_names.specs.ScopeViews.{entry_of};
ghost use Rattle.v_elab.specs.ReadCounts.{objects_of_entry, reads_over, value_reads};

use std::alloc::Global;
use std::slice::from_ref;
use v_comb::names_in_exprs;
use v_names::{Entry, Scope, span};
use v_tree::Expr;
use vf_base::{MAX_INPUTS, NoMemory, Text};

/// How many objects a name stands for, by what it means.
fn objects_of(entry: &Option<Entry>) -> u64
    ensures { result ≡ objects_of_entry (option_map entry_of entry.now) }
{
    match entry {
        Some(Entry::Net { .. }) => 1,
        Some(Entry::Reg { .. }) => 1,
        Some(Entry::Memory { first, last, .. }) => span(*first, *last),
        _ => 0,
    }
}

/// Whether some names stand for more objects than a node may read.
pub fn are_over(scope: &Scope<'_>, names: &[Text]) -> bool
    ensures { result ≡ reads_over scope.now names.now }
{
    let mut left = MAX_INPUTS;
    'names: for name in names {
        let objects = objects_of(&scope.lookup(name));
        if objects > left {
            return true;
        }
        left -= objects;
    }
    false
}

/// Whether the names in some expressions stand for more objects than a node may read.
pub fn values_over(alloc: Global, scope: &Scope<'_>, values: &[Expr]) -> Result<bool, NoMemory>
    ensures { IfOk result (λ over. over ≡ reads_over scope.now (each_once [] (flat_map names_of_expr values.now))) }
{
    let names = names_in_exprs(alloc, values)?;
    Ok(are_over(scope, names.as_slice()))
}

/// Whether the names in an expression stand for more objects than a node may read.
pub fn value_over(alloc: Global, scope: &Scope<'_>, value: &Expr) -> Result<bool, NoMemory>
    ensures { IfOk result (λ over. over ≡ reads_over scope.now (value_reads (expression_of value.now))) }
{
    let over = values_over(alloc, scope, from_ref(value))?;
    Ok(over)
}
