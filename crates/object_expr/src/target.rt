// Targets of processes over objects.

ghost use Rattle.std.specs.Prelude.{◌≡◌, IfOk, List, map};
ghost use Rattle.v_tree.specs.Views as views;
ghost use Rattle.v_tree.specs.Views.{index_of, select_of};
ghost use Rattle.vf_base.specs.Lists.{AllHold};
ghost use Rattle.v_design.specs.Plain.{target_of};
ghost use Rattle.v_design.specs.Sized.{IsSizedTarget};
ghost use Rattle.v_names.specs.Scopes.{looked_up, is_memory};
ghost use Rattle.v_names.specs.Readings.{number_or, number_of_constant};
ghost use Rattle.v_elab.specs.Statements.{Meaning, indexed_target, target_by_index, targets_over};
ghost use Rattle.object_expr.specs.Meanings.{IsMeaning, select_over};
ghost use Rattle.object_expr.specs.Narrow.{IsNarrow, IsNarrowBound, IsNarrowIndex, IsNarrowSelect, IsNarrowTarget};

use crate::value::expr_alone;
use crate::variable::variable_named;
use object_names::InstanceNames;
use std::alloc::Global;
use v_design::FlatTarget;
use v_names::{Entry, Scope, number_of_constant};
use v_tree::{Expr, Index, Select, Target};
use vf_base::{NoMemory, Text};

/// Whether a name is that of a memory.
fn is_memory(scope: &Scope<'_>, name: &Text) -> bool
    ensures { result ≡ is_memory (looked_up scope.now name.now) }
{
    match scope.lookup(name) {
        Some(Entry::Memory { .. }) => true,
        _ => false,
    }
}

/// A bound of a part, 0 where it is refused.
fn bound_or_zero(alloc: Global, scope: &Scope<'_>, bound: &Expr) -> Result<u32, NoMemory>
    requires { IsNarrowBound scope.now (views.expression_of bound.now) }
    ensures { IfOk result (λ number. number ≡ number_or 0 (number_of_constant scope.now (views.expression_of bound.now))) }
{
    match number_of_constant(alloc, bound, scope)? {
        None => Ok(0),
        Some(number) => {
            let kept = number as u32;
            Ok(kept)
        }
    }
}

/// A word of a memory or a bit of a variable.
fn indexed_target(
    alloc: Global,
    scope: &Scope<'_>,
    names: InstanceNames<'_>,
    name: &Text,
    index: &Expr,
) -> Result<FlatTarget, NoMemory>
    requires narrow { IsNarrow scope.now (views.expression_of index.now) }
    requires sized { (meaning : Meaning) × IsMeaning meaning scope.now names ×
        IsSizedTarget (indexed_target (is_memory (looked_up scope.now name.now)) meaning name.now (views.expression_of index.now)) }
    ensures { IfOk result (λ flat. (meaning : Meaning) → IsMeaning meaning scope.now names.entry →
        target_of flat ≡ indexed_target (is_memory (looked_up scope.now name.now)) meaning name.now (views.expression_of index.now)) }
{
    let index = expr_alone(alloc, scope, names, index)?;
    if is_memory(scope, name) {
        let memory = names.memory(alloc, name)?;
        Ok(FlatTarget::Word(memory, index))
    } else {
        let variable = variable_named(alloc, names, name)?;
        Ok(FlatTarget::Bit(variable, index))
    }
}

/// A select that a process writes.
fn select_over(
    alloc: Global,
    scope: &Scope<'_>,
    names: InstanceNames<'_>,
    select: &Select,
) -> Result<FlatTarget, NoMemory>
    requires narrow { IsNarrowIndex scope.now (index_of select.now.index) }
    requires sized { (meaning : Meaning) × IsMeaning meaning scope.now names × IsSizedTarget (select_over meaning (select_of select.now)) }
    ensures { IfOk result (λ flat. (meaning : Meaning) → IsMeaning meaning scope.now names.entry → target_of flat ≡ select_over meaning (select_of select.now)) }
{
    let name = &select.name;
    match &select.index {
        Index::Whole => {
            let variable = variable_named(alloc, names, name)?;
            Ok(FlatTarget::Whole(variable))
        }
        Index::Bit(index) => {
            let target = indexed_target(alloc, scope, names, name, index)?;
            Ok(target)
        }
        Index::Part(from, to) => {
            let variable = variable_named(alloc, names, name)?;
            let from = bound_or_zero(alloc, scope, from)?;
            let to = bound_or_zero(alloc, scope, to)?;
            Ok(FlatTarget::Part(variable, from, to))
        }
    }
}

/// Selects that a process writes.
fn selects_over(
    alloc: Global,
    scope: &Scope<'_>,
    names: InstanceNames<'_>,
    selects: &[Select],
) -> Result<Vec<FlatTarget>, NoMemory>
    requires narrow { AllHold (IsNarrowSelect scope.now) (map select_of selects.now) }
    requires sized { (meaning : Meaning) × IsMeaning meaning scope.now names × AllHold IsSizedTarget (map (select_over meaning) (map select_of selects.now)) }
    ensures { IfOk result (λ flats. (meaning : Meaning) → IsMeaning meaning scope.now names.entry → map target_of flats.items ≡ map (select_over meaning) (map select_of selects.now)) }
{
    let mut flats = Vec::new(alloc);
    'selects: for select in selects {
        let flat = select_over(alloc, scope, names, select)?;
        flats.push(flat)?;
    }
    Ok(flats)
}

/// What a process writes: the variables and memories of the target's selects, from the left, which are sized; their bounds and counts have 32 bits.
pub fn targets_over(
    alloc: Global,
    scope: &Scope<'_>,
    names: InstanceNames<'_>,
    target: &Target,
) -> Result<Vec<FlatTarget>, NoMemory>
    requires narrow { IsNarrowTarget scope.now (views.target_of target.now) }
    requires sized { (meaning : Meaning) × IsMeaning meaning scope.now names × AllHold IsSizedTarget (targets_over meaning (views.target_of target.now)) }
    ensures { IfOk result (λ flats. (meaning : Meaning) → IsMeaning meaning scope.now names.entry → map target_of flats.items ≡ targets_over meaning (views.target_of target.now)) }
{
    match target {
        Target::One(select) => {
            let flat = select_over(alloc, scope, names, select)?;
            let mut flats = Vec::new(alloc);
            flats.push(flat)?;
            Ok(flats)
        }
        Target::Joined(_, selects) => {
            let flats = selects_over(alloc, scope, names, selects.as_slice())?;
            Ok(flats)
        }
    }
}
