// Which blocks are nodes.

ghost use Rattle.std.specs.Prelude.{◌≡◌, ◌++◌, ◌∷◌, [], IfOk, OnOk, map, not, option_map};
ghost use Rattle.std.specs.List.{list_all, list_any};
ghost use Rattle.key_index.specs.Places.{keys_of};
ghost use Rattle.v_tree.specs.Trees.{has_name};
ghost use Rattle.v_tree.specs.Views.{statement_of};
ghost use Rattle.v_elab.specs.Statements.{block_body};
ghost use Rattle.v_elab.specs.Drivers.{outermost, is_own_target, target_signals, names_only_read, reads_by_other_name};
ghost use Rattle.elab_parts.specs.PartViews.{process_of, parts_of};
ghost use Rattle.elab_wires.specs.Wirings.{IsWiring, hierarchical_of, reads_other, is_block_node};

use crate::signals::Signals;
use crate::wiring::Wiring;
use crate::written::hierarchical;
use elab_parts::WalkedProcess;
use key_index::KeyIndex;
use std::alloc::Global;
use v_comb::push_reads;
use v_tree::Stmt;
use vf_base::{NoMemory, Text};

/// Whether no other part and no port writes a target of the block that is the part of a number.
fn is_own_target(
    alloc: Global,
    wiring: &Wiring<'_, '_, '_>,
    number: usize,
    name: &Text,
) -> Result<bool, NoMemory>
    requires { IsWiring wiring.now }
    ensures { IfOk result (λ own. own ≡ is_own_target (parts_of wiring.now.parts.now) number name.now) }
{
    if wiring.ports.has(name.as_bytes()) {
        return Ok(false);
    }
    let object = wiring.signals.outermost(name.as_bytes());
    let other = wiring.writers.has_other(alloc, number, object)?;
    Ok(!other)
}

/// Whether that holds of all targets.
fn are_own_targets(
    alloc: Global,
    wiring: &Wiring<'_, '_, '_>,
    number: usize,
    names: &[Text],
) -> Result<bool, NoMemory>
    requires { IsWiring wiring.now }
    ensures { IfOk result (λ own. own ≡ list_all (is_own_target (parts_of wiring.now.parts.now) number) names.now) }
{
    'names: for name in names {
        let own = is_own_target(alloc, wiring, number, name)?;
        if !own {
            return Ok(false);
        }
    }
    Ok(true)
}

/// Names of an instance with what stands before them in the hierarchy.
fn hierarchical_names(alloc: Global, path: &Text, names: &[Text]) -> Result<Vec<Text>, NoMemory>
    ensures { IfOk result (λ whole. whole.items ≡ hierarchical_of path.now names.now) }
{
    let mut whole = Vec::new(alloc);
    'names: for name in names {
        whole.push(hierarchical(alloc, path, name.as_bytes())?)?;
    }
    Ok(whole)
}

/// What a block does once it is woken.
fn block_body(body: &Stmt) -> &Stmt
    ensures { statement_of result.now ≡ block_body (statement_of body.now) }
{
    match body {
        Stmt::Event { body, .. } => body,
        _ => body,
    }
}

/// The index of some names.
fn index_names<'t>(alloc: Global, names: &'t [Text]) -> Result<KeyIndex<'t>, NoMemory>
    ensures { IfOk result (λ index. index ≡ names.now) }
{
    let mut keys = Vec::new(alloc);
    'names: for name in names {
        keys.push(name.as_bytes())?;
    }
    let index = KeyIndex::new(alloc, keys)?;
    Ok(index)
}

/// The index of the objects that some names are.
fn index_objects<'t>(
    alloc: Global,
    signals: &'t Signals<'_>,
    names: &'t [Text],
) -> Result<KeyIndex<'t>, NoMemory>
    ensures { IfOk result (λ index. index ≡ map (outermost signals.now) names.now) }
{
    let mut keys = Vec::new(alloc);
    'names: for name in names {
        keys.push(signals.outermost(name.as_bytes()))?;
    }
    let index = KeyIndex::new(alloc, keys)?;
    Ok(index)
}

/// Whether a name that is read is another name of one of some objects: it isn't among the targets.
fn is_other_name(
    alloc: Global,
    process: &WalkedProcess<'_>,
    signals: &Signals<'_>,
    targets: &KeyIndex<'_>,
    objects: &KeyIndex<'_>,
    name: &[u8],
) -> Result<bool, NoMemory>
    ensures { IfOk result (λ other. other ≡ reads_other signals.now (process_of process.now) targets.now objects.now name.now) }
{
    let own = targets.first(name).is_some();
    if own {
        return Ok(false);
    }
    let whole = hierarchical(alloc, &process.path, name)?;
    let object = signals.outermost(whole.as_bytes());
    let found = objects.first(object);
    let other = found.is_some();
    Ok(other)
}

/// Whether one of some names that are read is such a name.
fn any_other_name(
    alloc: Global,
    process: &WalkedProcess<'_>,
    signals: &Signals<'_>,
    targets: &KeyIndex<'_>,
    objects: &KeyIndex<'_>,
    names: &[&[u8]],
) -> Result<bool, NoMemory>
    ensures { IfOk result (λ other. other ≡ list_any (reads_other signals.now (process_of process.now) targets.now objects.now) (keys_of names.now)) }
{
    'names: for name in names {
        let other = is_other_name(alloc, process, signals, targets, objects, name)?;
        if other {
            return Ok(true);
        }
    }
    Ok(false)
}

/// Whether a block reads one of its targets by another name that is joined into the same object.
fn reads_by_other_name(
    alloc: Global,
    process: &WalkedProcess<'_>,
    signals: &Signals<'_>,
    targets: &[Text],
    whole: &[Text],
) -> Result<bool, NoMemory>
    requires { whole.now ≡ hierarchical_of process.now.path.value targets.now }
    ensures { IfOk result (λ other. other ≡ reads_by_other_name signals.now (process_of process.now) targets.now) }
{
    let own = index_names(alloc, targets)?;
    let objects = index_objects(alloc, signals, whole)?;
    let mut names = Vec::new(alloc);
    push_reads(block_body(process.body), &mut names)?;
    let other = any_other_name(alloc, process, signals, &own, &objects, &names)?;
    Ok(other)
}

/// Whether a block that by itself is of combinational form is a node: nothing else writes its targets, and it doesn't read them by other names.
///
/// The block is the part of a number.
pub fn is_block_node(
    alloc: Global,
    wiring: &Wiring<'_, '_, '_>,
    number: usize,
    process: &WalkedProcess<'_>,
    targets: &[Text],
) -> Result<bool, NoMemory>
    requires { IsWiring wiring.now }
    ensures { IfOk result (λ node. node ≡ is_block_node (parts_of wiring.now.parts.now) number (process_of process.now) targets.now) }
{
    let whole = hierarchical_names(alloc, &process.path, targets)?;
    let own = are_own_targets(alloc, wiring, number, &whole)?;
    if !own {
        return Ok(false);
    }
    let other = reads_by_other_name(alloc, process, wiring.signals, targets, &whole)?;
    Ok(!other)
}
