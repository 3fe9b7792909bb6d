// Items that are no instances.

ghost use Rattle.std.specs.Prelude.{◌≡◌, ◌≤◌, ◌+◌, ◌^◌, ℕ, List, [], Ok, IfOk, MatchResult, map};
ghost use Rattle.v_tree.specs.Trees.{ParameterItem, PortItem};
ghost use Rattle.v_tree.specs.Views.{parameters_of, ports_of, heads_of, item_of};
ghost use Rattle.v_elab.specs.ItemFaults.{item_faults};
ghost use Rattle.v_elab.specs.Parts as parts;
ghost use Rattle.v_elab.specs.Walk as plain;
ghost use Rattle.v_elab.specs.Walk.{Walker, walked_item, walked_items, head_items, item_parts, checked_item};
ghost use Rattle.elab_walk.specs.WalkFaults.{IsWalkFault};
ghost use Rattle.elab_walk.specs.Sites.{IsSite};
ghost use Rattle.elab_walk.specs.Within.{IsWithin, AreWithin};
ghost use Rattle.elab_walk.specs.CountViews.{AreCounts};
ghost use Rattle.elab_walk.specs.Leaves.{plain_item, Leaves};

use crate::fault::{WalkFault, refuse, refuse_reads};
use crate::site::Site;
use crate::walked::Walked;
use elab_items::{push_item_parts, push_port_parts};
use input_counts::item_reads_over;
use item_checks::{item_fault, params_fault, ports_fault};
use std::alloc::Global;
use v_tree::{Heads, Item, Params, Ports};

/// Walks parameters that are declared together in the head of a module.
fn walk_params<'u>(
    alloc: Global,
    site: Site<'_, '_, '_, 'u>,
    group: &'u Params,
    walked: &mut Walked<'u>,
) -> Result<(), WalkFault>
    ensures { (h : plain.Here) (walker : Walker) → IsSite h site.entry → (before : List parts.Part) → AreCounts before walked.old.counts →
        Leaves before (walked_item walker h 0 (ParameterItem (parameters_of group.now)) before) result walked.old walked.new }
{
    refuse(params_fault(alloc, &site.here.scope, group)?)?;
    let start = walked.parts.len();
    walked.count_from(start)?;
    Ok(())
}

/// Walks the parameters in the head of a module.
pub fn walk_param_groups<'u>(
    alloc: Global,
    site: Site<'_, '_, '_, 'u>,
    groups: &'u [Params],
    walked: &mut Walked<'u>,
) -> Result<(), WalkFault>
    ensures { (h : plain.Here) (walker : Walker) → IsSite h site.entry → (before : List parts.Part) → AreCounts before walked.old.counts →
        Leaves before (walked_items walker h 0 (map ParameterItem (map parameters_of groups.now)) before) result walked.old walked.new }
{
    'groups: for group in groups {
        walk_params(alloc, site, group, walked)?;
    }
    Ok(())
}

/// Walks ports that are declared together in the list of ports of a module.
fn walk_ports<'u>(
    alloc: Global,
    site: Site<'_, '_, '_, 'u>,
    group: &'u Ports,
    walked: &mut Walked<'u>,
) -> Result<(), WalkFault>
    requires { IsWithin site.here.now.scope.value (PortItem (ports_of group.now)) }
    ensures { (h : plain.Here) (walker : Walker) → IsSite h site.entry → (before : List parts.Part) → AreCounts before walked.old.counts →
        Leaves before (walked_item walker h 0 (PortItem (ports_of group.now)) before) result walked.old walked.new }
{
    refuse(ports_fault(alloc, &site.here.scope, group)?)?;
    let start = walked.parts.len();
    push_port_parts(alloc, site.here, group, &mut walked.parts)?;
    walked.count_from(start)?;
    Ok(())
}

/// Walks groups of ports in the list of ports of a module.
fn walk_port_groups<'u>(
    alloc: Global,
    site: Site<'_, '_, '_, 'u>,
    groups: &'u [Ports],
    walked: &mut Walked<'u>,
) -> Result<(), WalkFault>
    requires { AreWithin site.here.now.scope.value (map PortItem (map ports_of groups.now)) }
    ensures { (h : plain.Here) (walker : Walker) → IsSite h site.entry → (before : List parts.Part) → AreCounts before walked.old.counts →
        Leaves before (walked_items walker h 0 (map PortItem (map ports_of groups.now)) before) result walked.old walked.new }
{
    'groups: for group in groups {
        walk_ports(alloc, site, group, walked)?;
    }
    Ok(())
}

/// Walks the ports that are declared in the list of ports of a module.
pub fn walk_heads<'u>(
    alloc: Global,
    site: Site<'_, '_, '_, 'u>,
    heads: &'u Heads,
    walked: &mut Walked<'u>,
) -> Result<(), WalkFault>
    requires { AreWithin site.here.now.scope.value (head_items (heads_of heads.now)) }
    ensures { (h : plain.Here) (walker : Walker) → IsSite h site.entry → (before : List parts.Part) → AreCounts before walked.old.counts →
        Leaves before (walked_items walker h 0 (head_items (heads_of heads.now)) before) result walked.old walked.new }
{
    match heads {
        Heads::Plain(_) => Ok(()),
        Heads::Declared(groups) => {
            walk_port_groups(alloc, site, groups.as_slice(), walked)?;
            Ok(())
        }
    }
}

/// Refuses what is wrong with an item that is no instance, and then a node of it that reads too many objects.
fn refuse_item(alloc: Global, site: Site<'_, '_, '_, '_>, item: &Item) -> Result<(), WalkFault>
    ensures clean { IfOk result (λ done. item_faults site.entry.here.now.scope.value (item_of item.now) ≡ []) }
    ensures checked { (h : plain.Here) → IsSite h site.entry → (gates : ℕ) →
        MatchResult result (λ done. checked_item h gates (item_of item.now) ≡ Ok (item_parts h gates (item_of item.now)))
        (λ fault. IsWalkFault (checked_item h gates (item_of item.now)) fault) }
{
    let here = site.here;
    refuse(item_fault(alloc, &here.scope, item)?)?;
    refuse_reads(item_reads_over(alloc, here.mode, &here.scope, item)?)?;
    Ok(())
}

/// Walks an item that is no instance; the gates of the module before it are counted.
pub fn walk_plain_item<'u>(
    alloc: Global,
    site: Site<'_, '_, '_, 'u>,
    gates: u128,
    item: &'u Item,
    walked: &mut Walked<'u>,
) -> Result<(), WalkFault>
    requires gates { gates + 2 ^ 65 ≤ 2 ^ 128 }
    requires within { IsWithin site.here.now.scope.value (item_of item.now) }
    ensures { (h : plain.Here) → IsSite h site.entry → (before : List parts.Part) → AreCounts before walked.old.counts →
        Leaves before (plain_item h gates (item_of item.now) before) result walked.old walked.new }
{
    refuse_item(alloc, site, item)?;
    let start = walked.parts.len();
    push_item_parts(alloc, site.here, gates, item, &mut walked.parts)?;
    walked.count_from(start)?;
    Ok(())
}
