// The walk from instance to instance.

ghost use Rattle.std.specs.Prelude.{◌≡◌, ◌≤◌, ◌+◌, ◌^◌, List, [], Some, Ok, IfOk, MatchResult, map, flat_map};
ghost use Rattle.vf_base.specs.Base.{SourcePlace};
ghost use Rattle.v_tree.specs.Trees.{SourceModule};
ghost use Rattle.v_tree.specs.Views.{module_of, item_of, connection_of, instance_of};
ghost use Rattle.v_names.specs.Names.{GivenParameter};
ghost use Rattle.v_elab.specs.Parts as parts;
ghost use Rattle.v_elab.specs.Walk as plain;
ghost use Rattle.v_elab.specs.Connections.{instance_faults};
ghost use Rattle.v_elab.specs.Walk.{child_of, paths_of, entered, walked_module, walked_items, walked_item, walked_instance_item, walked_instances, walked_instance, walked_from};
ghost use Rattle.elab_parts.specs.PartViews.{parts_of};
ghost use Rattle.instance_checks.specs.Offered.{AreFormals};
ghost use Rattle.elab_connections.specs.PathViews.{ArePaths};
ghost use Rattle.elab_walk.specs.ModuleViews.{AreModules};
ghost use Rattle.elab_walk.specs.WalkFaults.{IsWalkFault};
ghost use Rattle.elab_walk.specs.Sites.{IsSite, IsEntrance, IsInner};
ghost use Rattle.elab_walk.specs.Within.{IsWithin, AreWithin, HasScope};
ghost use Rattle.elab_walk.specs.CountViews.{AreCounts};
ghost use Rattle.elab_walk.specs.Leaves.{Leaves};

use crate::fault::{WalkFault, refuse, refuse_reads};
use crate::items::{walk_heads, walk_param_groups, walk_plain_item};
use crate::modules::Modules;
use crate::site::{Entrance, Inner, Site};
use crate::walked::Walked;
use elab_connections::{
    Paths, connection_joins, connection_nodes, connects_wide_port, push_connection_parts,
};
use elab_items::{Here, gates_in, hierarchical};
use elab_parts::Part;
use input_counts::connection_reads_over;
use instance_checks::{Child, Formals, given_parameters, instance_fault, not_port_fault};
use module_scope::{names, scope_of_module};
use std::alloc::Global;
use std::rc::Rc;
use v_elab::Mode;
use v_names::{Found, Reason};
use v_tree::{Connection, Instance, Item, Module};
use vf_base::{MAX_NESTED_MODULES, NoMemory, Text};

/// What stands before the names of an instance, and before those of what it stands in.
fn instance_paths(alloc: Global, path: &Rc<Text>, instance: &Instance) -> Result<Paths, NoMemory>
    ensures { IfOk result (λ paths. (h : plain.Here) → path.now.value ≡ h.instance.path → ArePaths (paths_of h (instance_of instance.now)) paths) }
{
    let name = hierarchical(alloc, path, instance.name.as_bytes())?;
    let inner = hierarchical(alloc, &name, b".")?;
    Ok(Paths {
        inner: Rc::new(alloc, inner)?,
        outer: Rc::clone(path)?,
    })
}

/// Walks what stands in an instance of a module.
#[cycle(walk)]
fn walk_inside<'u>(
    alloc: Global,
    site: Site<'_, '_, '_, 'u>,
    levels: u8,
    inner: Inner<'_, 'u>,
    paths: &Paths,
    instance: &'u Instance,
    walked: &mut Walked<'u>,
) -> Result<(), WalkFault>
    requires { site.here.now.depth + levels ≡ 64 }
    ensures { (h : plain.Here) (m : SourceModule) (given : List GivenParameter) → IsSite h site.entry → IsInner h m given inner.entry →
        ArePaths (paths_of h (instance_of instance.now)) paths.now → (before : List parts.Part) → AreCounts before walked.old.counts →
        Leaves before (plain.walked h.modules h.mode levels (entered h m given (instance_of instance.now)) before) result walked.old walked.new }
{
    let connections = instance.connections.as_slice();
    let joins = connection_joins(alloc, inner.child, paths, connections)?;
    let entrance = Entrance {
        module: inner.module,
        formals: inner.child.formals,
        given: inner.given,
        path: Rc::clone(&paths.inner)?,
        depth: site.here.depth + 1,
        joins: &joins,
    };
    enter(
        alloc,
        site.modules,
        site.here.mode,
        levels,
        entrance,
        walked,
    )
}

/// Walks an instance of which nothing is wrong: its connections, and what stands in it. A port that is wider than any vector may be is refused where its
/// module declares it, so what assigns it counts, and isn't made.
#[cycle(walk)]
fn walk_instance<'u>(
    alloc: Global,
    site: Site<'_, '_, '_, 'u>,
    levels: u8,
    inner: Inner<'_, 'u>,
    instance: &'u Instance,
    walked: &mut Walked<'u>,
) -> Result<(), WalkFault>
    requires { site.here.now.depth + levels ≡ 64 }
    ensures { (h : plain.Here) (m : SourceModule) (given : List GivenParameter) → IsSite h site.entry → IsInner h m given inner.entry →
        instance_faults (child_of h m given) (h.instance.depth + 1) (instance_of instance.now) ≡ [] → (before : List parts.Part) → AreCounts before walked.old.counts →
        Leaves before (walked_instance (plain.walked h.modules h.mode levels) h m given (instance_of instance.now) before) result walked.old walked.new }
{
    let connections = instance.connections.as_slice();
    refuse_reads(connection_reads_over(alloc, inner.child, connections)?)?;
    let paths = instance_paths(alloc, &site.here.path, instance)?;
    if connects_wide_port(inner.child, connections) {
        walked.count_instance(connection_nodes(alloc, inner.child, connections)?)?;
        return walk_inside(alloc, site, levels, inner, &paths, instance, walked);
    }
    let start = walked.parts.len();
    walked.parts.push(Part::Instance)?;
    push_connection_parts(alloc, inner.child, &paths, connections, &mut walked.parts)?;
    walked.count_from(start)?;
    walk_inside(alloc, site, levels, inner, &paths, instance, walked)
}

/// Walks instances of one module, of which nothing is wrong.
#[cycle(walk)]
fn walk_instances<'u>(
    alloc: Global,
    site: Site<'_, '_, '_, 'u>,
    levels: u8,
    inner: Inner<'_, 'u>,
    instances: &'u [Instance],
    walked: &mut Walked<'u>,
) -> Result<(), WalkFault>
    requires { site.here.now.depth + levels ≡ 64 }
    ensures { (h : plain.Here) (m : SourceModule) (given : List GivenParameter) → IsSite h site.entry → IsInner h m given inner.entry →
        flat_map (instance_faults (child_of h m given) (h.instance.depth + 1)) (map instance_of instances.now) ≡ [] → (before : List parts.Part) →
        AreCounts before walked.old.counts →
        Leaves before (walked_instances (plain.walked h.modules h.mode levels) h m given (map instance_of instances.now) before) result walked.old walked.new }
{
    'instances: for instance in instances {
        walk_instance(alloc, site, levels, inner, instance, walked)?;
    }
    Ok(())
}

/// Walks an item that is instances of a module.
#[cycle(walk)]
fn walk_instance_item<'u>(
    alloc: Global,
    site: Site<'_, '_, '_, 'u>,
    levels: u8,
    module: &'u Module,
    parameters: &'u [Connection],
    instances: &'u [Instance],
    walked: &mut Walked<'u>,
) -> Result<(), WalkFault>
    requires { site.here.now.depth + levels ≡ 64 }
    ensures { (h : plain.Here) → IsSite h site.entry → (before : List parts.Part) (place : SourcePlace) → AreCounts before walked.old.counts →
        Leaves before (walked_instance_item (plain.walked h.modules h.mode levels) h (Some (module_of «module».now)) place (map connection_of parameters.now)
        (map instance_of instances.now) before) result walked.old walked.new }
{
    let formals = Formals::of(alloc, module)?;
    let given = given_parameters(alloc, &site.here.scope, &formals, parameters)?;
    let scope = scope_of_module(alloc, module, &given)?;
    let child = Child {
        formals: &formals,
        inner: &scope,
        outer: &site.here.scope,
    };
    let depth = u32::from(site.here.depth) + 1;
    refuse(instance_fault(alloc, child, depth, parameters, instances)?)?;
    let inner = Inner {
        module,
        given: &given,
        child,
    };
    walk_instances(alloc, site, levels, inner, instances, walked)
}

/// Walks an item; the gates of the module before it are counted.
#[cycle(walk)]
fn walk_item<'u>(
    alloc: Global,
    site: Site<'_, '_, '_, 'u>,
    levels: u8,
    gates: u128,
    item: &'u Item,
    walked: &mut Walked<'u>,
) -> Result<(), WalkFault>
    requires levels { site.here.now.depth + levels ≡ 64 }
    requires gates { gates + 2 ^ 65 ≤ 2 ^ 128 }
    requires within { IsWithin site.here.now.scope.value (item_of item.now) }
    ensures { (h : plain.Here) → IsSite h site.entry → (before : List parts.Part) → AreCounts before walked.old.counts →
        Leaves before (walked_item (plain.walked h.modules h.mode levels) h gates (item_of item.now) before) result walked.old walked.new }
{
    match item {
        Item::Instance {
            place,
            module_name,
            parameters,
            instances,
        } => {
            let Some(module) = site.modules.named(module_name.as_bytes()) else {
                return Err(WalkFault::Found(Found {
                    place: *place,
                    reason: Reason::UnknownName,
                }));
            };
            let parameters = parameters.as_slice();
            let instances = instances.as_slice();
            walk_instance_item(alloc, site, levels, module, parameters, instances, walked)
        }
        _ => walk_plain_item(alloc, site, gates, item, walked),
    }
}

/// Walks the items of a module in text order.
#[cycle(walk)]
fn walk_items<'u>(
    alloc: Global,
    site: Site<'_, '_, '_, 'u>,
    levels: u8,
    items: &'u [Item],
    walked: &mut Walked<'u>,
) -> Result<(), WalkFault>
    requires levels { site.here.now.depth + levels ≡ 64 }
    requires within { AreWithin site.here.now.scope.value (map item_of items.now) }
    ensures { (h : plain.Here) → IsSite h site.entry → (before : List parts.Part) → AreCounts before walked.old.counts →
        Leaves before (walked_items (plain.walked h.modules h.mode levels) h 0 (map item_of items.now) before) result walked.old walked.new }
{
    let mut gates = 0;
    'items: for item in items {
        walk_item(alloc, site, levels, gates, item, walked)?;
        gates += gates_in(item) as u128;
    }
    Ok(())
}

/// Walks a module: the parameters of its head, its list of ports, and its items.
#[cycle(walk)]
fn walk_module<'u>(
    alloc: Global,
    site: Site<'_, '_, '_, 'u>,
    levels: u8,
    module: &'u Module,
    formals: &Formals<'u>,
    walked: &mut Walked<'u>,
) -> Result<(), WalkFault>
    requires levels { site.here.now.depth + levels ≡ 64 }
    requires scope { HasScope (module_of «module».now) site.here.now.scope.value }
    ensures { (h : plain.Here) → IsSite h site.entry → AreFormals (module_of «module».now) formals.now → (before : List parts.Part) →
        AreCounts before walked.old.counts →
        Leaves before (walked_module (plain.walked h.modules h.mode levels) h (module_of «module».now) before) result walked.old walked.new }
{
    walk_param_groups(alloc, site, module.params.as_slice(), walked)?;
    refuse(not_port_fault(formals, &module.ports))?;
    walk_heads(alloc, site, &module.ports, walked)?;
    walk_items(alloc, site, levels, module.items.as_slice(), walked)
}

/// Walks what stands in an instance, with at most so many levels.
#[cycle(walk)]
fn enter<'u>(
    alloc: Global,
    modules: &Modules<'u>,
    mode: Mode,
    levels: u8,
    entrance: Entrance<'_, 'u>,
    walked: &mut Walked<'u>,
) -> Result<(), WalkFault>
    requires { entrance.depth + levels ≡ 65 }
    ensures { (all : List SourceModule) (e : plain.Entered) → AreModules all modules.now → IsEntrance e entrance.entry → (before : List parts.Part) →
        AreCounts before walked.old.counts → Leaves before (plain.walked all mode levels e before) result walked.old walked.new }
{
    if levels == 0 {
        return Ok(());
    }
    let scope = names(alloc, entrance.module, entrance.given)?;
    let here = Here::new(
        alloc,
        mode,
        entrance.path,
        entrance.depth,
        Rc::new(alloc, scope)?,
        entrance.joins,
        entrance.module,
    )?;
    let site = Site {
        modules,
        here: &here,
    };
    walk_module(
        alloc,
        site,
        levels - 1,
        entrance.module,
        entrance.formals,
        walked,
    )
}

/// The parts of the design whose top is a module, in the order of the walk, or the first reason why there are none. Instances are of the modules
/// of the map. In the mode `Strict` every block is a process.
pub fn walked_from<'u>(
    alloc: Global,
    modules: &Modules<'u>,
    mode: Mode,
    top: &'u Module,
) -> Result<Vec<Part<'u>>, WalkFault>
    ensures { (all : List SourceModule) → AreModules all modules.now →
        MatchResult result (λ parts. walked_from all mode (module_of top.now) ≡ Ok (parts_of parts.items)) (λ fault. IsWalkFault (walked_from all mode (module_of top.now)) fault) }
{
    let formals = Formals::of(alloc, top)?;
    let entrance = Entrance {
        module: top,
        formals: &formals,
        given: &[],
        path: Rc::new(alloc, Text::from_bytes(alloc, b"")?)?,
        depth: 0,
        joins: &[],
    };
    let mut walked = Walked::new(alloc);
    enter(
        alloc,
        modules,
        mode,
        MAX_NESTED_MODULES,
        entrance,
        &mut walked,
    )?;
    Ok(walked.parts)
}
