// The declarations of a module.

ghost use Rattle.std.specs.Prelude.{◌≡◌, List, [], ◌∷◌, ◌++◌, Some, OnOk, IfOk, map, flat_map};
ghost use Rattle.v_tree.specs.Views.{module_of, content_of, parameter_of, name_of, range_in, parameters_of, ports_of, wire_of, reg_of, gate_of, instance_of, item_of, heads_of};
ghost use Rattle.v_names.specs.Names.{declarations_of, bounds_of, parameter_declarations, port_declarations, reg_declared, reg_declarations, gate_declarations, item_declarations, head_declarations};
ghost use Rattle.module_scope.specs.Declarations.{declaration_seen, param_declared, name_declared, declarations_seen, declared_seen, wire_declarations, instance_declarations};
ghost use Rattle.name_checks.specs.BoundViews.{bounds_seen};
ghost use Rattle.module_scope.specs.Groups.{group_bounds, IsGroup, AreGrouped, AddsGrouped, DeclaredIn, BoundsIn, InAnyCase};

use name_checks::{Bounds, bounds_of};
use std::alloc::Global;
use v_tree::{
    Content, Direction, Expr, Gate, Heads, Instance, Item, Module, Name, Param, Params, Ports,
    Range, Reg, Wire,
};
use vf_base::{NoMemory, Place, Text};

/// The bounds of names that are declared together, with the number of their group.
#[derive(Clone, Copy)]
pub struct GroupBounds<'m> {
    pub bounds: Bounds<'m>,
    pub group: usize,
}

/// What a name is declared as.
#[derive(Clone, Copy)]
pub enum Declared<'m> {
    Param {
        is_local: bool,
        signed: bool,
        bounds: GroupBounds<'m>,
        value: &'m Expr,
    },
    Port {
        direction: Direction,
        is_reg: bool,
        signed: bool,
        bounds: GroupBounds<'m>,
        /// Its first content.
        first: Option<&'m Expr>,
    },
    Net {
        signed: bool,
        bounds: GroupBounds<'m>,
    },
    Reg {
        signed: bool,
        bounds: GroupBounds<'m>,
        /// Its first content.
        first: Option<&'m Expr>,
    },
    Memory {
        signed: bool,
        bounds: GroupBounds<'m>,
        addresses: &'m Range,
    },
    Gate,
    Instance,
}

/// A declared name with its place.
#[derive(Clone, Copy)]
pub struct Declaration<'m> {
    pub name: &'m Text,
    pub place: Place,
    pub declared: Declared<'m>,
}

/// What a module declares, in text order, with the bounds of each group of names that are declared together.
#[derive(Drop)]
pub struct Declarations<'m> {
    pub list: Vec<Declaration<'m>>,
    pub groups: Vec<Bounds<'m>>,
}

/// The bounds of one more group.
fn new_group<'m>(
    bounds: Bounds<'m>,
    groups: &mut Vec<Bounds<'m>>,
) -> Result<GroupBounds<'m>, NoMemory>
    ensures bounds { IfOk result (λ group. bounds_seen group.bounds ≡ bounds_seen bounds.entry) }
    ensures group { IfOk result (λ group. IsGroup groups.new.items group) }
    ensures grouped { OnOk result ((list : List Declaration) → AreGrouped groups.old.items list → AreGrouped groups.new.items list) }
{
    let group = groups.len();
    groups.push(bounds)?;
    Ok(GroupBounds { bounds, group })
}

/// Adds a declaration.
fn push<'m>(declaration: Declaration<'m>, list: &mut Vec<Declaration<'m>>) -> Result<(), NoMemory>
    ensures list { OnOk result (declarations_seen list.new.items ≡ declarations_seen list.old.items ++ declaration_seen declaration.entry ∷ []) }
    ensures grouped { OnOk result (AddsGrouped (DeclaredIn declaration.entry.declared) list.old.items list.new.items) }
{
    list.push(declaration)?;
    Ok(())
}

/// Adds parameters, which are declared together.
fn push_each_param<'m>(
    group: &'m Params,
    bounds: GroupBounds<'m>,
    params: &'m [Param],
    list: &mut Vec<Declaration<'m>>,
) -> Result<(), NoMemory>
    ensures list { OnOk result (declarations_seen list.new.items ≡ declarations_seen list.old.items ++ map (param_declared group.now.is_local group.now.signed
        (bounds_seen bounds.entry.bounds)) (map parameter_of params.now)) }
    ensures grouped { OnOk result (AddsGrouped (BoundsIn bounds.entry) list.old.items list.new.items) }
{
    'params: for param in params {
        let declared = Declared::Param {
            is_local: group.is_local,
            signed: group.signed,
            bounds,
            value: &param.value,
        };
        push(
            Declaration {
                name: &param.name,
                place: param.place,
                declared,
            },
            list,
        )?;
    }
    Ok(())
}

/// Adds parameters that are declared together.
fn push_params<'m>(
    group: &'m Params,
    groups: &mut Vec<Bounds<'m>>,
    list: &mut Vec<Declaration<'m>>,
) -> Result<(), NoMemory>
    requires { AreGrouped groups.old.items list.old.items }
    ensures list { OnOk result (declarations_seen list.new.items ≡ declarations_seen list.old.items ++ parameter_declarations (parameters_of group.now)) }
    ensures grouped { OnOk result (AreGrouped groups.new.items list.new.items) }
{
    let bounds = new_group(bounds_of(&group.range), groups)?;
    push_each_param(group, bounds, group.params.as_slice(), list)?;
    Ok(())
}

/// Adds names that are all declared as one thing.
fn push_names<'m>(
    declared: Declared<'m>,
    names: &'m [Name],
    list: &mut Vec<Declaration<'m>>,
) -> Result<(), NoMemory>
    ensures list { OnOk result (declarations_seen list.new.items ≡ declarations_seen list.old.items ++ map (name_declared (declared_seen declared.entry)) (map name_of names.now)) }
    ensures grouped { OnOk result (AddsGrouped (DeclaredIn declared.entry) list.old.items list.new.items) }
{
    'names: for name in names {
        push(
            Declaration {
                name: &name.name,
                place: name.place,
                declared,
            },
            list,
        )?;
    }
    Ok(())
}

/// Adds ports that are declared together.
fn push_ports<'m>(
    group: &'m Ports,
    groups: &mut Vec<Bounds<'m>>,
    list: &mut Vec<Declaration<'m>>,
) -> Result<(), NoMemory>
    requires { AreGrouped groups.old.items list.old.items }
    ensures list { OnOk result (declarations_seen list.new.items ≡ declarations_seen list.old.items ++ port_declarations (ports_of group.now)) }
    ensures grouped { OnOk result (AreGrouped groups.new.items list.new.items) }
{
    let bounds = new_group(bounds_of(&group.range), groups)?;
    let declared = Declared::Port {
        direction: group.direction,
        is_reg: group.is_reg,
        signed: group.signed,
        bounds,
        first: None,
    };
    push_names(declared, group.names.as_slice(), list)?;
    Ok(())
}

/// Adds nets that are declared together.
fn push_wires<'m>(
    signed: bool,
    bounds: GroupBounds<'m>,
    wires: &'m [Wire],
    list: &mut Vec<Declaration<'m>>,
) -> Result<(), NoMemory>
    ensures list { OnOk result (declarations_seen list.new.items ≡ declarations_seen list.old.items ++ wire_declarations signed (bounds_seen bounds.entry.bounds) (map wire_of wires.now)) }
    ensures grouped { OnOk result (AddsGrouped (BoundsIn bounds.entry) list.old.items list.new.items) }
{
    'wires: for wire in wires {
        let declared = Declared::Net { signed, bounds };
        push(
            Declaration {
                name: &wire.name,
                place: wire.place,
                declared,
            },
            list,
        )?;
    }
    Ok(())
}

/// What a variable is declared as, by what stands behind its name.
fn reg_declared<'m>(signed: bool, bounds: GroupBounds<'m>, content: &'m Content) -> Declared<'m>
    ensures declared { declared_seen result ≡ reg_declared signed (bounds_seen bounds.entry.bounds) (content_of content.now) }
    ensures bounds { group_bounds result ≡ Some bounds.entry }
{
    match content {
        Content::Nothing => Declared::Reg {
            signed,
            bounds,
            first: None,
        },
        Content::First(value) => Declared::Reg {
            signed,
            bounds,
            first: Some(value),
        },
        Content::Memory(addresses) => Declared::Memory {
            signed,
            bounds,
            addresses,
        },
    }
}

/// Adds variables that are declared together.
fn push_regs<'m>(
    signed: bool,
    bounds: GroupBounds<'m>,
    regs: &'m [Reg],
    list: &mut Vec<Declaration<'m>>,
) -> Result<(), NoMemory>
    ensures list { OnOk result (declarations_seen list.new.items ≡ declarations_seen list.old.items ++ reg_declarations signed (bounds_seen bounds.entry.bounds) (map reg_of regs.now)) }
    ensures grouped { OnOk result (AddsGrouped (BoundsIn bounds.entry) list.old.items list.new.items) }
{
    'regs: for reg in regs {
        let declared = reg_declared(signed, bounds, &reg.content);
        push(
            Declaration {
                name: &reg.name,
                place: reg.place,
                declared,
            },
            list,
        )?;
    }
    Ok(())
}

/// Adds the name of a gate, if it has one.
fn push_gate<'m>(gate: &'m Gate, list: &mut Vec<Declaration<'m>>) -> Result<(), NoMemory>
    ensures list { OnOk result (declarations_seen list.new.items ≡ declarations_seen list.old.items ++ gate_declarations (gate_of gate.now ∷ [])) }
    ensures grouped { OnOk result (AddsGrouped InAnyCase list.old.items list.new.items) }
{
    match &gate.name {
        None => Ok(()),
        Some(name) => {
            push(
                Declaration {
                    name: &name.name,
                    place: name.place,
                    declared: Declared::Gate,
                },
                list,
            )?;
            Ok(())
        }
    }
}

/// Adds the names of gates.
fn push_gates<'m>(gates: &'m [Gate], list: &mut Vec<Declaration<'m>>) -> Result<(), NoMemory>
    ensures list { OnOk result (declarations_seen list.new.items ≡ declarations_seen list.old.items ++ gate_declarations (map gate_of gates.now)) }
    ensures grouped { OnOk result (AddsGrouped InAnyCase list.old.items list.new.items) }
{
    'gates: for gate in gates {
        push_gate(gate, list)?;
    }
    Ok(())
}

/// Adds the names of instances.
fn push_instances<'m>(
    instances: &'m [Instance],
    list: &mut Vec<Declaration<'m>>,
) -> Result<(), NoMemory>
    ensures list { OnOk result (declarations_seen list.new.items ≡ declarations_seen list.old.items ++ instance_declarations (map instance_of instances.now)) }
    ensures grouped { OnOk result (AddsGrouped InAnyCase list.old.items list.new.items) }
{
    'instances: for instance in instances {
        push(
            Declaration {
                name: &instance.name,
                place: instance.place,
                declared: Declared::Instance,
            },
            list,
        )?;
    }
    Ok(())
}

/// Adds what an item declares.
fn push_item<'m>(
    item: &'m Item,
    groups: &mut Vec<Bounds<'m>>,
    list: &mut Vec<Declaration<'m>>,
) -> Result<(), NoMemory>
    requires { AreGrouped groups.old.items list.old.items }
    ensures list { OnOk result (declarations_seen list.new.items ≡ declarations_seen list.old.items ++ item_declarations (item_of item.now)) }
    ensures grouped { OnOk result (AreGrouped groups.new.items list.new.items) }
{
    match item {
        Item::Params(group) => {
            push_params(group, groups, list)?;
            Ok(())
        }
        Item::Ports(group) => {
            push_ports(group, groups, list)?;
            Ok(())
        }
        Item::Wire {
            signed,
            range,
            wires,
            ..
        } => {
            let bounds = new_group(bounds_of(range), groups)?;
            push_wires(*signed, bounds, wires.as_slice(), list)?;
            Ok(())
        }
        Item::Reg {
            signed,
            range,
            regs,
            ..
        } => {
            let bounds = new_group(bounds_of(range), groups)?;
            push_regs(*signed, bounds, regs.as_slice(), list)?;
            Ok(())
        }
        Item::Integer { regs, .. } => {
            let bounds = new_group(Bounds::Integer, groups)?;
            push_regs(true, bounds, regs.as_slice(), list)?;
            Ok(())
        }
        Item::Assign { .. } => Ok(()),
        Item::Gate { gates, .. } => {
            push_gates(gates.as_slice(), list)?;
            Ok(())
        }
        Item::Instance { instances, .. } => {
            push_instances(instances.as_slice(), list)?;
            Ok(())
        }
        Item::Initial { .. } => Ok(()),
        Item::Always { .. } => Ok(()),
    }
}

/// Adds what the items declare.
fn push_items<'m>(
    items: &'m [Item],
    groups: &mut Vec<Bounds<'m>>,
    list: &mut Vec<Declaration<'m>>,
) -> Result<(), NoMemory>
    requires { AreGrouped groups.old.items list.old.items }
    ensures list { OnOk result (declarations_seen list.new.items ≡ declarations_seen list.old.items ++ flat_map item_declarations (map item_of items.now)) }
    ensures grouped { OnOk result (AreGrouped groups.new.items list.new.items) }
{
    'items: for item in items {
        push_item(item, groups, list)?;
    }
    Ok(())
}

/// Adds the parameters of groups.
fn push_param_groups<'m>(
    params: &'m [Params],
    groups: &mut Vec<Bounds<'m>>,
    list: &mut Vec<Declaration<'m>>,
) -> Result<(), NoMemory>
    requires { AreGrouped groups.old.items list.old.items }
    ensures list { OnOk result (declarations_seen list.new.items ≡ declarations_seen list.old.items ++ flat_map parameter_declarations (map parameters_of params.now)) }
    ensures grouped { OnOk result (AreGrouped groups.new.items list.new.items) }
{
    'groups: for group in params {
        push_params(group, groups, list)?;
    }
    Ok(())
}

/// Adds the ports of groups.
fn push_port_groups<'m>(
    ports: &'m [Ports],
    groups: &mut Vec<Bounds<'m>>,
    list: &mut Vec<Declaration<'m>>,
) -> Result<(), NoMemory>
    requires { AreGrouped groups.old.items list.old.items }
    ensures list { OnOk result (declarations_seen list.new.items ≡ declarations_seen list.old.items ++ flat_map port_declarations (map ports_of ports.now)) }
    ensures grouped { OnOk result (AreGrouped groups.new.items list.new.items) }
{
    'groups: for group in ports {
        push_ports(group, groups, list)?;
    }
    Ok(())
}

/// Adds what the list of ports declares.
fn push_heads<'m>(
    heads: &'m Heads,
    groups: &mut Vec<Bounds<'m>>,
    list: &mut Vec<Declaration<'m>>,
) -> Result<(), NoMemory>
    requires { AreGrouped groups.old.items list.old.items }
    ensures list { OnOk result (declarations_seen list.new.items ≡ declarations_seen list.old.items ++ head_declarations (heads_of heads.now)) }
    ensures grouped { OnOk result (AreGrouped groups.new.items list.new.items) }
{
    match heads {
        Heads::Plain(_) => Ok(()),
        Heads::Declared(ports) => {
            push_port_groups(ports.as_slice(), groups, list)?;
            Ok(())
        }
    }
}

/// What a module declares.
pub fn declarations_of<'m>(alloc: Global, module: &'m Module) -> Result<Declarations<'m>, NoMemory>
    ensures list { IfOk result (λ declared. declarations_seen declared.list.items ≡ declarations_of (module_of «module».now)) }
    ensures grouped { IfOk result (λ declared. AreGrouped declared.groups.items declared.list.items) }
{
    let mut groups = Vec::new(alloc);
    let mut list = Vec::new(alloc);
    push_param_groups(module.params.as_slice(), &mut groups, &mut list)?;
    push_heads(&module.ports, &mut groups, &mut list)?;
    push_items(module.items.as_slice(), &mut groups, &mut list)?;
    Ok(Declarations { list, groups })
}
