// The ports that are one object with what they are connected to.

ghost use Rattle.std.specs.Prelude.{◌≡◌, ◌++◌, ◌∷◌, [], IfOk, OnOk, map, option_map, Some};
ghost use Rattle.vf_base.specs.Base.{source_place};
ghost use Rattle.v_tree.specs.Trees.{place_of_expression};
ghost use Rattle.v_tree.specs.Views.{connection_of, expression_in, expression_of};
ghost use Rattle.v_elab.specs.Connections as plain;
ghost use Rattle.v_elab.specs.Connections.{connection_joins as source_joins, connections_joins, joined_name, port_direction, port_joined};
ghost use Rattle.instance_checks.specs.Children.{IsChild};
ghost use Rattle.instance_checks.specs.Offered.{name_seen};
ghost use Rattle.elab_items.specs.Joins.{port_joined_of};
ghost use Rattle.elab_connections.specs.PathViews.{ArePaths};

use crate::paths::Paths;
use elab_items::{PortJoined, hierarchical};
use elab_parts::Joining;
use instance_checks::Child;
use std::alloc::Global;
use v_copy::copy_text;
use v_names::place_of_expr;
use v_tree::{Connection, Direction, Expr};
use vf_base::{NoMemory, Place, Text};

/// A port that is one object with a net or a variable.
fn joined_port(
    alloc: Global,
    paths: &Paths,
    port: &Text,
    place: Place,
    name: &Text,
    direction: Direction,
) -> Result<PortJoined, NoMemory>
    ensures { IfOk result (λ joined. (p : plain.Paths) → ArePaths p paths.now → port_joined_of joined ∷ [] ≡ port_joined p port.now (source_place place) (Some name.now) (Some direction)) }
{
    let into = hierarchical(alloc, &paths.outer, name.as_bytes())?;
    let port = copy_text(alloc, port)?;
    let joining = Joining {
        into,
        direction,
        place,
    };
    Ok(PortJoined { port, joining })
}

/// Puts a port behind others that are joined, if it is joined with its actual.
fn push_joined(
    alloc: Global,
    child: Child<'_, '_>,
    paths: &Paths,
    port: &Text,
    expr: &Expr,
    joins: &mut Vec<PortJoined>,
) -> Result<(), NoMemory>
    ensures { OnOk result ((c : plain.Child) → IsChild c child.entry → (p : plain.Paths) → ArePaths p paths.now →
        map port_joined_of joins.new.items ≡ map port_joined_of joins.old.items ++ port_joined p port.now (place_of_expression (expression_of expr.now))
        (joined_name c port.now (expression_of expr.now)) (port_direction c.inner port.now)) }
{
    let Some(name) = child.joined_name(port, expr) else {
        return Ok(());
    };
    match child.formals.direction(port) {
        None => Ok(()),
        Some(direction) => {
            let place = place_of_expr(expr);
            joins.push(joined_port(alloc, paths, port, place, name, direction)?)?;
            Ok(())
        }
    }
}

/// Puts the port of a connection behind others that are joined, if it is joined.
fn push_connected(
    alloc: Global,
    child: Child<'_, '_>,
    paths: &Paths,
    port: Option<&Text>,
    connection: &Connection,
    joins: &mut Vec<PortJoined>,
) -> Result<(), NoMemory>
    ensures { OnOk result ((c : plain.Child) → IsChild c child.entry → (p : plain.Paths) → ArePaths p paths.now →
        map port_joined_of joins.new.items ≡ map port_joined_of joins.old.items ++ source_joins c p (option_map name_seen port.entry) (expression_in connection.now.actual)) }
{
    let Some(port) = port else {
        return Ok(());
    };
    match &connection.actual {
        None => Ok(()),
        Some(actual) => {
            push_joined(alloc, child, paths, port, actual, joins)?;
            Ok(())
        }
    }
}

/// The ports of an instance that are joined, in the order of its connections.
pub fn connection_joins<'u>(
    alloc: Global,
    child: Child<'_, 'u>,
    paths: &Paths,
    connections: &'u [Connection],
) -> Result<Vec<PortJoined>, NoMemory>
    ensures { IfOk result (λ joins. (c : plain.Child) → IsChild c child.entry → (p : plain.Paths) → ArePaths p paths.now →
        map port_joined_of joins.items ≡ connections_joins c p 0 (map connection_of connections.now)) }
{
    let mut joins = Vec::new(alloc);
    'connections: for (position, connection) in connections.iter().enumerate() {
        let port = child.formals.ports().connected(position, connection);
        push_connected(alloc, child, paths, port, connection, &mut joins)?;
    }
    Ok(joins)
}
