// How many assignments connections stand for.

ghost use Rattle.std.specs.Prelude.{◌≤◌, IfOk, map, option_map};
ghost use Rattle.v_tree.specs.Trees.{Identifier, SourceExpression};
ghost use Rattle.v_tree.specs.Views as views;
ghost use Rattle.v_tree.specs.Views.{connection_of, expression_in, expression_of};
ghost use Rattle.v_width.specs.Targets.{target_of as target_spelled};
ghost use Rattle.v_elab.specs.Connections as plain;
ghost use Rattle.v_elab.specs.Connections.{actual_parts, connection_parts, connections_parts, joined_name, output_parts, port_direction};
ghost use Rattle.instance_checks.specs.Children.{IsChild};
ghost use Rattle.instance_checks.specs.Offered.{name_seen};
ghost use Rattle.elab_connections.specs.NodeCounts.{CountsNodes};

use expr_sizes::target_of;
use instance_checks::Child;
use std::alloc::Global;
use v_tree::{Connection, Direction, Expr, Target};
use vf_base::{NoMemory, Text};

/// How many assignments an output stands for, by its actual as a target.
fn target_nodes(target: &Option<Target>) -> u64
    ensures counts { (c : plain.Child) (p : plain.Paths) (port : Identifier) (e : SourceExpression) → CountsNodes (output_parts c p port e (option_map views.target_of target.now)) result }
    ensures most { result ≤ 1 }
{
    match target {
        None => 0,
        Some(_) => 1,
    }
}

/// How many assignments an output stands for, by its actual.
fn output_nodes(alloc: Global, expr: &Expr) -> Result<u64, NoMemory>
    ensures counts { IfOk result (λ nodes. (c : plain.Child) (p : plain.Paths) (port : Identifier) (e : SourceExpression) →
        CountsNodes (output_parts c p port e (target_spelled (expression_of expr.now))) nodes) }
    ensures most { IfOk result (λ nodes. nodes ≤ 1) }
{
    let target = target_of(alloc, expr)?;
    Ok(target_nodes(&target))
}

/// How many assignments a port with an actual stands for.
fn actual_nodes(
    alloc: Global,
    child: Child<'_, '_>,
    port: &Text,
    expr: &Expr,
) -> Result<u64, NoMemory>
    ensures counts { IfOk result (λ nodes. (c : plain.Child) → IsChild c child.entry → (p : plain.Paths) →
        CountsNodes (actual_parts c p port.now (expression_of expr.now) (joined_name c port.now (expression_of expr.now)) (port_direction c.inner port.now)) nodes) }
    ensures most { IfOk result (λ nodes. nodes ≤ 1) }
{
    if child.joined_name(port, expr).is_some() {
        return Ok(0);
    }
    match child.formals.direction(port) {
        None => Ok(0),
        Some(Direction::Input) => Ok(1),
        Some(Direction::Output) => {
            let nodes = output_nodes(alloc, expr)?;
            Ok(nodes)
        }
    }
}

/// How many assignments a connection stands for.
fn connected_nodes(
    alloc: Global,
    child: Child<'_, '_>,
    port: Option<&Text>,
    connection: &Connection,
) -> Result<u64, NoMemory>
    ensures counts { IfOk result (λ nodes. (c : plain.Child) → IsChild c child.entry → (p : plain.Paths) →
        CountsNodes (connection_parts c p (option_map name_seen port.entry) (expression_in connection.now.actual)) nodes) }
    ensures most { IfOk result (λ nodes. nodes ≤ 1) }
{
    let Some(port) = port else {
        return Ok(0);
    };
    match &connection.actual {
        None => Ok(0),
        Some(actual) => {
            let nodes = actual_nodes(alloc, child, port, actual)?;
            Ok(nodes)
        }
    }
}

/// How many assignments the connections of an instance stand for.
pub fn connection_nodes<'u>(
    alloc: Global,
    child: Child<'_, 'u>,
    connections: &'u [Connection],
) -> Result<u64, NoMemory>
    ensures { IfOk result (λ nodes. (c : plain.Child) → IsChild c child.entry → (p : plain.Paths) → CountsNodes (connections_parts c p 0 (map connection_of connections.now)) nodes) }
{
    let mut nodes = 0;
    'connections: for (position, connection) in connections.iter().enumerate() {
        let port = child.formals.ports().connected(position, connection);
        nodes += connected_nodes(alloc, child, port, connection)?;
    }
    Ok(nodes)
}
