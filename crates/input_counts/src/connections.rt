// Connections of an instance.

ghost use Rattle.std.specs.Prelude.{◌≡◌, IfOk, map, option_map};
ghost use Rattle.v_tree.specs.Views.{connection_of, expression_in, expression_of};
ghost use Rattle.v_elab.specs.Connections as plain;
ghost use Rattle.v_elab.specs.Connections.{joined_name, port_direction};
ghost use Rattle.v_elab.specs.ReadCounts.{some_reads_over, actual_reads, connection_reads, connections_reads};
ghost use Rattle.instance_checks.specs.Children.{IsChild};
ghost use Rattle.instance_checks.specs.Offered.{name_seen};

use crate::counts::value_over;
use instance_checks::Child;
use std::alloc::Global;
use v_tree::{Connection, Direction, Expr};
use vf_base::{NoMemory, Text};

/// Whether a port is an input that is assigned an actual which reads too many objects.
fn actual_reads_over(
    alloc: Global,
    child: Child<'_, '_>,
    port: &Text,
    expr: &Expr,
) -> Result<bool, NoMemory>
    ensures { IfOk result (λ over. (c : plain.Child) → IsChild c child.entry →
        over ≡ some_reads_over c.outer_scope (actual_reads (expression_of expr.now) (joined_name c port.now (expression_of expr.now)) (port_direction c.inner port.now))) }
{
    if child.joined_name(port, expr).is_some() {
        return Ok(false);
    }
    match child.formals.direction(port) {
        None => Ok(false),
        Some(Direction::Output) => Ok(false),
        Some(Direction::Input) => {
            let over = value_over(alloc, child.outer, expr)?;
            Ok(over)
        }
    }
}

/// Whether a connection stands for an assignment that reads too many objects.
fn connected_reads_over(
    alloc: Global,
    child: Child<'_, '_>,
    port: Option<&Text>,
    connection: &Connection,
) -> Result<bool, NoMemory>
    ensures { IfOk result (λ over. (c : plain.Child) → IsChild c child.entry →
        over ≡ some_reads_over c.outer_scope (connection_reads c (option_map name_seen port.entry) (expression_in connection.now.actual))) }
{
    let Some(port) = port else {
        return Ok(false);
    };
    match &connection.actual {
        None => Ok(false),
        Some(actual) => {
            let over = actual_reads_over(alloc, child, port, actual)?;
            Ok(over)
        }
    }
}

/// Whether one of the connections of an instance stands for an assignment that reads more objects than a node may.
pub fn connection_reads_over<'u>(
    alloc: Global,
    child: Child<'_, 'u>,
    connections: &'u [Connection],
) -> Result<bool, NoMemory>
    ensures { IfOk result (λ over. (c : plain.Child) → IsChild c child.entry → over ≡ some_reads_over c.outer_scope (connections_reads c 0 (map connection_of connections.now))) }
{
    'connections: for (position, connection) in connections.iter().enumerate() {
        let port = child.formals.ports().connected(position, connection);
        let over = connected_reads_over(alloc, child, port, connection)?;
        if over {
            return Ok(true);
        }
    }
    Ok(false)
}
