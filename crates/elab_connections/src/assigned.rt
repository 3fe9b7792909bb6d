// The assignments that connections stand for.

ghost use Rattle.std.specs.Prelude.{◌≡◌, ◌++◌, false, Some, OnOk, map, option_map};
ghost use Rattle.v_tree.specs.Views.{connection_of, expression_in, expression_of};
ghost use Rattle.v_width.specs.Targets.{target_of as target_spelled};
ghost use Rattle.v_elab.specs.Connections as plain;
ghost use Rattle.v_elab.specs.Connections.{actual_parts, connection_parts, connections_parts, joined_name, output_parts, port_direction};
ghost use Rattle.elab_parts.specs.PartViews.{parts_of};
ghost use Rattle.instance_checks.specs.Children.{IsChild};
ghost use Rattle.instance_checks.specs.Offered.{name_seen};
ghost use Rattle.elab_connections.specs.PathViews.{ArePaths};
ghost use Rattle.elab_connections.specs.WidePorts.{connects_wide_port, is_wide};
ghost use Rattle.elab_connections.specs.OutputRuns.{OutputTakesRuns, ActualTakesRuns, ConnectionTakesRuns, ConnectionsTakeRuns};

use crate::part::{input_part, output_part};
use crate::paths::Paths;
use elab_parts::Part;
use expr_sizes::target_of;
use instance_checks::Child;
use std::alloc::Global;
use v_tree::{Connection, Direction, Expr};
use vf_base::{NoMemory, Text};

/// Puts the assignment of an output behind other parts; none where its actual is no target.
fn push_output<'u>(
    alloc: Global,
    child: Child<'_, '_>,
    paths: &Paths,
    port: &Text,
    expr: &Expr,
    parts: &mut Vec<Part<'u>>,
) -> Result<(), NoMemory>
    ensures { OnOk result ((c : plain.Child) → IsChild c child.entry → OutputTakesRuns c.outer_scope (target_spelled (expression_of expr.now)) → (p : plain.Paths) → ArePaths p paths.now →
        parts_of parts.new.items ≡ parts_of parts.old.items ++ output_parts c p port.now (expression_of expr.now) (target_spelled (expression_of expr.now))) }
{
    match target_of(alloc, expr)? {
        None => Ok(()),
        Some(target) => {
            parts.push(output_part(alloc, child, paths, port, expr, &target)?)?;
            Ok(())
        }
    }
}

/// Puts the assignment of a port behind other parts, unless the port is joined with its actual.
fn push_actual<'u>(
    alloc: Global,
    child: Child<'_, '_>,
    paths: &Paths,
    port: &Text,
    expr: &Expr,
    parts: &mut Vec<Part<'u>>,
) -> Result<(), NoMemory>
    ensures { OnOk result ((c : plain.Child) → IsChild c child.entry → is_wide c (Some port.now) ≡ false →
        ActualTakesRuns c.outer_scope (expression_of expr.now) (joined_name c port.now (expression_of expr.now)) (port_direction c.inner port.now) → (p : plain.Paths) → ArePaths p paths.now →
        parts_of parts.new.items ≡ parts_of parts.old.items ++ actual_parts c p port.now (expression_of expr.now) (joined_name c port.now
        (expression_of expr.now)) (port_direction c.inner port.now)) }
{
    if child.joined_name(port, expr).is_some() {
        return Ok(());
    }
    match child.formals.direction(port) {
        None => Ok(()),
        Some(Direction::Input) => {
            parts.push(input_part(alloc, child, paths, port, expr)?)?;
            Ok(())
        }
        Some(Direction::Output) => {
            push_output(alloc, child, paths, port, expr, parts)?;
            Ok(())
        }
    }
}

/// Puts the assignment of a connection behind other parts, if it stands for one.
fn push_connection<'u>(
    alloc: Global,
    child: Child<'_, '_>,
    paths: &Paths,
    port: Option<&Text>,
    connection: &Connection,
    parts: &mut Vec<Part<'u>>,
) -> Result<(), NoMemory>
    ensures { OnOk result ((c : plain.Child) → IsChild c child.entry → is_wide c (option_map name_seen port.entry) ≡ false →
        ConnectionTakesRuns c (option_map name_seen port.entry) (expression_in connection.now.actual) → (p : plain.Paths) → ArePaths p paths.now →
        parts_of parts.new.items ≡ parts_of parts.old.items ++ connection_parts c p (option_map name_seen port.entry) (expression_in connection.now.actual)) }
{
    let Some(port) = port else {
        return Ok(());
    };
    match &connection.actual {
        None => Ok(()),
        Some(actual) => {
            push_actual(alloc, child, paths, port, actual, parts)?;
            Ok(())
        }
    }
}

/// Puts the assignments of the connections of an instance behind other parts, in the order of the connections. None of the ports may be wider than a vector may be, and outputs
/// assign runs of bits.
pub fn push_connection_parts<'u>(
    alloc: Global,
    child: Child<'_, 'u>,
    paths: &Paths,
    connections: &'u [Connection],
    parts: &mut Vec<Part<'u>>,
) -> Result<(), NoMemory>
    ensures { OnOk result ((c : plain.Child) → IsChild c child.entry → connects_wide_port c 0 (map connection_of connections.now) ≡ false →
        ConnectionsTakeRuns c 0 (map connection_of connections.now) → (p : plain.Paths) → ArePaths p paths.now →
        parts_of parts.new.items ≡ parts_of parts.old.items ++ connections_parts c p 0 (map connection_of connections.now)) }
{
    'connections: for (position, connection) in connections.iter().enumerate() {
        let port = child.formals.ports().connected(position, connection);
        push_connection(alloc, child, paths, port, connection, parts)?;
    }
    Ok(())
}
