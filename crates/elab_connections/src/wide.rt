// Connected ports that are wider than a vector may be.

ghost use Rattle.std.specs.Prelude.{◌≡◌, map, option_map};
ghost use Rattle.v_tree.specs.Views.{connection_of};
ghost use Rattle.v_elab.specs.Connections as plain;
ghost use Rattle.instance_checks.specs.Children.{IsChild};
ghost use Rattle.instance_checks.specs.Offered.{name_seen};
ghost use Rattle.elab_connections.specs.WidePorts.{connects_wide_port, is_wide};

use instance_checks::Child;
use v_tree::Connection;
use vf_base::{MAX_BITS, Text};

/// Whether a port is wider than a vector may be.
fn is_wide(child: Child<'_, '_>, port: Option<&Text>) -> bool
    ensures { (c : plain.Child) → IsChild c child.entry → result ≡ is_wide c (option_map name_seen port.entry) }
{
    match port {
        None => false,
        Some(port) => child.port_width(port) > u64::from(MAX_BITS),
    }
}

/// Whether an instance connects a port that is wider than a vector may be, whose declaration is refused.
pub fn connects_wide_port<'u>(child: Child<'_, 'u>, connections: &'u [Connection]) -> bool
    ensures { (c : plain.Child) → IsChild c child.entry → result ≡ connects_wide_port c 0 (map connection_of connections.now) }
{
    'connections: for (position, connection) in connections.iter().enumerate() {
        if is_wide(child, child.formals.ports().connected(position, connection)) {
            return true;
        }
    }
    false
}
