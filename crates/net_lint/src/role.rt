// What a terminal does to those that are connected to it.
ghost use Rattle.std.specs.Prelude.{◌≡◌};
ghost use Rattle.flat_classes.specs.Ways.{IsTerminal};
ghost use Rattle.net_lint.specs.Roles.{is_driver, is_sink, pin_role, port_role, role_of};

use flat_classes::{Spot, Terminal};
use flat_report::lines::port_at;
use net_hier::Hier;
use nl_base::Dir;

/// What a terminal does.
#[derive(Clone, Copy)]
pub enum Role {
    /// It drives: an input of the top, an output of a leaf, a constant.
    Driver,
    /// It is driven: an output of the top, an input of a leaf.
    Sink,
    /// It goes both ways.
    Both,
}

/// The role of a port of the top.
fn port_role(dir: Dir) -> Role
    ensures { result ≡ port_role dir }
{
    match dir {
        Dir::Input => Role::Driver,
        Dir::Output => Role::Sink,
        Dir::Inout => Role::Both,
    }
}

/// The role of a pin of a leaf.
fn pin_role(dir: Dir) -> Role
    ensures { result ≡ pin_role dir }
{
    match dir {
        Dir::Input => Role::Sink,
        Dir::Output => Role::Driver,
        Dir::Inout => Role::Both,
    }
}

/// The role of a terminal.
pub fn role_of(hier: &Hier, spots: &[Spot], terminal: Terminal) -> Role
    requires { IsTerminal hier.now.cells spots.now terminal }
    ensures { result ≡ role_of hier.now.cells spots.now terminal }
{
    match terminal {
        Terminal::Port { port, bit: _ } => port_role(port_at(hier, spots, 0, port).dir),
        Terminal::Pin { spot, port, bit: _ } => pin_role(port_at(hier, spots, spot, port).dir),
        Terminal::Zero => Role::Driver,
        Terminal::One => Role::Driver,
    }
}

/// Whether this is a driver.
pub fn is_driver(role: Role) -> bool
    ensures { result ≡ is_driver role }
{
    match role {
        Role::Driver => true,
        Role::Sink | Role::Both => false,
    }
}

/// Whether this is a sink.
pub fn is_sink(role: Role) -> bool
    ensures { result ≡ is_sink role }
{
    match role {
        Role::Sink => true,
        Role::Driver | Role::Both => false,
    }
}
