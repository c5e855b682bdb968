// The assigns of classes.
ghost use Rattle.std.specs.Prelude.{◌≡◌, ◌++◌, ◌<◌, Some, map, option_to_list, IfOk, OnOk};
ghost use Rattle.to_verilog_classes.specs.Roots.{of_live};
ghost use Rattle.vlog_written.specs.Written.{assign_item};
ghost use Rattle.to_verilog_items.specs.Assigns.{assign_of, assigned, assigns_among, assigns_of, constant_assign, feeds, is_input, is_port, member_assign, port_assign};

use crate::exprs::{constant_expr, hub_expr, port_expr};
use net_hier::{HPort, Node};
use nl_base::{BoxedList, Dir, NoMemory, Seq, Text};
use std::alloc::Global;
use to_verilog_wires::{Hub, Wiring};
use vlog_values::{Assignment, Assigns, Expr, ItemV};

/// Whether the hub is this port bit.
fn is_port(hub: Hub, port: u32, bit: u32) -> bool
    ensures { result ≡ is_port hub port bit }
{
    match hub {
        Hub::Port {
            port: other,
            bit: place,
        } => other == port && place == bit,
        Hub::Wire(_) => false,
    }
}

/// Whether the port of this number is an input.
fn is_input(ports: &[HPort], port: u32) -> bool
    ensures { result ≡ is_input ports.now port }
{
    match ports.get(port as usize) {
        None => false,
        Some(port) => match port.dir {
            Dir::Input => true,
            Dir::Output => false,
            Dir::Inout => false,
        },
    }
}

/// Whether the hub is a wire that the port of this number feeds.
fn feeds(ports: &[HPort], port: u32, hub: Hub) -> bool
    ensures { result ≡ feeds ports.now port hub }
{
    match hub {
        Hub::Port { .. } => false,
        Hub::Wire(_) => is_input(ports, port),
    }
}

/// The assign of one side to the other, where both are there.
fn assigned(left: Option<Expr>, right: Option<Expr>) -> Option<Assignment>
    ensures { result ≡ assigned left right }
{
    match left {
        None => None,
        Some(left) => match right {
            None => None,
            Some(right) => Some(Assignment { left, right }),
        },
    }
}

/// The assign between a port bit and the hub of its class, where this is another.
fn port_assign(
    alloc: Global,
    ports: &[HPort],
    names: &[Text],
    hub: Hub,
    port: u32,
    bit: u32,
) -> Result<Option<Assignment>, NoMemory>
    ensures { IfOk result (λ made. made ≡ port_assign ports.now names.now hub port bit) }
{
    if is_port(hub, port, bit) {
        return Ok(None);
    }
    let expr = port_expr(alloc, ports, port, bit)?;
    let other = hub_expr(alloc, ports, names, hub)?;
    if feeds(ports, port, hub) {
        return Ok(assigned(other, expr));
    }
    Ok(assigned(expr, other))
}

/// The assign of a constant to the hub of its class.
fn constant_assign(
    alloc: Global,
    ports: &[HPort],
    names: &[Text],
    hub: Hub,
    one: bool,
) -> Result<Option<Assignment>, NoMemory>
    ensures { IfOk result (λ made. made ≡ constant_assign ports.now names.now hub one) }
{
    let left = hub_expr(alloc, ports, names, hub)?;
    let right = constant_expr(alloc, one)?;
    Ok(assigned(left, Some(right)))
}

/// The assign between a node and the hub of its class; none for pin bits and nets.
fn member_assign(
    alloc: Global,
    ports: &[HPort],
    names: &[Text],
    hub: Hub,
    node: Node,
) -> Result<Option<Assignment>, NoMemory>
    ensures { IfOk result (λ made. made ≡ member_assign ports.now names.now hub node) }
{
    match node {
        Node::Port { port, bit } => port_assign(alloc, ports, names, hub, port, bit),
        Node::Zero => constant_assign(alloc, ports, names, hub, false),
        Node::One => constant_assign(alloc, ports, names, hub, true),
        Node::Pin { .. } => Ok(None),
        Node::Net(_) => Ok(None),
    }
}

/// The assign of a node with a hub.
fn hub_assign(
    alloc: Global,
    ports: &[HPort],
    wiring: &Wiring,
    node: &Node,
) -> Result<Option<Assignment>, NoMemory>
    ensures { IfOk result (λ made. made ≡ assign_of ports.now wiring.now node.now) }
{
    match wiring.hub_of(node) {
        None => Ok(None),
        Some(hub) => {
            let made = member_assign(alloc, ports, wiring.names(), hub, *node)?;
            Ok(made)
        }
    }
}

/// The same, where no hub is asked for of a pin bit or a net, which has no assign.
fn assign_of(
    alloc: Global,
    ports: &[HPort],
    wiring: &Wiring,
    node: &Node,
) -> Result<Option<Assignment>, NoMemory>
    ensures { IfOk result (λ made. made ≡ assign_of ports.now wiring.now node.now) }
{
    match node {
        Node::Pin { .. } => Ok(None),
        Node::Net(_) => Ok(None),
        _ => hub_assign(alloc, ports, wiring, node),
    }
}

/// An assign as an item.
fn assign_item(alloc: Global, set: Assignment) -> Result<ItemV, NoMemory>
    ensures { IfOk result (λ made. made ≡ assign_item set) }
{
    let mut sets = Seq::empty(alloc);
    sets.push(set)?;
    Ok(ItemV::Assign(Assigns {
        attrs: BoxedList::empty(),
        sets,
    }))
}

/// Adds the assign of a node with a hub.
fn push_assign(
    alloc: Global,
    ports: &[HPort],
    wiring: &Wiring,
    node: &Node,
    items: &mut Seq<ItemV>,
) -> Result<(), NoMemory>
    ensures { OnOk result (items.new ≡ items.old
        ++ map assign_item (option_to_list (assign_of ports.now wiring.now node.now))) }
{
    let found = assign_of(alloc, ports, wiring, node)?;
    match found {
        None => Ok(()),
        Some(set) => {
            let item = assign_item(alloc, set)?;
            items.push(item)?;
            Ok(())
        }
    }
}

/// Adds the assigns of nodes.
fn push_assigns_among(
    alloc: Global,
    ports: &[HPort],
    wiring: &Wiring,
    nodes: &[Node],
    items: &mut Seq<ItemV>,
) -> Result<(), NoMemory>
    ensures { OnOk result (items.new ≡ items.old
        ++ map assign_item (assigns_among ports.now wiring.now nodes.now)) }
{
    for node in nodes {
        push_assign(alloc, ports, wiring, node, items)?;
    }
    Ok(())
}

/// Adds the assigns of a class, where that is written.
fn push_class(
    alloc: Global,
    ports: &[HPort],
    wiring: &Wiring,
    class: u32,
    items: &mut Seq<ItemV>,
) -> Result<(), NoMemory>
    requires { class < wiring.now.groups.classes.count }
    ensures { OnOk result (items.new ≡ items.old ++ map assign_item
        (of_live wiring.now.groups (assigns_among ports.now wiring.now) class)) }
{
    let groups = wiring.groups();
    if groups.is_live(class) {
        push_assigns_among(alloc, ports, wiring, groups.members(class), items)?;
        return Ok(());
    }
    Ok(())
}

/// Adds the assigns of the classes that are written.
pub fn push_assigns(
    alloc: Global,
    ports: &[HPort],
    wiring: &Wiring,
    items: &mut Seq<ItemV>,
) -> Result<(), NoMemory>
    ensures { OnOk result (items.new ≡ items.old
        ++ map assign_item (assigns_of ports.now wiring.now)) }
{
    for class in 0..wiring.groups().count() {
        push_class(alloc, ports, wiring, class, items)?;
    }
    Ok(())
}
