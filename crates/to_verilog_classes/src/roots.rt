// The nodes that stand for what has a hub.
ghost use Rattle.std.specs.Prelude.{◌≡◌, ◌<◌, ◌++◌, option_to_list, take, is_none, IsPermutation, IfOk, OnOk};
ghost use Rattle.std.specs.List.{range_with_len};
ghost use Rattle.net_hier.specs.Cells.{width_of as width};
ghost use Rattle.to_verilog_classes.specs.Groups.{live_class};
ghost use Rattle.to_verilog_classes.specs.Roots.{AddsKeys, AreWidePorts, first_members, of_live, open_bits, open_pins, pin_port, pin_width, port_width, root_list, wide_among, wide_port};

use crate::groups::Groups;
use indexmap::IndexSet;
use net_hier::{HCell, Hier, Node};
use nl_base::{NoMemory, Range};
use std::alloc::Global;

/// The first bit of the port of an instance of which this is a bit.
pub fn pin_port(node: &Node) -> Option<Node>
    ensures { result ≡ pin_port node.now }
{
    match node {
        Node::Pin { instance, port, .. } => Some(Node::Pin {
            instance: *instance,
            port: *port,
            bit: 0,
        }),
        _ => None,
    }
}

/// How many bits a port has.
pub fn width_of(range: Option<Range>) -> u32
    ensures { result ≡ width range }
{
    match range {
        None => 1,
        Some(range) => range.bits() as u32,
    }
}

/// How many bits the port of a cell has; none where it is not there.
fn port_width(cell: &HCell, port: u32) -> u32
    ensures { result ≡ port_width cell.now port }
{
    match cell.ports.items().get(port as usize) {
        None => 0,
        Some(port) => width_of(port.range),
    }
}

/// How many bits the port of an instance has; none where it is not there.
fn pin_width(hier: &Hier, cell: &HCell, instance: u32, port: u32) -> u32
    ensures { result ≡ pin_width hier.now.cells cell.now instance port }
{
    match cell.instances.items().get(instance as usize) {
        None => 0,
        Some(instance) => match hier.cells().get(instance.cell as usize) {
            None => 0,
            Some(below) => port_width(below, port),
        },
    }
}

/// The first bit of the port of an instance of which this is a bit, where that port has several bits.
fn wide_port(hier: &Hier, cell: &HCell, node: &Node) -> Option<Node>
    ensures { result ≡ wide_port hier.now.cells cell.now node.now }
{
    match *node {
        Node::Pin { instance, port, .. } => {
            if pin_width(hier, cell, instance, port) > 1 {
                return Some(Node::Pin {
                    instance,
                    port,
                    bit: 0,
                });
            }
            None
        }
        Node::Port { .. } => None,
        Node::Net(_) => None,
        Node::Zero => None,
        Node::One => None,
    }
}

/// Adds the port of several bits of an instance of which the node is a bit.
fn add_port(
    hier: &Hier,
    cell: &HCell,
    node: &Node,
    ports: &mut IndexSet<Node>,
) -> Result<(), NoMemory>
    ensures { OnOk result (AddsKeys ports.old.keys ports.new.keys
        (option_to_list (wide_port hier.now.cells cell.now node.now))) }
{
    match wide_port(hier, cell, node) {
        None => Ok(()),
        Some(port) => {
            ports.insert(port)?;
            Ok(())
        }
    }
}

/// Adds the ports of several bits of instances of which a bit is among the nodes.
fn add_ports(
    hier: &Hier,
    cell: &HCell,
    nodes: &[Node],
    ports: &mut IndexSet<Node>,
) -> Result<(), NoMemory>
    ensures { OnOk result (AddsKeys ports.old.keys ports.new.keys
        (wide_among hier.now.cells cell.now nodes.now)) }
{
    for node in nodes {
        add_port(hier, cell, node, ports)?;
    }
    Ok(())
}

/// Adds the ports of several bits of instances of which a bit is in the class, where that is written.
fn add_class(
    hier: &Hier,
    cell: &HCell,
    groups: &Groups,
    class: u32,
    ports: &mut IndexSet<Node>,
) -> Result<(), NoMemory>
    requires { class < groups.now.classes.count }
    ensures { OnOk result (AddsKeys ports.old.keys ports.new.keys
        (of_live groups.now (wide_among hier.now.cells cell.now) class)) }
{
    if groups.is_live(class) {
        add_ports(hier, cell, groups.members(class), ports)?;
        return Ok(());
    }
    Ok(())
}

/// The ports of several bits of instances of which a bit is written, each as its first bit.
pub fn wide_ports(
    alloc: Global,
    hier: &Hier,
    cell: &HCell,
    groups: &Groups,
) -> Result<IndexSet<Node>, NoMemory>
    ensures { IfOk result
        (λ ports. AreWidePorts hier.now.cells cell.now groups.now ports.keys) }
{
    let mut ports = IndexSet::new(alloc);
    for class in 0..groups.count() {
        add_class(hier, cell, groups, class, &mut ports)?;
    }
    Ok(ports)
}

/// Whether the bit is in no class that is written.
fn is_open(groups: &Groups, pin: &Node) -> bool
    ensures { result ≡ is_none (live_class groups.now pin.now) }
{
    groups.live_class(pin).is_none()
}

/// Adds the bits of the port of an instance, of so many bits, that are in no class that is written.
fn push_open_pins(
    groups: &Groups,
    instance: u32,
    port: u32,
    width: u32,
    roots: &mut Vec<Node>,
) -> Result<(), NoMemory>
    ensures added { OnOk result (roots.new.items
        ≡ roots.old.items ++ open_pins groups.now instance port (range_with_len 0 width)) }
{
    for bit in 0..width {
        let pin = Node::Pin {
            instance,
            port,
            bit,
        };
        if is_open(groups, &pin) {
            roots.push(pin)?;
        }
    }
    Ok(())
}

/// Adds the bits of the port of an instance that are in no class that is written.
fn push_open_bits(
    hier: &Hier,
    cell: &HCell,
    groups: &Groups,
    port: &Node,
    roots: &mut Vec<Node>,
) -> Result<(), NoMemory>
    ensures added { OnOk result (roots.new.items
        ≡ roots.old.items ++ open_bits hier.now.cells cell.now groups.now port.now) }
{
    match *port {
        Node::Pin { instance, port, .. } => {
            let width = pin_width(hier, cell, instance, port);
            push_open_pins(groups, instance, port, width, roots)?;
            Ok(())
        }
        Node::Port { .. } => Ok(()),
        Node::Net(_) => Ok(()),
        Node::Zero => Ok(()),
        Node::One => Ok(()),
    }
}

/// The first node of the class, where it is written.
fn first_written(groups: &Groups, class: u32) -> Option<Node>
    requires { class < groups.now.classes.count }
    ensures { option_to_list result ≡ of_live groups.now (take 1) class }
{
    if !groups.is_live(class) {
        return None;
    }
    match groups.members(class) {
        [] => None,
        [first, ..] => Some(*first),
    }
}

/// Adds the first node of each class that is written.
fn push_first_members(groups: &Groups, roots: &mut Vec<Node>) -> Result<(), NoMemory>
    ensures added { OnOk result (roots.new.items ≡ roots.old.items ++ first_members groups.now) }
{
    for class in 0..groups.count() {
        if let Some(first) = first_written(groups, class) {
            roots.push(first)?;
        }
    }
    Ok(())
}

/// The nodes that stand for what has a hub, in order: the first node of each class that is written, and the other bits of the ports of
/// several bits of which a bit is written.
pub fn roots_of(
    alloc: Global,
    hier: &Hier,
    cell: &HCell,
    groups: &Groups,
    ports: &IndexSet<Node>,
) -> Result<Vec<Node>, NoMemory>
    ensures { IfOk result
        (λ roots. IsPermutation
        (root_list hier.now.cells cell.now groups.now ports.now.keys) roots.items) }
{
    let mut roots = Vec::new(alloc);
    push_first_members(groups, &mut roots)?;
    for number in 0..ports.len() {
        if let Some(port) = ports.get_index(number) {
            push_open_bits(hier, cell, groups, port, &mut roots)?;
        }
    }
    roots.sort()?;
    Ok(roots)
}
