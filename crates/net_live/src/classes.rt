// What a class of connected nodes has.
ghost use Rattle.std.specs.Prelude.{◌≡◌, ◌<◌, ◌≤◌, length, count_by, IfOk, OnOk, ◌++◌};
ghost use Rattle.std.specs.List.{list_any};
ghost use Rattle.net_hier.specs.Cells.{constant_node as constant_node_of};
ghost use Rattle.net_hier.specs.declared.nodes.Node.TheVariants.{Net};
ghost use Rattle.net_live.specs.Last.{seen};
ghost use Rattle.net_live.specs.Live.{AreCounted, first_net as first_net_of, class_props as class_props_of, has_property as has_property_in, have_property as have_property_in, has_two_ends, is_bit as is_bit_node, is_end as is_end_node, is_live as is_live_class, net_of, needs_constant as needs_constant_of, props_of_node};

use crate::last::add_props;
use net_bits::Classes;
use net_hier::{HCell, HProp, Node};
use nl_base::NoMemory;
use std::alloc::Global;

/// Whether the node is a port bit or a pin bit.
fn is_bit(node: &Node) -> bool
    ensures { result ≡ is_bit_node node.now }
{
    matches!(node, Node::Port { .. } | Node::Pin { .. })
}

/// Whether the node is a port bit, a pin bit or a constant.
fn is_end(node: &Node) -> bool
    ensures { result ≡ is_end_node node.now }
{
    !matches!(node, Node::Net(_))
}

/// How many of the nodes are port bits or pin bits.
fn bit_count(nodes: &[Node]) -> usize
    ensures { result ≡ count_by is_bit_node nodes.now }
{
    nodes.iter().filter(|node| is_bit(node)).count()
}

/// How many of the nodes are port bits, pin bits or constants.
pub fn end_count(nodes: &[Node]) -> usize
    ensures { result ≡ count_by is_end_node nodes.now }
{
    nodes.iter().filter(|node| is_end(node)).count()
}

/// The number of the net that the node is.
fn net_of(node: &Node) -> Option<u32>
    ensures { result ≡ net_of node.now }
{
    match node {
        Node::Net(net) => Some(*net),
        _ => None,
    }
}

/// The first net among the nodes.
pub fn first_net(nodes: &[Node]) -> Option<u32>
    ensures { result ≡ first_net_of nodes.now }
{
    for node in nodes {
        if let Some(net) = net_of(node) {
            return Some(net);
        }
    }
    None
}

/// The properties of the net of this number, where there is one.
fn net_props(cell: &HCell, net: u32) -> &[HProp]
    ensures { result.now ≡ props_of_node cell.now.nets (Net net) }
{
    match cell.nets.items().get(net as usize) {
        None => &[],
        Some(net) => net.props.items(),
    }
}

/// Whether the node is a net with a property.
fn has_property(cell: &HCell, node: &Node) -> bool
    ensures { result ≡ has_property_in cell.now.nets node.now }
{
    match node {
        Node::Net(net) => !net_props(cell, *net).is_empty(),
        _ => false,
    }
}

/// Whether a net among the nodes has a property.
pub fn have_property(cell: &HCell, nodes: &[Node]) -> bool
    ensures { result ≡ have_property_in cell.now.nets nodes.now }
{
    nodes.iter().any(|node| has_property(cell, node))
}

/// Whether the class of these nodes has two port bits, pin bits or constants, or a port bit or pin bit and a net with a property.
pub fn is_live(cell: &HCell, nodes: &[Node]) -> bool
    ensures { result ≡ is_live_class cell.now.nets nodes.now }
{
    end_count(nodes) > 1 || (bit_count(nodes) > 0 && have_property(cell, nodes))
}

/// Adds the properties of the node, where it is a net.
fn add_net_props<'a>(
    cell: &'a HCell,
    node: &Node,
    found: &mut Vec<&'a HProp>,
) -> Result<(), NoMemory>
    ensures { OnOk result (seen found.new.items
        ≡ seen found.old.items ++ props_of_node cell.now.nets node.now) }
{
    match node {
        Node::Net(net) => {
            add_props(net_props(cell, *net), found)?;
            Ok(())
        }
        _ => Ok(()),
    }
}

/// The properties of the nets among the nodes, in order.
pub fn class_props<'a>(
    alloc: Global,
    cell: &'a HCell,
    nodes: &[Node],
) -> Result<Vec<&'a HProp>, NoMemory>
    ensures { IfOk result (λ found. seen found.items ≡ class_props_of cell.now.nets nodes.now) }
{
    let mut found = Vec::new(alloc);
    for node in nodes {
        add_net_props(cell, node, &mut found)?;
    }
    Ok(found)
}

/// The node of a constant: `false` is the zero.
fn constant_node(value: bool) -> Node
    ensures { result ≡ constant_node_of value }
{
    if value { Node::One } else { Node::Zero }
}

/// Whether the constant is connected to a port bit, a pin bit or the other constant.
pub fn needs_constant(classes: &Classes, value: bool) -> bool
    requires { AreCounted classes.now }
    ensures { result ≡ needs_constant_of classes.now value }
{
    match classes.class_of(&constant_node(value)) {
        None => false,
        Some(class) => end_count(classes.members(class)) > 1,
    }
}
