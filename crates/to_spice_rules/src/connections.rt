// Port bits and constants that are locally connected.
ghost use Rattle.std.specs.Prelude.{◌≡◌, ◌<◌, ◌≤◌, ◌||◌, false, length, true, IfOk};
ghost use Rattle.net_bits.specs.Classes.{AreClasses};
ghost use Rattle.net_hier.specs.declared.nodes.Node.TheVariants.{Port};
ghost use Rattle.net_live.specs.Live.{AreCounted, needs_constant as needs_constant_of};
ghost use Rattle.to_spice_rules.specs.Answers.{ConnectionsFound};
ghost use Rattle.to_spice_rules.specs.Found.{CellFound, HasOwnPorts, JoinedFound, NoneBefore, PairFound, PortRefusalFound, earlier_place, end_of_port, first_before};
ghost use Rattle.to_spice_rules.specs.PortWords.{IsOwnBit, word_of};

use crate::refusal::{SpiceRefusal, SpiceRule, refuse_cell, refuse_two};
use net_bits::Classes;
use net_hier::units::port_width;
use net_hier::{HCell, Hier, Node};
use net_live::{bit_word, needs_constant};
use nl_base::{NoMemory, Text};
use std::alloc::Global;
use std::cmp::Ordering;

/// A port bit, and an earlier one that is connected to it.
#[derive(Clone, Copy, PartialEq, Eq)]
pub struct JoinedBits {
    pub first: Node,
    pub later: Node,
}

/// The first node of the class of the node, where it stands before it.
fn first_before(classes: &Classes, node: &Node) -> Option<Node>
    requires { AreCounted classes.now }
    ensures { result ≡ first_before classes.now node.now }
{
    match classes.class_of(node) {
        None => None,
        Some(class) => match classes.members(class) {
            [] => None,
            [first, ..] => match first.cmp(node) {
                Ordering::Less => Some(*first),
                Ordering::Equal => None,
                Ordering::Greater => None,
            },
        },
    }
}

/// The first bit of the port of this number that is connected to an earlier port bit, where no bit of a port before is.
fn joined_in_port(cell: &HCell, classes: &Classes, port: u32) -> Option<JoinedBits>
    requires classes { AreClasses cell.now classes.now }
    requires own { HasOwnPorts cell.now }
    requires port { port < length cell.now.ports }
    requires before { NoneBefore cell.now (Port port 0) }
    ensures { PairFound cell.now (Port port (end_of_port cell.now port)) result }
{
    let width = port_width(&cell.ports.items()[port as usize]);
    for bit in 0..width {
        let later = Node::Port {
            port,
            bit: bit as u32,
        };
        if let Some(first) = first_before(classes, &later) {
            return Some(JoinedBits { first, later });
        }
    }
    None
}

/// The first port bit of a cell that is connected to an earlier one.
fn first_joined(cell: &HCell, classes: &Classes) -> Option<JoinedBits>
    requires classes { AreClasses cell.now classes.now }
    requires own { HasOwnPorts cell.now }
    requires few { length cell.now.ports ≤ 33554432 }
    ensures { JoinedFound cell.now result }
{
    for port in 0..cell.ports.len() {
        if let Some(joined) = joined_in_port(cell, classes, port as u32) {
            return Some(joined);
        }
    }
    None
}

/// The word of a port bit.
fn word_at(alloc: Global, cell: &HCell, node: &Node) -> Result<Text, NoMemory>
    requires { IsOwnBit cell.now node.now }
    ensures { IfOk result (λ word. word ≡ word_of cell.now node.now) }
{
    match node {
        Node::Port { port, bit } => bit_word(alloc, &cell.ports.items()[*port as usize], *bit),
        _ => unreachable!(),
    }
}

/// S5 of a cell.
fn joined_ports(
    alloc: Global,
    cell: &HCell,
    classes: &Classes,
) -> Result<Option<SpiceRefusal>, NoMemory>
    requires classes { AreClasses cell.now classes.now }
    requires own { HasOwnPorts cell.now }
    requires few { length cell.now.ports ≤ 33554432 }
    ensures { IfOk result (PortRefusalFound cell.now) }
{
    match first_joined(cell, classes) {
        None => Ok(None),
        Some(joined) => {
            let first = word_at(alloc, cell, &joined.first)?;
            let later = word_at(alloc, cell, &joined.later)?;
            let name = cell.name.bytes();
            Ok(Some(refuse_two(alloc, SpiceRule::S5, name, first.bytes(), later.bytes())?))
        }
    }
}

/// Whether a class has a constant and a port bit, a pin bit or the other constant.
fn is_tied(classes: &Classes) -> bool
    requires { AreCounted classes.now }
    ensures { result ≡ (needs_constant_of classes.now false || needs_constant_of classes.now true) }
{
    needs_constant(classes, false) || needs_constant(classes, true)
}

/// What breaks the rules of connection in a cell: the refusal of S5, and whether it breaks S6.
#[derive(Drop)]
pub struct CellConnections {
    pub ports: Option<SpiceRefusal>,
    pub is_tied: bool,
}

/// S5 and S6 of the cell of this number.
fn connections_of(alloc: Global, hier: &Hier, number: usize) -> Result<CellConnections, NoMemory>
    requires { number < length hier.now.cells }
    ensures { IfOk result (CellFound hier.now.cells number) }
{
    let cell = &hier.cells()[number];
    let classes = Classes::of_cell_uncounted(alloc, cell)?;
    let ports = joined_ports(alloc, cell, &classes)?;
    let is_tied = is_tied(&classes);
    Ok(CellConnections { ports, is_tied })
}

/// The first of the places so far, or this one.
fn earlier_place(found: Option<usize>, number: usize, is_one: bool) -> Option<usize>
    ensures { result ≡ earlier_place found number is_one }
{
    match found {
        Some(earlier) => Some(earlier),
        None => {
            if is_one {
                return Some(number);
            }
            None
        }
    }
}

/// S5 and S6: no port bit is connected to another of its cell, and no constant to a port bit, a pin bit or the other constant.
pub fn first_connection(alloc: Global, hier: &Hier) -> Result<Option<SpiceRefusal>, NoMemory>
    ensures { IfOk result (ConnectionsFound hier.now.cells) }
{
    let cells = hier.cells();
    let mut tied = None;
    for number in 0..cells.len() {
        let CellConnections { ports, is_tied } = connections_of(alloc, hier, number)?;
        if let Some(refusal) = ports {
            return Ok(Some(refusal));
        }
        tied = earlier_place(tied, number, is_tied);
    }
    match tied {
        None => Ok(None),
        Some(number) => {
            let name = cells[number].name.bytes();
            Ok(Some(refuse_cell(alloc, SpiceRule::S6, name)?))
        }
    }
}
