// The nets of a cell.
ghost use Rattle.std.specs.Prelude.{◌≡◌, ◌<◌, ◌↔◌, IsTrue, Some, length, map, slice_get, IfOk};
ghost use Rattle.std.specs.List.{AllByRecursion};
ghost use Rattle.edif_values.specs.Values.{IsString, IsProperty};
ghost use Rattle.edif_values.specs.declared.net.NetItem.TheVariants as net_items;
ghost use Rattle.edif_written.specs.Naming.{seen, value_of};
ghost use Rattle.edif_written.specs.Sound.{IsShort};
ghost use Rattle.net_hier.specs.Cells.{width_of};
ghost use Rattle.net_live.specs.Last.{last_of};
ghost use Rattle.net_live.specs.Live.{bit_word as bit_word_of, class_props as class_props_of};
ghost use Rattle.edif_plans.specs.NetNames.{first_port_bit as first_port_bit_of, name_of_bit, name_of_class, name_of_net, plain_name as plain_name_of, port_bit as port_bit_of};
ghost use Rattle.edif_plans.specs.References.{CanRefer, FitsCellPlan};
ghost use Rattle.edif_plans.specs.Sound.{IsSoundNet, IsSoundPort};
ghost use Rattle.edif_spaces.specs.Spaces.{AreIdents};
ghost use Rattle.edif_making.specs.Nets.{AreNetsOf, HasFewDigits, HaveNets, HaveSoundNets, IsNetOf};
ghost use Rattle.edif_making.specs.CellPlans.{cell_plan_of};

use crate::members::Members;
use crate::refs::{Scope, refs_of};
use crate::room::give_back;
use edif_naming::{named, properties_of};
use edif_spaces::idents_of;
use edif_values::{ContentsItem, Net, NetItem, Property};
use net_hier::{HCell, HNet, HPort, Node};
use net_live::{bit_word, class_props, first_net, last_values};
use nl_base::{Ident, NoMemory, Seq, Text};
use std::alloc::Global;

/// Whether the port has this bit.
fn has_bit(port: &HPort, bit: u32) -> bool
    ensures { IsTrue result ↔ (bit < width_of port.now.range) }
{
    match port.range {
        None => bit < 1,
        Some(range) => (bit as u64) < range.bits(),
    }
}

/// The index of a bit is one of an `i32`.
fn index_fits(port: &HPort, bit: u32)
    requires { bit < width_of port.now.range }
    ensures { HasFewDigits port.now.range bit }
{
    if let Some(range) = port.range {
        let _index = range.index(bit);
    }
}

/// The name of a bit of the port.
fn word_of(alloc: Global, port: &HPort, bit: u32) -> Result<Text, NoMemory>
    requires { bit < width_of port.now.range }
    ensures word { IfOk result (λ word. word ≡ bit_word_of port.now bit) }
    ensures sound { IsShort port.now.name → IfOk result IsString }
{
    let word = bit_word(alloc, port, bit)?;
    index_fits(port, bit);
    Ok(word)
}

/// The name `net`.
fn plain_name(alloc: Global) -> Result<Text, NoMemory>
    ensures word { IfOk result (λ word. word ≡ plain_name_of) }
    ensures sound { IfOk result IsString }
{
    let word = Text::copy(alloc, b"net")?;
    Ok(word)
}

/// The name of the port's bit, where it has it; else `net`.
#[tactic(auto, using(crate::proofs::NetLaws::bit_there, crate::proofs::NetLaws::bit_past))]
fn bit_name(alloc: Global, port: &HPort, bit: u32) -> Result<Text, NoMemory>
    ensures name { IfOk result (λ word. word ≡ name_of_bit (Some port.now) bit) }
    ensures sound { IsShort port.now.name → IfOk result IsString }
{
    if !has_bit(port, bit) {
        let word = plain_name(alloc)?;
        return Ok(word);
    }
    let word = word_of(alloc, port, bit)?;
    Ok(word)
}

/// The name of a bit of the port of this number, where it is there; else `net`.
#[tactic(auto, using(crate::proofs::NetLaws::port_sound, crate::proofs::NetLaws::port_there, crate::proofs::NetLaws::port_past))]
fn port_name(alloc: Global, ports: &[HPort], port: usize, bit: u32) -> Result<Text, NoMemory>
    ensures name { IfOk result (λ word. word ≡ name_of_bit (slice_get ports.now port) bit) }
    ensures sound { AllByRecursion IsSoundPort ports.now → IfOk result IsString }
{
    if port < ports.len() {
        let word = bit_name(alloc, &ports[port], bit)?;
        return Ok(word);
    }
    let word = plain_name(alloc)?;
    Ok(word)
}

/// The name of the net.
fn own_name(alloc: Global, net: &HNet) -> Result<Text, NoMemory>
    ensures name { IfOk result (λ name. name ≡ net.now.name) }
    ensures sound { IsShort net.now.name → IfOk result IsString }
{
    let name = Text::copy(alloc, net.name.bytes())?;
    Ok(name)
}

/// The name of the net of this number, where it is there; else `net`.
#[tactic(auto, using(crate::proofs::NetLaws::name_sound, crate::proofs::NetLaws::net_there, crate::proofs::NetLaws::net_past))]
fn name_at(alloc: Global, nets: &[HNet], net: usize) -> Result<Text, NoMemory>
    ensures name { IfOk result (λ name. name ≡ name_of_net (slice_get nets.now net)) }
    ensures sound { AllByRecursion IsSoundNet nets.now → IfOk result IsString }
{
    if net < nets.len() {
        let name = own_name(alloc, &nets[net])?;
        return Ok(name);
    }
    let word = plain_name(alloc)?;
    Ok(word)
}

/// The port bit that the node is.
fn port_bit(node: &Node) -> Option<(u32, u32)>
    ensures { result ≡ port_bit_of node.now }
{
    match node {
        Node::Port { port, bit } => Some((*port, *bit)),
        _ => None,
    }
}

/// The first port bit among the nodes.
fn first_port_bit(nodes: &[Node]) -> Option<(u32, u32)>
    ensures { result ≡ first_port_bit_of nodes.now }
{
    for node in nodes {
        if let Some(bit) = port_bit(node) {
            return Some(bit);
        }
    }
    None
}

/// The name of the class's first net, else of its first port bit, else `net`.
#[tactic(auto, using(crate::proofs::NetLaws::name_by_net, crate::proofs::NetLaws::name_by_port, crate::proofs::NetLaws::name_by_none))]
fn net_name(alloc: Global, nets: &[HNet], ports: &[HPort], nodes: &[Node]) -> Result<Text, NoMemory>
    ensures name { IfOk result (λ name. name ≡ name_of_class nets.now ports.now nodes.now) }
    ensures sound { AllByRecursion IsSoundPort ports.now → AllByRecursion IsSoundNet nets.now
        → IfOk result IsString }
{
    if let Some(net) = first_net(nodes) {
        let name = name_at(alloc, nets, net as usize)?;
        return Ok(name);
    }
    if let Some((port, bit)) = first_port_bit(nodes) {
        let name = port_name(alloc, ports, port as usize, bit)?;
        return Ok(name);
    }
    let word = plain_name(alloc)?;
    Ok(word)
}

/// The name of the class of these nodes in the cell of these ports and nets.
fn class_name(
    alloc: Global,
    shown: &HCell,
    inside: &HCell,
    nodes: &[Node],
) -> Result<Text, NoMemory>
    ensures name { IfOk result (λ name. name
        ≡ name_of_class inside.now.nets shown.now.ports nodes.now) }
    ensures sound { AllByRecursion IsSoundPort shown.now.ports
        → AllByRecursion IsSoundNet inside.now.nets → IfOk result IsString }
{
    let nets = inside.nets.items();
    let ports = shown.ports.items();
    let name = net_name(alloc, nets, ports, nodes)?;
    Ok(name)
}

/// The names of the nets of these classes.
fn names_of(
    alloc: Global,
    shown: &HCell,
    inside: &HCell,
    members: &Members,
) -> Result<Vec<Text>, NoMemory>
    ensures { IfOk result (λ names. names.items
        ≡ map (name_of_class inside.now.nets shown.now.ports) members.now) }
{
    let mut names = Vec::with_capacity(alloc, members.len())?;
    for place in 0..members.len() {
        let name = class_name(alloc, shown, inside, members.get(place))?;
        names.push(name)?;
    }
    Ok(names)
}

/// The bytes of the names.
fn lent(alloc: Global, names: &[Text]) -> Result<Vec<&[u8]>, NoMemory>
    ensures { IfOk result (λ lent. seen lent.items ≡ names.now) }
{
    let mut lent = Vec::with_capacity(alloc, names.len())?;
    for name in names {
        lent.push(name.bytes())?;
    }
    Ok(lent)
}

/// The identifiers of the nets of these classes, where the cell has these ports and these nets. The names are left: each is made again with its
/// net.
pub fn net_idents(
    alloc: Global,
    shown: &HCell,
    inside: &HCell,
    members: &Members,
) -> Result<Seq<Ident>, NoMemory>
    ensures { IfOk result
        (AreIdents (map (name_of_class inside.now.nets shown.now.ports) members.now)) }
{
    let names = names_of(alloc, shown, inside, members)?;
    let lent = lent(alloc, names.as_slice())?;
    let idents = idents_of(alloc, lent.as_slice())?;
    Ok(idents)
}

/// The parts of a net: its properties.
fn net_items(alloc: Global, properties: Vec<Property>) -> Result<Seq<NetItem>, NoMemory>
    ensures { IfOk result (λ items. items ≡ map net_items.Property properties.items) }
{
    let mut items = Vec::with_capacity(alloc, properties.len())?;
    for property in properties {
        items.push(NetItem::Property(property))?;
    }
    Ok(Seq::of(items))
}

/// The properties of the nets of a class, the last value of each name.
#[tactic(auto, using(crate::proofs::NetLaws::none_kept, crate::proofs::NetLaws::none_sound))]
fn net_properties(alloc: Global, cell: &HCell, nodes: &[Node]) -> Result<Vec<Property>, NoMemory>
    ensures values { IfOk result
        (λ made. map value_of made.items ≡ last_of (class_props_of cell.now.nets nodes.now)) }
    ensures sound { AllByRecursion IsSoundNet cell.now.nets
        → IfOk result (λ made. AllByRecursion IsProperty made.items) }
{
    let props = class_props(alloc, cell, nodes)?;
    let found = props.as_slice();
    // Most nets have no property.
    if found.len() == 0 {
        return Ok(Vec::new(alloc));
    }
    let kept = last_values(alloc, found)?;
    let last = kept.as_slice();
    let properties = properties_of(alloc, last)?;
    Ok(properties)
}

/// The net of this identifier for the class of these nodes.
fn net_of(alloc: Global, scope: &Scope<'_>, ident: &Ident, nodes: &[Node]) -> Result<Net, NoMemory>
    requires fits { FitsCellPlan (cell_plan_of scope.now) }
    requires there { AllByRecursion (CanRefer (cell_plan_of scope.now)) nodes.now }
    ensures { IfOk result (IsNetOf (cell_plan_of scope.now) ident.now nodes.now) }
{
    let word = class_name(alloc, scope.shown, scope.inside, nodes)?;
    let name = named(alloc, ident, word.bytes())?;
    let joined = refs_of(alloc, scope, nodes)?;
    let properties = net_properties(alloc, scope.inside, nodes)?;
    let items = net_items(alloc, properties)?;
    Ok(Net {
        name,
        joined,
        items,
    })
}

/// The parts of contents with nets behind them, one for each of these classes, under the identifier at its place. The identifiers are left
/// while the nets are made.
pub fn with_nets(
    alloc: Global,
    scope: &Scope<'_>,
    members: &Members,
    idents: Seq<Ident>,
    first: Vec<ContentsItem>,
) -> Result<Vec<ContentsItem>, NoMemory>
    requires fits { FitsCellPlan (cell_plan_of scope.now) }
    requires there { AllByRecursion (AllByRecursion (CanRefer (cell_plan_of scope.now)))
        members.now }
    requires idents { length idents ≡ length members.now }
    ensures { IfOk result (λ items. HaveNets first.items
        (AreNetsOf (cell_plan_of scope.now) idents members.now) items.items) }
{
    let mut left = idents.into_vec();
    left.reverse();
    let mut items = first;
    let mut place: usize = 0;
    while let Some(ident) = left.pop() {
        let net = net_of(alloc, scope, &ident, members.get(place))?;
        items.push(ContentsItem::Net(net))?;
        place += 1;
        give_back(&mut left);
    }
    Ok(items)
}
