// The hubs of a cell.
ghost use Rattle.std.specs.Prelude.{◌≡◌, ◌≤◌, length, codes, IfOk, OnOk};
ghost use Rattle.std.specs.List.{list_any};
ghost use Rattle.net_bits.specs.Names.{AreUsed};
ghost use Rattle.net_bits.specs.Neighbours.{same_node};
ghost use Rattle.net_hier.specs.Valid.{IsGoodCell};
ghost use Rattle.to_verilog_wires.specs.Given.{AddsHub, GivesHubs, IsHubFor};
ghost use Rattle.to_verilog_classes.specs.Groups.{around};
ghost use Rattle.to_verilog_wires.specs.IsWiring.{IsWiring};
ghost use Rattle.to_verilog_classes.specs.Roots.{pin_port};
ghost use Rattle.to_verilog_wires.specs.Wires.{HasNoWires};
ghost use Rattle.to_verilog_wires.specs.Wiring.{hub_of, is_written};

use crate::hubs::{Hub, port_hub};
use crate::naming::Wires;
use indexmap::{IndexMap, IndexSet};
use net_hier::{HCell, Hier, Node};
use nl_base::{NoMemory, Seq, Text};
use std::alloc::Global;
use std::marker::Model;
use to_verilog_classes::Groups;
use to_verilog_classes::roots::{pin_port, roots_of, wide_ports};
use vlog_values::ItemV;

/// What stands for each bit of a cell: each class that is written has a hub, and so has each other bit of a port of which a bit is written.
#[derive(Drop)]
pub struct Wiring {
    groups: Groups,
    ports: IndexSet<Node>,
    hubs: IndexMap<Node, Hub>,
    names: Seq<Text>,
}

impl Model for Wiring {
    ghost use Rattle.to_verilog_wires.specs.Wiring.{WiringTable};

    ghost Value = { WiringTable };

    ghost view = { λ w. record {
      groups = w.groups;
      ports = w.ports.keys;
      hubs = w.hubs.entries;
      names = w.names;
    } };
}

/// The hub of a class of these nodes: a port bit, or a new wire.
fn hub_for(alloc: Global, cell: &HCell, nodes: &[Node], wires: &mut Wires) -> Result<Hub, NoMemory>
    requires { AreUsed wires.old.used (codes "n") wires.old.next }
    ensures { IfOk result (IsHubFor cell.now nodes.now wires.old wires.new) }
{
    if let Some(hub) = port_hub(cell, nodes) {
        return Ok(hub);
    }
    let hub = Hub::Wire(wires.len());
    wires.add(alloc, cell, nodes)?;
    Ok(hub)
}

/// Gives a node the hub of its class.
fn add_hub(
    alloc: Global,
    cell: &HCell,
    groups: &Groups,
    root: Node,
    hubs: &mut IndexMap<Node, Hub>,
    wires: &mut Wires,
) -> Result<(), NoMemory>
    requires { AreUsed wires.old.used (codes "n") wires.old.next }
    ensures { OnOk result (AddsHub cell.now (around groups.now root) root
        hubs.old.entries hubs.new.entries wires.old wires.new) }
{
    let hub = hub_for(alloc, cell, groups.around(&root), wires)?;
    if let Ok(_) = hubs.insert(root, hub) {
        return Ok(());
    }
    Err(NoMemory)
}

/// Gives each of the nodes the hub of its class.
fn hubs_of(
    alloc: Global,
    cell: &HCell,
    groups: &Groups,
    roots: &[Node],
    wires: &mut Wires,
) -> Result<IndexMap<Node, Hub>, NoMemory>
    requires { HasNoWires cell.now wires.old }
    ensures { IfOk result (λ hubs. GivesHubs cell.now groups.now roots.now hubs.entries wires.new) }
{
    let mut hubs = IndexMap::new(alloc);
    for root in roots {
        add_hub(alloc, cell, groups, *root, &mut hubs, wires)?;
    }
    Ok(hubs)
}

impl Wiring {
    /// The wiring of a cell of a design, and the declarations of its wires.
    pub fn of_cell(
        alloc: Global,
        hier: &Hier,
        cell: &HCell,
    ) -> Result<(Wiring, Seq<ItemV>), NoMemory>
        requires few { length cell.now.joins ≤ 33554432 }
        requires good { IsGoodCell hier.now.cells cell.now }
        ensures { IfOk result (λ made. IsWiring hier.now.cells cell.now made.0 made.1) }
    {
        let groups = Groups::of_cell(alloc, cell)?;
        let ports = wide_ports(alloc, hier, cell, &groups)?;
        let roots = roots_of(alloc, hier, cell, &groups, &ports)?;
        let mut wires = Wires::none(alloc, cell)?;
        let hubs = hubs_of(alloc, cell, &groups, &roots, &mut wires)?;
        let (names, decls) = wires.into_parts();
        Ok((
            Wiring {
                groups,
                ports,
                hubs,
                names,
            },
            decls,
        ))
    }

    /// The classes of the cell.
    pub fn groups(&self) -> &Groups
        ensures { result.now ≡ self.now.groups }
    {
        &self.groups
    }

    /// The hub of the class of the node, or of the node.
    pub fn hub_of(&self, node: &Node) -> Option<Hub>
        ensures { result ≡ hub_of self.now node.now }
    {
        self.hubs.get(&self.groups.root(node)).copied()
    }

    /// Whether a bit of the port of the instance is written, of which this is a bit, where that port has several bits.
    pub fn is_written(&self, pin: &Node) -> bool
        ensures { result ≡ is_written self.now pin.now }
    {
        match pin_port(pin) {
            None => false,
            Some(port) => self.ports.contains(&port),
        }
    }

    /// The names of the wires.
    pub fn names(&self) -> &[Text]
        ensures { result.now ≡ self.now.names }
    {
        self.names.items()
    }
}
