// Whether cells are as in a design.
ghost use Rattle.std.specs.Prelude.{ℕ, ◌≡◌, ◌<◌, ◌≤◌, ◌↔◌, true, length, IsTrue, IfOk};
ghost use Rattle.net_graph.specs.Graph.{IsInRange, IsReached};
ghost use Rattle.net_graph.specs.Marks.{is_marked};
ghost use Rattle.net_hier.specs.Cells.{IsPinBit, IsPortBit};
ghost use Rattle.net_hier.specs.Design.{cells_below};
ghost use Rattle.net_hier.specs.Valid.{CellsFit, Each, HaveOwnNames, IsGoodCell, IsJoinOf, IsNode, IsPortWidth, count_limit};

use crate::cells::{HCell, HInst, HPort};
use crate::graph::graph_of;
use crate::names::NameSet;
use crate::nodes::{Join, Node};
use crate::units::port_width;
use net_graph::reach::reached_from;
use nl_base::{NoMemory, Seq};
use std::alloc::Global;

/// The greatest number of cells, and of instances of a cell.
pub const COUNT_LIMIT: usize = 268_435_456;

/// The greatest number of bits of a port.
pub const WIDTH_LIMIT: u64 = 65_536;

fn port_bit_fits(cell: &HCell, port: u32, bit: u32) -> bool
    ensures { IsTrue result ↔ IsPortBit cell.now port bit }
{
    match cell.ports.items().get(port as usize) {
        None => false,
        Some(port) => (bit as u64) < port_width(port),
    }
}

fn pin_bit_fits(cells: &[HCell], cell: &HCell, instance: u32, port: u32, bit: u32) -> bool
    ensures { IsTrue result ↔ IsPinBit cells.now cell.now instance port bit }
{
    let Some(instance) = cell.instances.items().get(instance as usize) else {
        return false;
    };
    let Some(below) = cells.get(instance.cell as usize) else {
        return false;
    };
    port_bit_fits(below, port, bit)
}

fn node_fits(cells: &[HCell], cell: &HCell, node: &Node) -> bool
    ensures { IsTrue result ↔ IsNode cells.now cell.now node.now }
{
    match *node {
        Node::Port { port, bit } => port_bit_fits(cell, port, bit),
        Node::Pin {
            instance,
            port,
            bit,
        } => pin_bit_fits(cells, cell, instance, port, bit),
        Node::Net(net) => (net as usize) < cell.nets.len(),
        Node::Zero | Node::One => true,
    }
}

fn join_fits(cells: &[HCell], cell: &HCell, join: &Join) -> bool
    ensures { IsTrue result ↔ IsJoinOf cells.now cell.now join.now }
{
    node_fits(cells, cell, &join.a) && node_fits(cells, cell, &join.b)
}

fn joins_fit(cells: &[HCell], cell: &HCell) -> bool
    ensures { IsTrue result ↔ Each (IsJoinOf cells.now cell.now) cell.now.joins }
{
    for join in cell.joins.items() {
        if !join_fits(cells, cell, join) {
            return false;
        }
    }
    true
}

fn instances_fit(count: usize, instances: &[HInst]) -> bool
    ensures { IsTrue result ↔ Each (λ instance. instance.cell < count) instances.now }
{
    for instance in instances {
        if instance.cell as usize >= count {
            return false;
        }
    }
    true
}

fn width_fits(port: &HPort) -> bool
    ensures { IsTrue result ↔ IsPortWidth port.now }
{
    port_width(port) <= WIDTH_LIMIT
}

fn widths_fit(ports: &[HPort]) -> bool
    ensures { IsTrue result ↔ Each IsPortWidth ports.now }
{
    for port in ports {
        if !width_fits(port) {
            return false;
        }
    }
    true
}

fn port_names_differ(alloc: Global, ports: &[HPort]) -> Result<bool, NoMemory>
    ensures { IfOk result (λ differ. IsTrue differ ↔ HaveOwnNames (λ port. port.name) ports.now) }
{
    let mut names = NameSet::new(alloc);
    for port in ports {
        if !names.add(port.name.bytes())? {
            return Ok(false);
        }
    }
    Ok(true)
}

fn instance_names_differ(alloc: Global, instances: &[HInst]) -> Result<bool, NoMemory>
    ensures { IfOk result (λ differ. IsTrue differ
        ↔ HaveOwnNames (λ instance. instance.name) instances.now) }
{
    let mut names = NameSet::new(alloc);
    for instance in instances {
        if !names.add(instance.name.bytes())? {
            return Ok(false);
        }
    }
    Ok(true)
}

fn cell_fits(alloc: Global, cells: &[HCell], cell: &HCell) -> Result<bool, NoMemory>
    ensures { IfOk result (λ fits. IsTrue fits
        ↔ ((length cell.now.instances ≤ count_limit) × IsGoodCell cells.now cell.now)) }
{
    let instances = cell.instances.items();
    if instances.len() > COUNT_LIMIT || !instances_fit(cells.len(), instances) {
        return Ok(false);
    }
    if !joins_fit(cells, cell) || !widths_fit(cell.ports.items()) {
        return Ok(false);
    }
    if !port_names_differ(alloc, cell.ports.items())? {
        return Ok(false);
    }
    let differ = instance_names_differ(alloc, instances)?;
    Ok(differ)
}

fn each_cell_fits(alloc: Global, cells: &[HCell]) -> Result<bool, NoMemory>
    ensures { IfOk result (λ fits. IsTrue fits
        ↔ Each (λ cell. (length cell.instances ≤ count_limit)
        × IsGoodCell cells.now cell) cells.now) }
{
    for cell in cells {
        if !cell_fits(alloc, cells, cell)? {
            return Ok(false);
        }
    }
    Ok(true)
}

fn all_marked(marks: &[bool]) -> bool
    ensures { IsTrue result ↔ ((number : ℕ) → number < length marks.now
        → is_marked marks.now number ≡ true) }
{
    for mark in marks {
        if !*mark {
            return false;
        }
    }
    true
}

fn all_reached(alloc: Global, cells: &[HCell], top: u32) -> Result<bool, NoMemory>
    requires within { top < length cells.now }
    requires in_range { IsInRange (cells_below cells.now) }
    ensures { IfOk result (λ reached. IsTrue reached
        ↔ ((number : ℕ) → number < length cells.now
        → IsReached (cells_below cells.now) top number)) }
{
    let graph = graph_of(alloc, cells)?;
    let marks = reached_from(alloc, graph.as_slice(), top)?;
    Ok(all_marked(marks.as_slice()))
}

/// Whether the numbers of cells and of instances, the numbers that name things, names, widths and reach are as in a design.
pub fn cells_fit(alloc: Global, cells: &Seq<HCell>, top: u32) -> Result<bool, NoMemory>
    ensures { IfOk result (λ fits. IsTrue fits ↔ CellsFit cells.now top) }
{
    let cells = cells.items();
    if cells.len() > COUNT_LIMIT || top as usize >= cells.len() {
        return Ok(false);
    }
    if !each_cell_fits(alloc, cells)? {
        return Ok(false);
    }
    let reached = all_reached(alloc, cells, top)?;
    Ok(reached)
}
