ghost use Rattle.std.specs.Prelude.{◌≡◌, ◌<◌, ◌↔◌, Some, false, true, IsTrue, count_by, length};
ghost use Rattle.net_hier.specs.Cells.{IsConstantCell, IsLeaf};
ghost use Rattle.net_hier.specs.Design.{IsCell};
ghost use Rattle.net_hier.specs.declared.cells.HCell.{HCell as CellValue};
ghost use Rattle.net_bits.specs.Classes.{AreClassesAt};
ghost use Rattle.net_bits.specs.Leaves.{AreApart, HasForm, IsScalarOutput, is_outer as is_outer_node};

use crate::classes::Classes;
use net_hier::{ConstName, Constants, HCell, HPort, Hier, Node};
use nl_base::Dir;

/// Whether the cell of this number is a leaf: it has no instances, and no two of its port bits and the two constants are locally connected.
/// The classes are those of this cell.
pub fn is_leaf(hier: &Hier, cell: u32, classes: &Classes) -> bool
    requires cell { cell < length hier.now.cells }
    requires classes { AreClassesAt hier.now.cells cell classes.now }
    ensures { (value : CellValue) → IsCell hier.now.cells cell value
        → (IsTrue result ↔ IsLeaf value) }
{
    hier.cells()[cell as usize].instances.is_empty() && are_apart(classes)
}

/// Which constant the cell of this number stands for: `false` for a zero cell, `true` for a one cell, under the chosen names.
/// The classes are those of this cell.
pub fn constant_of(hier: &Hier, cell: u32, classes: &Classes, constants: &Constants) -> Option<bool>
    requires cell { cell < length hier.now.cells }
    requires classes { AreClassesAt hier.now.cells cell classes.now }
    ensures zero { (value : CellValue) → IsCell hier.now.cells cell value
        → ((result ≡ Some false) ↔ IsConstantCell constants.now false value) }
    ensures one { (value : CellValue) → IsCell hier.now.cells cell value
        → ((result ≡ Some true) ↔ IsConstantCell constants.now true value) }
{
    if !is_leaf(hier, cell, classes) {
        return None;
    }
    let leaf = &hier.cells()[cell as usize];
    if has_form(leaf, constants.zero()) {
        return Some(false);
    }
    if has_form(leaf, constants.one()) {
        return Some(true);
    }
    None
}

// Whether the node is a port bit or a constant.
fn is_outer(node: &Node) -> bool
    ensures { result ≡ is_outer_node node.now }
{
    matches!(node, Node::Port { .. } | Node::Zero | Node::One)
}

// How many of the nodes are port bits or constants.
fn outer_count(nodes: &[Node]) -> usize
    ensures { result ≡ count_by is_outer_node nodes.now }
{
    nodes.iter().filter(|node| is_outer(node)).count()
}

// Whether no class has two port bits or constants.
fn are_apart(classes: &Classes) -> bool
    ensures { IsTrue result ↔ AreApart classes.now }
{
    for class in 0..classes.count() {
        if outer_count(classes.members(class)) > 1 {
            return false;
        }
    }
    true
}

// Whether the port is a scalar output of this name.
fn is_scalar_output(port: &HPort, name: &[u8]) -> bool
    ensures { IsTrue result ↔ IsScalarOutput name.now port.now }
{
    port.dir == Dir::Output && port.range.is_none() && port.name.bytes() == name
}

// Whether the cell has the constant's name, and one port, a scalar output with the name of the constant's port.
fn has_form(cell: &HCell, name: &ConstName) -> bool
    ensures { IsTrue result ↔ HasForm name.now cell.now }
{
    match cell.ports.items() {
        [port] => cell.name.bytes() == name.cell.bytes()
            && is_scalar_output(port, name.port.bytes()),
        _ => false,
    }
}
