ghost use Rattle.std.specs.Prelude.{◌≤◌, ◌↔◌, IfOk, IsTrue, length};
ghost use Rattle.net_hier.specs.Cells.{IsLocallyConnected};

use net_bits::Classes;
use net_hier::{HCell, Node};
use nl_base::NoMemory;
use std::alloc::Global;

/// Whether two nodes of a cell, which has at most 33,554,432 joins, are connected in it. A node in no join is connected to itself alone.
pub fn are_connected(alloc: Global, cell: &HCell, a: &Node, b: &Node) -> Result<bool, NoMemory>
    requires { length cell.now.joins ≤ 33554432 }
    ensures { IfOk result (λ connected. IsTrue connected
        ↔ IsLocallyConnected cell.now a.now b.now) }
{
    let classes = Classes::of_cell_uncounted(alloc, cell)?;
    Ok(match classes.class_of(a) {
        Some(class) => classes.class_of(b) == Some(class),
        None => a == b,
    })
}
