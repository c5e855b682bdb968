// The cells of a design as a graph of numbers: below each cell stand the cells of its instances.
ghost use Rattle.std.specs.Prelude.{◌≡◌, IfOk};
ghost use Rattle.net_hier.specs.Design.{below_of, cells_below};

use crate::cells::HCell;
use nl_base::{NoMemory, Seq};
use std::alloc::Global;

// The numbers of the cells of a cell's instances, in order.
fn below_cell(alloc: Global, cell: &HCell) -> Result<Seq<u32>, NoMemory>
    ensures { IfOk result (λ numbers. numbers ≡ below_of cell.now) }
{
    let mut numbers = Seq::empty(alloc);
    for instance in cell.instances.items() {
        numbers.push(instance.cell)?;
    }
    Ok(numbers)
}

/// For each cell the cells of its instances.
pub fn graph_of(alloc: Global, cells: &[HCell]) -> Result<Vec<Seq<u32>>, NoMemory>
    ensures { IfOk result (λ graph. graph.items ≡ cells_below cells.now) }
{
    let mut graph = Vec::new(alloc);
    for cell in cells {
        graph.push(below_cell(alloc, cell)?)?;
    }
    Ok(graph)
}
