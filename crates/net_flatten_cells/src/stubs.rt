// Copies of cells with their names, ports and properties alone.
ghost use Rattle.std.specs.Prelude.{◌≡◌, ◌<◌, All, length, map, IfOk};
ghost use Rattle.net_flatten_rules.specs.FlatDesign.{cell_or_none, stub};

use crate::copies::{copy_of, ports_copy, props_copy};
use net_hier::HCell;
use nl_base::{NoMemory, Seq};
use std::alloc::Global;

/// The copy of a cell with its name, ports and properties alone.
fn stub_copy(alloc: Global, cell: &HCell) -> Result<HCell, NoMemory>
    ensures { IfOk result (λ copy. copy ≡ stub cell.now) }
{
    Ok(HCell {
        name: copy_of(alloc, &cell.name)?,
        ports: ports_copy(alloc, cell.ports.items())?,
        instances: Seq::empty(alloc),
        nets: Seq::empty(alloc),
        joins: Seq::empty(alloc),
        props: props_copy(alloc, cell.props.items())?,
    })
}

/// These copies of the cells of these numbers.
pub fn stubs_of(alloc: Global, cells: &[HCell], numbers: &[u32]) -> Result<Seq<HCell>, NoMemory>
    requires { All (λ number. number < length cells.now) numbers.now }
    ensures { IfOk result (λ stubs. stubs ≡ map (λ number. stub (cell_or_none cells.now number))
        numbers.now) }
{
    let mut stubs = Seq::empty(alloc);
    for number in numbers {
        stubs.push(stub_copy(alloc, &cells[*number as usize])?)?;
    }
    Ok(stubs)
}
