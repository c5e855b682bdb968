// The flat count: over all paths, one and the port bits and nets of the cell there.
ghost use Rattle.std.specs.Prelude.{ℕ, ◌≡◌, ◌+◌, ◌-◌, ◌^◌, ◌<◌, List, [], map, min, length, slice_get, Some, IfOk};
ghost use Rattle.net_hier.specs.Cells.{InstancesInRange, width_of};
ghost use Rattle.net_hier.specs.Units.{port_bits};
ghost use Rattle.net_hier.specs.FlatCount.{FlatCountEach};
ghost use Rattle.net_hier.specs.Design.{IsCell};
ghost use Rattle.net_hier.specs.declared.cells.HCell.{HCell as CellValue};
ghost use Rattle.net_hier.specs.declared.cells.HInst.{HInst};
ghost use Rattle.flat_numbers.specs.FlatCounts.{IsCountOf, IsFlatCount, IsFlatCountOf, IsCountBelow};

use net_hier::units::port_width;
use net_hier::{HCell, Hier};
use nl_base::NoMemory;
use std::alloc::Global;

/// How many port bits a cell has, or 2^64-1 where there are more.
pub fn bits_of_ports(cell: &HCell) -> u64
    ensures { result ≡ min (2 ^ 64 - 1) (port_bits cell.now) }
{
    let mut bits: u64 = 0;
    for port in cell.ports.items() {
        bits = bits.saturating_add(port_width(port));
    }
    bits
}

/// The count of a cell, from those of the cells below it.
fn count_of(cells: &[HCell], counts: &[u64], number: u32) -> u64
    requires in_range { number < length cells.now }
    requires below { (cell : CellValue) (place : ℕ) (instance : HInst) →
        IsCell cells.now number cell → slice_get cell.instances place ≡ Some instance →
        IsCountOf cells.now counts.now instance.cell }
    ensures { IsFlatCountOf cells.now number result }
{
    let cell = &cells[number as usize];
    let own = bits_of_ports(cell).saturating_add(cell.nets.len() as u64);
    let mut count = own.saturating_add(1);
    for instance in cell.instances.items() {
        count = count.saturating_add(counts[instance.cell as usize]);
    }
    count
}

/// The flat count of a design, or 2^64-1 where it is larger.
pub fn flat_count(alloc: Global, hier: &Hier) -> Result<u64, NoMemory>
    ensures { IfOk result (IsFlatCount hier.now) }
{
    let cells = hier.cells();
    let mut counts = vec![in alloc; 0; cells.len()]?;
    for number in hier.order() {
        let count = count_of(cells, &counts, *number);
        counts[*number as usize] = count;
    }
    Ok(counts[hier.top() as usize])
}
