// The size of a design.
ghost use Rattle.std.specs.Prelude.{◌≡◌, ◌-◌, ◌^◌, ◌≤◌, min, sum_by};
ghost use Rattle.net_hier.specs.Cells.{width_of};
ghost use Rattle.net_hier.specs.Units.{cell_units, port_bits, units};

use crate::cells::{HCell, HPort};

/// How many bits a port has.
pub fn port_width(port: &HPort) -> u64
    ensures width { result ≡ width_of port.now.range }
    ensures bound { result ≤ 2 ^ 32 }
{
    match port.range {
        None => 1,
        Some(range) => range.bits(),
    }
}

// The port bits, nets and joins of a cell, or 2^64-1 where there are more.
fn units_of_cell(cell: &HCell) -> u64
    ensures { result ≡ min (2 ^ 64 - 1) (cell_units cell.now) }
{
    let mut bits: u64 = 0;
    for port in cell.ports.items() {
        bits = bits.saturating_add(port_width(port));
    }
    bits.saturating_add(cell.nets.len() as u64)
        .saturating_add(cell.joins.len() as u64)
}

/// The units of the cells: their port bits, nets and joins, or 2^64-1 where there are more.
pub fn units_of(cells: &[HCell]) -> u64
    ensures { result ≡ units cells.now }
{
    let mut sum: u64 = 0;
    for cell in cells {
        sum = sum.saturating_add(units_of_cell(cell));
    }
    sum
}
