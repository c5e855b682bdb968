// The numbers of the nodes.
ghost use Rattle.std.specs.Prelude.{ℕ, ◌≡◌, ◌+◌, ◌^◌, ◌<◌, ◌≤◌, map, length, IfOk};
ghost use Rattle.net_hier.specs.declared.cells.HCell.{HCell as CellValue};
ghost use Rattle.net_hier.specs.Valid.{IsNode};
ghost use Rattle.flat_numbers.specs.Numbers.{CellOf, NodeNumber};
ghost use Rattle.flat_numbers.specs.TableParts.{HasTables, bases_in, spots_in};
ghost use Rattle.flat_numbers.specs.Tables.{AreTables, HasPlace, rows_in};
ghost use Rattle.net_hier.specs.FlatCount.{FlatCount};

use crate::tables::{Rows, belows_of, offsets_of};
use crate::walk::{Layout, layout_of};
use net_hier::{Hier, Node};
use nl_base::NoMemory;
use std::alloc::Global;

/// The layout of the numbers, and the tables that find them.
#[derive(Drop)]
pub struct Tables {
    pub layout: Layout,
    pub belows: Rows,
    pub offsets: Vec<Vec<u32>>,
}

/// The number of a bit of a port of a spot, or of a net where the port's number is the number of
/// ports.
pub fn place_number(tables: &Tables, spot: u32, port: usize, bit: u32) -> u32
    requires { (value : ℕ) × HasPlace (spots_in tables.now) tables.now.layout.bases.items (rows_in
        tables.now.offsets.items) spot port bit value × (value < 2 ^ 32) }
    ensures { (value : ℕ) → HasPlace (spots_in tables.now) tables.now.layout.bases.items (rows_in
        tables.now.offsets.items) spot port bit value → result ≡ value }
{
    let cell = tables.layout.spots[spot as usize].cell;
    tables.layout.bases[spot as usize] + (tables.offsets[cell as usize][port] + bit)
}

/// The number of a node of the cell at a spot.
pub fn node_number(hier: &Hier, tables: &Tables, number: u32, node: Node) -> u32
    requires are_tables { HasTables hier.now tables.now }
    requires is_node { (cell : CellValue) × CellOf hier.now.cells (spots_in tables.now) number cell
        × IsNode hier.now.cells cell node }
    ensures { (cell : CellValue) (u : ℕ) → CellOf hier.now.cells (spots_in tables.now) number cell →
        NodeNumber hier.now.cells (spots_in tables.now) (bases_in tables.now) number cell node u → result ≡ u }
{
    let cells = hier.cells();
    match node {
        Node::Zero => 0,
        Node::One => 1,
        Node::Port { port, bit } => place_number(tables, number, port as usize, bit),
        Node::Net(net) => {
            let cell = &cells[tables.layout.spots[number as usize].cell as usize];
            place_number(tables, number, cell.ports.len(), net)
        }
        Node::Pin {
            instance,
            port,
            bit,
        } => {
            let inner = tables.belows.at(number, instance);
            place_number(tables, inner, port as usize, bit)
        }
    }
}

/// The layout and the tables of a design of which the flat count is within the limit.
pub fn tables_of(alloc: Global, hier: &Hier, count: u64) -> Result<Tables, NoMemory>
    requires few { count ≤ 2000000 }
    requires counted { FlatCount hier.now.cells hier.now.top count }
    ensures { IfOk result (λ tables. AreTables hier.now.cells hier.now.top count tables.layout
        tables.belows (rows_in tables.offsets.items)) }
{
    let cells = hier.cells();
    let layout = layout_of(alloc, cells, hier.top(), count)?;
    let belows = belows_of(alloc, cells, layout.spots.as_slice())?;
    let offsets = offsets_of(alloc, cells)?;
    Ok(Tables {
        layout,
        belows,
        offsets,
    })
}
