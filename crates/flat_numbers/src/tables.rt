// Tables over the spots and the cells.
ghost use Rattle.std.specs.Prelude.{ℕ, ◌≡◌, ◌^◌, ◌<◌, ◌≤◌, List, [], ◌∷◌, map, length, IfOk};
ghost use Rattle.net_hier.specs.Units.{port_bits};
ghost use Rattle.flat_numbers.specs.Spots.{Walks, top_spot};
ghost use Rattle.flat_numbers.specs.Tables.{AreBelows, AreOffsets, AreOffsetsOf, AreRowStarts, AreSmall, HasNumber};

use crate::spots::Spot;
use net_bits::parts::part_of;
use net_hier::HCell;
use net_hier::units::port_width;
use nl_base::NoMemory;
use std::alloc::Global;
use std::marker::Model;

/// Rows of numbers. Contracts see the list of the rows, which lie one behind the other.
#[derive(Drop)]
pub struct Rows {
    starts: Vec<u32>,
    items: Vec<u32>,
}

impl Model for Rows {
    ghost use Rattle.std.specs.Prelude.{ℕ, List, length};
    ghost use Rattle.net_bits.specs.Parts.{AreStarts, parts};

    ghost Value = { List (List ℕ) };

    ghost view = { λ r. parts r.starts.items r.items.items };

    ghost invariant = { λ r. AreStarts r.starts.items (length r.items.items) };
}

impl Rows {
    /// The number at a place of a row.
    pub fn at(&self, row: u32, place: u32) -> u32
        requires { (number : ℕ) × HasNumber self.now row place number }
        ensures { (number : ℕ) → HasNumber self.now row place number → result ≡ number }
    {
        part_of(self.starts.as_slice(), self.items.as_slice(), row as usize)[place as usize]
    }
}

/// Where the row of each spot begins, and where the last one ends: a row has a place for each
/// instance of the spot's cell.
fn starts_of(alloc: Global, cells: &[HCell], spots: &[Spot]) -> Result<Vec<u32>, NoMemory>
    requires few { length spots.now < 2 ^ 32 }
    requires are_spots { (top : ℕ) × Walks cells.now 0 (top_spot top ∷ []) spots.now }
    ensures { IfOk result (λ starts. AreRowStarts cells.now spots.now starts.items) }
{
    let mut starts = Vec::with_capacity(alloc, spots.len() + 1)?;
    let mut before: u32 = 0;
    for spot in spots {
        starts.push(before)?;
        before += cells[spot.cell as usize].instances.len() as u32;
    }
    starts.push(before)?;
    Ok(starts)
}

/// For each spot the numbers of the spots of its cell's instances.
pub fn belows_of(alloc: Global, cells: &[HCell], spots: &[Spot]) -> Result<Rows, NoMemory>
    requires few { length spots.now < 2 ^ 32 }
    requires are_spots { (top : ℕ) × Walks cells.now 0 (top_spot top ∷ []) spots.now }
    ensures { IfOk result (AreBelows spots.now) }
{
    let starts = starts_of(alloc, cells, spots)?;
    let total = starts[spots.len()];
    let mut items = vec![in alloc; 0; total as usize]?;
    for number in 1..spots.len() {
        let spot = spots[number];
        let place = starts[spot.parent as usize] + spot.instance;
        items[place as usize] = number as u32;
    }
    Ok(Rows { starts, items })
}

/// How many bits stand before each port of a cell, and before its nets.
fn offsets_of_cell(alloc: Global, cell: &HCell) -> Result<Vec<u32>, NoMemory>
    requires { port_bits cell.now ≤ 2000001 }
    ensures { IfOk result (λ row. AreOffsetsOf cell.now row.items) }
{
    let ports = cell.ports.items();
    let mut row = Vec::with_capacity(alloc, ports.len() + 1)?;
    let mut before: u32 = 0;
    for port in ports {
        row.push(before)?;
        before += port_width(port) as u32;
    }
    row.push(before)?;
    Ok(row)
}

/// These for each cell.
pub fn offsets_of(alloc: Global, cells: &[HCell]) -> Result<Vec<Vec<u32>>, NoMemory>
    requires { AreSmall cells.now }
    ensures { IfOk result (λ rows. AreOffsets cells.now (map (λ row. row.items) rows.items)) }
{
    let mut rows = Vec::with_capacity(alloc, cells.len())?;
    for cell in cells {
        rows.push(offsets_of_cell(alloc, cell)?)?;
    }
    Ok(rows)
}
