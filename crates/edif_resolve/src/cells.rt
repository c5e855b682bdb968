// The cells of the design of a file that breaks no rule.
ghost use Rattle.std.specs.Prelude.{◌≡◌, ◌≤◌, ◌++◌, ◌∷◌, [], Some, cond, slice_get, IfOk, OnOk};
ghost use Rattle.net_hier.specs.Valid.{count_limit};
ghost use Rattle.edif_values.specs.Sizes.{edif_size};
ghost use Rattle.edif_design.specs.Design.{cell_value, design_properties, edif_cells, number_in, numbers_in_design};
ghost use Rattle.edif_design.specs.FileRules.{refusals};
ghost use Rattle.edif_design.specs.Reach.{is_reached};
ghost use Rattle.edif_design.specs.References.{all_cells, linked_cell, number_meant, top};
ghost use Rattle.edif_design.specs.Tables.{place_of, seen};
ghost use Rattle.std.specs.List.{flat_map};

use crate::below::numbers_meant;
use crate::tabled::TabledFile;
use edif_cells::{cell_of, push_properties};
use edif_design::tables::PlacedCell;
use edif_values::Design;
use net_hier::{HCell, HProp};
use nl_base::{NoMemory, Seq};
use std::alloc::Global;

// Adds the cell at a place, where it is reached.
fn push_cell(
    alloc: Global,
    tabled: &TabledFile<'_>,
    numbers: &[u32],
    cells: &mut Seq<HCell>,
    number: u32,
    place: &PlacedCell<'_>,
) -> Result<(), NoMemory>
    requires clean { refusals tabled.now ≡ [] }
    requires small { edif_size tabled.now ≤ count_limit }
    requires stands { slice_get (all_cells tabled.now) number ≡ Some (place_of place.now) }
    ensures { OnOk result (cells.new
        ≡ cells.old ++ cond (is_reached tabled.now number)
        (cell_value numbers.now (linked_cell tabled.now (place_of place.now)) ∷ []) []) }
{
    if !tabled.is_reached(number) {
        return Ok(());
    }
    let below = numbers_meant(alloc, tabled.tables(), place.library, place.cell)?;
    let cell = cell_of(
        alloc,
        tabled.tables(),
        tabled.port_tables(),
        numbers,
        place.cell,
        below.as_slice(),
    )?;
    cells.push(cell)?;
    Ok(())
}

/// The reached cells in file order.
pub(crate) fn design_cells(
    alloc: Global,
    tabled: &TabledFile<'_>,
    numbers: &[u32],
) -> Result<Seq<HCell>, NoMemory>
    requires clean { refusals tabled.now ≡ [] }
    requires small { edif_size tabled.now ≤ count_limit }
    requires numbers { numbers.now ≡ numbers_in_design tabled.now }
    ensures { IfOk result (λ cells. cells ≡ edif_cells tabled.now) }
{
    let mut cells = Seq::empty(alloc);
    let places = tabled.tables().places();
    for number in 0..places.len() as u32 {
        push_cell(
            alloc,
            tabled,
            numbers,
            &mut cells,
            number,
            &places[number as usize],
        )?;
    }
    Ok(cells)
}

/// The number of the top cell in the design.
pub(crate) fn design_top(tabled: &TabledFile<'_>, numbers: &[u32]) -> u32
    ensures { result ≡ number_in numbers.now (number_meant (top tabled.now)) }
{
    match tabled.top() {
        None => 0,
        Some(number) => match numbers.get(number as usize) {
            Some(renumbered) => *renumbered,
            None => 0,
        },
    }
}

/// The properties of the designs.
pub(crate) fn designs_properties(alloc: Global, designs: &[&Design]) -> Result<Seq<HProp>, NoMemory>
    ensures { IfOk result (λ props. props ≡ flat_map design_properties (seen designs.now)) }
{
    let mut props = Seq::empty(alloc);
    for design in designs {
        push_properties(alloc, &mut props, design)?;
    }
    Ok(props)
}
