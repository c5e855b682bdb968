// What the cells of a library break.
ghost use Rattle.std.specs.Prelude.{◌≡◌, ◌≤◌, ◌+◌, ◌++◌, ◌∷◌, [], All, codes, length, option_to_list, IfOk, OnOk};
ghost use Rattle.nl_base.specs.declared.rule.Rule.TheVariants.{E5};
ghost use Rattle.net_hier.specs.Valid.{count_limit};
ghost use Rattle.edif_values.specs.Sizes.{cell_size};
ghost use Rattle.edif_lookup.specs.Refusals.{broken, in_order, lowest};
ghost use Rattle.edif_design.specs.FileRules.{library_cell_refusals, reached_refusals};
ghost use Rattle.edif_design.specs.Parts.{cell_in, cells_in};
ghost use Rattle.edif_design.specs.References.{place_in};
ghost use Rattle.edif_design.specs.Tables.{seen};

use crate::below::numbers_meant;
use crate::tabled::TabledFile;
use edif_lookup::{NameSet, lower, refusal, two_names};
use edif_rules::cell_refusal;
use edif_values::{Cell, Library, LibraryItem};
use nl_base::{NoMemory, Refusal, Rule};
use std::alloc::Global;

// Adds the cell that a part of a library is.
fn push_cell<'a>(cells: &mut Vec<&'a Cell>, item: &'a LibraryItem) -> Result<(), NoMemory>
    ensures { OnOk result (seen cells.new.items
        ≡ seen cells.old.items ++ option_to_list (cell_in item.now)) }
{
    match item {
        LibraryItem::Cell(cell) => {
            cells.push(cell)?;
            Ok(())
        }
        _ => Ok(()),
    }
}

/// The cells of a library.
pub(crate) fn cells_of<'a>(alloc: Global, library: &'a Library) -> Result<Vec<&'a Cell>, NoMemory>
    ensures { IfOk result (λ cells. seen cells.items ≡ cells_in library.now) }
{
    let mut cells = Vec::new(alloc);
    for item in library.items.items() {
        push_cell(&mut cells, item)?;
    }
    Ok(cells)
}

/// E5 of a definition of this kind, where an earlier one has its identifier.
#[tactic(auto, unfolding(edif_lookup::specs::Refusals::lower, edif_lookup::specs::Refusals::lowest))]
pub(crate) fn second_refusal(
    alloc: Global,
    taken: bool,
    kind: &[u8],
    ident: &[u8],
) -> Result<Option<Refusal>, NoMemory>
    ensures { IfOk result (λ found. found
        ≡ lowest (broken taken E5 [] (kind.now ∷ (ident.now ∷ [])))) }
{
    if !taken {
        return Ok(None);
    }
    let names = two_names(alloc, kind, ident)?;
    let refusal = refusal(alloc, Rule::E5, b"", names)?;
    Ok(Some(refusal))
}

// What the parts of the cell of this number break, where it is reached.
fn reached_refusal(
    alloc: Global,
    tabled: &TabledFile<'_>,
    library: u32,
    number: u32,
    cell: &Cell,
) -> Result<Option<Refusal>, NoMemory>
    requires { cell_size cell.now ≤ count_limit }
    ensures { IfOk result (λ found. found
        ≡ lowest (reached_refusals tabled.now number (place_in library cell.now))) }
{
    if !tabled.is_reached(number) {
        return Ok(None);
    }
    let below = numbers_meant(alloc, tabled.tables(), library, cell)?;
    let found = cell_refusal(
        alloc,
        tabled.tables(),
        tabled.port_tables(),
        library,
        cell,
        below.as_slice(),
    )?;
    Ok(found)
}

// What a cell breaks of which it is known whether an earlier one has its identifier.
fn one_refusal(
    alloc: Global,
    tabled: &TabledFile<'_>,
    library: u32,
    number: u32,
    cell: &Cell,
    taken: bool,
) -> Result<Option<Refusal>, NoMemory>
    requires { cell_size cell.now ≤ count_limit }
    ensures { IfOk result (λ found. found
        ≡ lowest (broken taken E5 [] (codes "cell" ∷ (cell.now.name.ident ∷ []))
        ++ reached_refusals tabled.now number (place_in library cell.now))) }
{
    let second = second_refusal(alloc, taken, b"cell", cell.name.ident.bytes())?;
    let parts = reached_refusal(alloc, tabled, library, number, cell)?;
    Ok(lower(second, parts))
}

/// What the cells of a library break, where the library has this number and its first cell that one.
pub(crate) fn library_refusal<'a>(
    alloc: Global,
    tabled: &TabledFile<'a>,
    library: u32,
    first: u32,
    cells: &[&'a Cell],
) -> Result<Option<Refusal>, NoMemory>
    requires few { first + length cells.now ≤ count_limit + count_limit }
    requires small { All (λ cell. cell_size cell.now ≤ count_limit) cells.now }
    ensures { IfOk result (λ found. found
        ≡ lowest (in_order (library_cell_refusals tabled.now library first) (seen cells.now))) }
{
    let mut best = None;
    let mut names = NameSet::new(alloc);
    for place in 0..cells.len() as u32 {
        let cell = cells[place as usize];
        let taken = names.note(cell.name.ident.bytes())?;
        let next = one_refusal(alloc, tabled, library, first + place, cell, taken)?;
        best = lower(best, next);
    }
    Ok(best)
}
