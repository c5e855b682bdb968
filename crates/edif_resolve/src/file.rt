// What the parts of a file break.
ghost use Rattle.std.specs.Prelude.{◌≡◌, ◌≤◌, ◌<◌, ◌++◌, ◌∷◌, [], List, IfOk, is_none, is_some, slice_get};
ghost use Rattle.std.specs.List.{list_any};
ghost use Rattle.std.specs.Option.{option_copied};
ghost use Rattle.nl_base.specs.declared.rule.Rule.TheVariants.{E4};
ghost use Rattle.net_hier.specs.Valid.{count_limit};
ghost use Rattle.edif_values.specs.Sizes.{edif_size, file_item_size, library_size, list_size};
ghost use Rattle.edif_values.specs.declared.file.FileItem.{FileItem};
ghost use Rattle.edif_values.specs.declared.file.FileItem.TheVariants as file_items;
ghost use Rattle.edif_lookup.specs.Refusals.{broken, in_order, lowest};
ghost use Rattle.edif_design.specs.FileRules.{design_refusals, file_item_refusals, refusals};
ghost use Rattle.edif_design.specs.Parts.{designs, view_in, views};
ghost use Rattle.edif_design.specs.Tables.{seen};
ghost use Rattle.edif_resolve.specs.Walk.{HasPassed, lacks_view};

use crate::library::{cells_of, library_refusal, second_refusal};
use crate::tabled::TabledFile;
use crate::top::design_count_refusal;
use edif_design::links::Linked;
use edif_lookup::{NameSet, lower, one_name, refusal};
use edif_values::{Cell, CellItem, Design, EdifFile, FileItem, Library};
use nl_base::{NoMemory, Refusal, Rule};
use std::alloc::Global;

/// What a walk of a file keeps: the first refusal so far, the names of the libraries, and how many libraries and cells there were.
#[derive(Drop)]
pub struct Walk<'a> {
    best: Option<Refusal>,
    names: NameSet<'a>,
    libraries: u32,
    cells: u32,
}

// Whether a part of a cell is a view.
fn is_view(item: &CellItem) -> bool
    ensures { result ≡ is_some (view_in item.now) }
{
    match item {
        CellItem::View(_) => true,
        _ => false,
    }
}

// Whether a cell has a view.
fn has_view(cell: &Cell) -> bool
    ensures { result ≡ list_any (λ item. is_some (view_in item)) cell.now.items }
{
    cell.items.items().iter().any(|item| is_view(item))
}

// Whether a cell has no view.
#[tactic(auto, using(crate::proofs::Views::without_view))]
fn has_no_view(cell: &Cell) -> bool
    ensures { result ≡ is_none (slice_get (views cell.now) 0) }
{
    !has_view(cell)
}

// Whether there is a cell, and it has no view.
fn lacks_view(cell: Option<&Cell>) -> bool
    ensures { result ≡ lacks_view (option_copied cell.entry) }
{
    match cell {
        Some(below) => has_no_view(below),
        None => false,
    }
}

// E4 of a design whose cell has no view.
#[tactic(auto, unfolding(edif_lookup::specs::Refusals::lower, edif_lookup::specs::Refusals::lowest))]
fn no_view_refusal(
    alloc: Global,
    missing: bool,
    spelling: &[u8],
) -> Result<Option<Refusal>, NoMemory>
    ensures { IfOk result (λ found. found ≡ lowest (broken missing E4 [] (spelling.now ∷ []))) }
{
    if !missing {
        return Ok(None);
    }
    let names = one_name(alloc, spelling)?;
    let refusal = refusal(alloc, Rule::E4, b"", names)?;
    Ok(Some(refusal))
}

// What a design breaks.
fn design_refusal(
    alloc: Global,
    tabled: &TabledFile<'_>,
    design: &Design,
) -> Result<Option<Refusal>, NoMemory>
    ensures { IfOk result (λ found. found ≡ lowest (design_refusals tabled.now design.now)) }
{
    let tables = tabled.tables();
    let linked = tables.link(
        alloc,
        0,
        b"",
        Some(design.library.bytes()),
        design.cell.bytes(),
    )?;
    match linked {
        Linked::Refused(refusal) => Ok(Some(refusal)),
        Linked::Cell(number) => {
            let missing = lacks_view(tables.cell(number));
            let found = no_view_refusal(alloc, missing, design.cell.bytes())?;
            Ok(found)
        }
    }
}

// The walk, after a library.
fn pass_library<'a>(
    alloc: Global,
    tabled: &TabledFile<'a>,
    walk: Walk<'a>,
    library: &'a Library,
) -> Result<Walk<'a>, NoMemory>
    requires few { (walk.libraries < count_limit) × (walk.cells ≤ count_limit) }
    requires small { library_size library.now ≤ count_limit }
    ensures { IfOk result (λ passed. (before : List FileItem)
        → HasPassed tabled.now before walk.entry
        → HasPassed tabled.now (before ++ file_items.Library library.now ∷ []) passed) }
{
    let Walk {
        best,
        mut names,
        libraries,
        cells,
    } = walk;
    let own = cells_of(alloc, library)?;
    let ident = library.name.ident.bytes();
    let taken = names.note(ident)?;
    let second = second_refusal(alloc, taken, b"library", ident)?;
    let parts = library_refusal(alloc, tabled, libraries, cells, own.as_slice())?;
    Ok(Walk {
        best: lower(best, lower(second, parts)),
        names,
        libraries: libraries + 1,
        cells: cells + own.len() as u32,
    })
}

// The walk, after a design.
fn pass_design<'a>(
    alloc: Global,
    tabled: &TabledFile<'a>,
    walk: Walk<'a>,
    design: &Design,
) -> Result<Walk<'a>, NoMemory>
    ensures { IfOk result (λ passed. (before : List FileItem)
        → HasPassed tabled.now before walk.entry
        → HasPassed tabled.now (before ++ file_items.Design design.now ∷ []) passed) }
{
    let Walk {
        best,
        names,
        libraries,
        cells,
    } = walk;
    let next = design_refusal(alloc, tabled, design)?;
    Ok(Walk {
        best: lower(best, next),
        names,
        libraries,
        cells,
    })
}

// The walk, after a part of the file.
fn pass<'a>(
    alloc: Global,
    tabled: &TabledFile<'a>,
    walk: Walk<'a>,
    item: &'a FileItem,
) -> Result<Walk<'a>, NoMemory>
    requires few { (walk.libraries < count_limit) × (walk.cells ≤ count_limit) }
    requires small { file_item_size item.now ≤ count_limit }
    ensures { IfOk result (λ passed. (before : List FileItem)
        → HasPassed tabled.now before walk.entry
        → HasPassed tabled.now (before ++ item.now ∷ []) passed) }
{
    match item {
        FileItem::Library(library) => {
            let passed = pass_library(alloc, tabled, walk, library)?;
            Ok(passed)
        }
        FileItem::Design(design) => {
            let passed = pass_design(alloc, tabled, walk, design)?;
            Ok(passed)
        }
        FileItem::Status(_) => Ok(walk),
        FileItem::Note(_) => Ok(walk),
    }
}

// The first refusal of the parts of a file.
fn parts_refusal<'a>(
    alloc: Global,
    tabled: &TabledFile<'a>,
    items: &'a [FileItem],
) -> Result<Option<Refusal>, NoMemory>
    requires { list_size file_item_size items.now ≤ count_limit }
    ensures { IfOk result (λ found. found
        ≡ lowest (in_order (file_item_refusals tabled.now) items.now)) }
{
    let mut walk = Walk {
        best: None,
        names: NameSet::new(alloc),
        libraries: 0,
        cells: 0,
    };
    for item in items {
        walk = pass(alloc, tabled, walk, item)?;
    }
    let Walk { best, .. } = walk;
    Ok(best)
}

/// The first refusal of a file by the rules E1 to E12.
pub(crate) fn file_refusal<'a>(
    alloc: Global,
    tabled: &TabledFile<'a>,
    file: &'a EdifFile,
    found: &[&Design],
) -> Result<Option<Refusal>, NoMemory>
    requires same { file.now ≡ tabled.now }
    requires small { edif_size file.now ≤ count_limit }
    requires designs { seen found.now ≡ designs file.now }
    ensures { IfOk result (λ refusal. refusal ≡ lowest (refusals file.now)) }
{
    let count = design_count_refusal(alloc, found)?;
    let parts = parts_refusal(alloc, tabled, file.items.items())?;
    Ok(lower(count, parts))
}
