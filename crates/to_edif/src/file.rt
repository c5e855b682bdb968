// The file of cells.
ghost use Rattle.std.specs.Prelude.{◌≡◌, map, IfOk};
ghost use Rattle.edif_values.specs.Values.{IsWord};
ghost use Rattle.edif_values.specs.declared.library.LibraryItem.TheVariants as library_items;
ghost use Rattle.edif_written.specs.Written.{design_of as design_for, file_of as file_for, library_of as library_for};
ghost use Rattle.to_edif.specs.Files.{IsLoneName};

use edif_naming::{copied, named};
use edif_parts::library_ident;
use edif_spaces::Space;
use edif_values::{Cell, Design, EdifFile, FileItem, Library, LibraryItem, NameDef};
use nl_base::{Ident, NoMemory, OptionalText, Seq};
use std::alloc::Global;

/// Cells as parts of a library.
fn library_items(alloc: Global, cells: Vec<Cell>) -> Result<Seq<LibraryItem>, NoMemory>
    ensures { IfOk result (λ items. items ≡ map library_items.Cell cells.items) }
{
    let mut items = Vec::with_capacity(alloc, cells.len())?;
    for cell in cells {
        items.push(LibraryItem::Cell(cell))?;
    }
    Ok(Seq::of(items))
}

/// The library of these cells.
fn library_of(alloc: Global, cells: Vec<Cell>) -> Result<Library, NoMemory>
    ensures { IfOk result (λ library. library ≡ library_for cells.items) }
{
    let ident = library_ident(alloc)?;
    let items = library_items(alloc, cells)?;
    Ok(Library {
        external: false,
        name: NameDef {
            ident,
            text: OptionalText::none(),
        },
        scales: Seq::empty(alloc),
        notes: Seq::empty(alloc),
        items,
    })
}

/// The name of an object that stands alone in its name space.
pub(crate) fn lone_name(alloc: Global, name: &[u8]) -> Result<NameDef, NoMemory>
    ensures { IfOk result (IsLoneName name.now) }
{
    let mut space = Space::new(alloc);
    let ident = space.ident(alloc, name)?;
    let made = named(alloc, &ident, name)?;
    Ok(made)
}

/// The design of this name of the cell with this identifier.
fn design_of(alloc: Global, name: NameDef, top: &Ident) -> Result<Design, NoMemory>
    ensures { IfOk result (λ design. design ≡ design_for name top.now) }
{
    let cell = copied(alloc, top)?;
    let library = library_ident(alloc)?;
    Ok(Design {
        name,
        cell,
        library,
        items: Seq::empty(alloc),
    })
}

/// The file of these cells and of the design of the one with this identifier.
#[tactic(auto, unfolding(edif_written::specs::Written::file_of))]
pub(crate) fn file_with(
    alloc: Global,
    name: NameDef,
    design_name: NameDef,
    cells: Vec<Cell>,
    top: &Ident,
) -> Result<EdifFile, NoMemory>
    ensures { IfOk result (λ file. file ≡ file_for name design_name cells.items top.now) }
{
    let library = library_of(alloc, cells)?;
    let design = design_of(alloc, design_name, top)?;
    let mut items = Seq::empty(alloc);
    items.push(FileItem::Library(library))?;
    items.push(FileItem::Design(design))?;
    Ok(EdifFile { name, items })
}
