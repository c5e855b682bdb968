// Generated files.
ghost use Rattle.std.specs.Prelude.{◌≡◌, ◌-◌, ◌<◌, IfOk, map};
ghost use Rattle.edif_values.specs.declared.file.FileItem.TheVariants as file_items;
ghost use Rattle.edif_values.specs.declared.library.LibraryItem.TheVariants as library_items;
ghost use Rattle.vectors.specs.Files as spec;

use crate::cells::{cell_above, first_cell};
use crate::idents::{cell_ident, ident, name};
use crate::numbers::{first_number, is_swapped, next_number};
use edif_values::{Design, EdifFile, FileItem, Library, LibraryItem};
use nl_base::{NoMemory, Seq};
use std::alloc::Global;

/// So many cells.
#[tactic(auto, using(crate::proofs::Counting::number_turn, crate::proofs::Counting::cells_turn))]
fn cells_of(alloc: Global, seed: u64, cells: u32) -> Result<Seq<LibraryItem>, NoMemory>
    requires { 0 < cells }
    ensures { IfOk result (λ items. items ≡ map library_items.Cell (spec.cells_of seed cells)) }
{
    let first = first_cell(alloc)?;
    let mut made = Seq::empty(alloc);
    made.push(first)?;
    let mut number = first_number(seed);
    for below in 0..cells - 1 {
        number = next_number(number);
        let next = cell_above(alloc, below, is_swapped(number))?;
        made.push(next)?;
    }
    Ok(made)
}

/// The library of these cells.
fn library(alloc: Global, items: Seq<LibraryItem>) -> Result<Library, NoMemory>
    ensures { IfOk result (λ library. library ≡ spec.library_with items) }
{
    let name = name(alloc, b"gen")?;
    Ok(Library {
        external: false,
        name,
        scales: Seq::empty(alloc),
        notes: Seq::empty(alloc),
        items,
    })
}

/// The design of the cell of this number.
fn design(alloc: Global, top: u32) -> Result<Design, NoMemory>
    ensures { IfOk result (λ design. design ≡ spec.design top) }
{
    let name = name(alloc, b"gen")?;
    let cell = cell_ident(alloc, top)?;
    let library = ident(alloc, b"gen")?;
    Ok(Design {
        name,
        cell,
        library,
        items: Seq::empty(alloc),
    })
}

/// The generated file of a seed and so many cells, of which each but the first has two instances of the one before.
///
/// # Errors
/// `NoMemory`: memory ran out.
#[tactic(auto, unfolding(crate::specs::Files::generated))]
pub fn generate(alloc: Global, seed: u64, cells: u32) -> Result<EdifFile, NoMemory>
    requires { 0 < cells }
    ensures { IfOk result (λ file. file ≡ spec.generated seed cells) }
{
    let made = cells_of(alloc, seed, cells)?;
    let library = library(alloc, made)?;
    let design = design(alloc, cells - 1)?;
    let name = name(alloc, b"gen")?;
    let mut items = Seq::empty(alloc);
    items.push(FileItem::Library(library))?;
    items.push(FileItem::Design(design))?;
    Ok(EdifFile { name, items })
}
