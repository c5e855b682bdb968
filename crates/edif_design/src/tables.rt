// The cells of a file, and the tables in which references to libraries and cells are looked up.
ghost use Rattle.std.specs.Prelude.{◌≡◌, ◌≤◌, ◌<◌, ◌^◌, ◌+◌, ◌++◌, length, map, slice_get, option_map, vec_len, option_to_list, IfOk, OnOk};
ghost use Rattle.std.specs.List.{enumerate_from, flat_map};
ghost use Rattle.edif_lookup.specs.Tables.{meant_by, named, written};
ghost use Rattle.edif_values.specs.Sizes.{edif_size};
ghost use Rattle.net_hier.specs.Valid.{count_limit};
ghost use Rattle.edif_design.specs.CellRules.{means_view};
ghost use Rattle.edif_design.specs.Parts.{cell_in, cells_in, libraries, library_in, numbered};
ghost use Rattle.edif_design.specs.References.{all_cells, cell_candidates, file_cells, library_candidates, place_in};
ghost use Rattle.edif_design.specs.Tables.{cell_ident, library_ident, place_of, places_from, seen, tables_from};
ghost use Rattle.edif_design.specs.Views.{view_names};

use crate::views::CellViews;
use edif_lookup::{Definitions, Meaning};
use edif_values::{Cell, EdifFile, FileItem, Library, LibraryItem};
use nl_base::NoMemory;
use std::alloc::Global;
use std::marker::Model;

/// A cell of a file, and the number of the library in which it stands.
#[derive(Clone, Copy)]
pub struct PlacedCell<'a> {
    pub library: u32,
    pub cell: &'a Cell,
}

/// A file with the tables in which its references are looked up; contracts see it as the file.
#[derive(Drop)]
pub struct FileTables<'a> {
    file: &'a EdifFile,
    places: Vec<PlacedCell<'a>>,
    views: Vec<CellViews<'a>>,
    libraries: Definitions<'a>,
    cells: Vec<Definitions<'a>>,
}

impl<'a> Model for FileTables<'a> {
    ghost use Rattle.edif_design.specs.Tables.{HasTables};
    ghost use Rattle.std.specs.Coded.{codes};
    ghost use Rattle.edif_values.specs.declared.file.EdifFile.{EdifFile};
    ghost use Rattle.edif_values.specs.contracts.user.UserTree as trees;

    ghost Value = { EdifFile };

    ghost coded = { Prim.hlevel (codes, trees.the_row.coded) };

    ghost view = { λ t. t.file.now };

    ghost invariant = { λ t. HasTables t.file.now t.places.items t.views.items t.libraries t.cells.items };
}

// Adds the library that a part of a file is.
fn push_library<'a>(found: &mut Vec<&'a Library>, item: &'a FileItem) -> Result<(), NoMemory>
    ensures { OnOk result (seen found.new.items
        ≡ seen found.old.items ++ option_to_list (library_in item.now)) }
{
    match item {
        FileItem::Library(library) => {
            found.push(library)?;
            Ok(())
        }
        _ => Ok(()),
    }
}

// The libraries of a file.
fn libraries_of<'a>(alloc: Global, file: &'a EdifFile) -> Result<Vec<&'a Library>, NoMemory>
    ensures { IfOk result (λ found. seen found.items ≡ libraries file.now) }
{
    let mut found = Vec::new(alloc);
    for item in file.items.items() {
        push_library(&mut found, item)?;
    }
    Ok(found)
}

// Adds the cell that a part of a library is.
fn push_cell<'a>(
    places: &mut Vec<PlacedCell<'a>>,
    library: u32,
    item: &'a LibraryItem,
) -> Result<(), NoMemory>
    ensures { OnOk result (map place_of places.new.items
        ≡ map place_of places.old.items
        ++ map (place_in library) (option_to_list (cell_in item.now))) }
{
    match item {
        LibraryItem::Cell(cell) => {
            places.push(PlacedCell { library, cell })?;
            Ok(())
        }
        _ => Ok(()),
    }
}

// Adds the cells of the library with this number.
fn push_cells<'a>(
    places: &mut Vec<PlacedCell<'a>>,
    number: u32,
    library: &'a Library,
) -> Result<(), NoMemory>
    ensures { OnOk result (map place_of places.new.items
        ≡ map place_of places.old.items ++ map (place_in number) (cells_in library.now)) }
{
    for item in library.items.items() {
        push_cell(places, number, item)?;
    }
    Ok(())
}

// The cells of these libraries.
fn places_of<'a>(alloc: Global, libraries: &[&'a Library]) -> Result<Vec<PlacedCell<'a>>, NoMemory>
    requires { length libraries.now ≤ count_limit }
    ensures { IfOk result (λ places. map place_of places.items
        ≡ places_from 0 (seen libraries.now)) }
{
    let mut places = Vec::new(alloc);
    for number in 0..libraries.len() as u32 {
        push_cells(&mut places, number, libraries[number as usize])?;
    }
    Ok(places)
}

// The views of each of these cells.
fn cell_views<'a>(alloc: Global, places: &[PlacedCell<'a>]) -> Result<Vec<CellViews<'a>>, NoMemory>
    ensures { IfOk result (λ made. made.items
        ≡ map (λ place. view_names place.cell.now) places.now) }
{
    let mut made = Vec::with_capacity(alloc, places.len())?;
    for place in places {
        made.push(CellViews::build(alloc, place.cell)?)?;
    }
    Ok(made)
}

// The names of the libraries, with their numbers.
fn library_entries<'a>(
    alloc: Global,
    libraries: &[&'a Library],
) -> Result<Vec<(u32, &'a [u8])>, NoMemory>
    requires { length libraries.now ≤ count_limit }
    ensures { IfOk result (λ entries. written entries.items
        ≡ named library_ident (numbered (seen libraries.now))) }
{
    let mut entries = Vec::new(alloc);
    for number in 0..libraries.len() as u32 {
        let name = libraries[number as usize].name.ident.bytes();
        entries.push((number, name))?;
    }
    Ok(entries)
}

// Adds the name of the cell that a part of a library is, with the next number from the first on.
fn push_name<'a>(
    entries: &mut Vec<(u32, &'a [u8])>,
    first: u32,
    item: &'a LibraryItem,
) -> Result<(), NoMemory>
    requires { first + vec_len entries.old < 2 ^ 32 }
    ensures { OnOk result (written entries.new.items
        ≡ written entries.old.items
        ++ named cell_ident (enumerate_from (first + vec_len entries.old)
        (option_to_list (cell_in item.now)))) }
{
    match item {
        LibraryItem::Cell(cell) => {
            let number = first + entries.len() as u32;
            entries.push((number, cell.name.ident.bytes()))?;
            Ok(())
        }
        _ => Ok(()),
    }
}

// The names of the cells of a library, numbered from the first on.
fn cell_entries<'a>(
    alloc: Global,
    library: &'a Library,
    first: u32,
) -> Result<Vec<(u32, &'a [u8])>, NoMemory>
    requires { first + length (cells_in library.now) ≤ count_limit }
    ensures { IfOk result (λ entries. written entries.items
        ≡ named cell_ident (enumerate_from first (cells_in library.now))) }
{
    let mut entries = Vec::new(alloc);
    for item in library.items.items() {
        push_name(&mut entries, first, item)?;
    }
    Ok(entries)
}

// The tables of the cells of each library.
fn cell_tables<'a>(
    alloc: Global,
    libraries: &[&'a Library],
) -> Result<Vec<Definitions<'a>>, NoMemory>
    requires { length (flat_map cells_in (seen libraries.now)) ≤ count_limit }
    ensures { IfOk result (λ tables. tables.items ≡ tables_from 0 (seen libraries.now)) }
{
    let mut tables = Vec::new(alloc);
    let mut first: u32 = 0;
    for library in libraries {
        let entries = cell_entries(alloc, library, first)?;
        first += entries.len() as u32;
        tables.push(Definitions::build(alloc, entries)?)?;
    }
    Ok(tables)
}

impl<'a> FileTables<'a> {
    /// The tables of a file of at most 268,435,456 items.
    pub fn build(alloc: Global, file: &'a EdifFile) -> Result<FileTables<'a>, NoMemory>
        requires { edif_size file.now ≤ count_limit }
        ensures { IfOk result (λ tables. tables ≡ file.now) }
    {
        let libraries = libraries_of(alloc, file)?;
        let places = places_of(alloc, libraries.as_slice())?;
        let entries = library_entries(alloc, libraries.as_slice())?;
        let named = Definitions::build(alloc, entries)?;
        let cells = cell_tables(alloc, libraries.as_slice())?;
        let views = cell_views(alloc, places.as_slice())?;
        Ok(FileTables {
            file,
            places,
            views,
            libraries: named,
            cells,
        })
    }

    /// The file.
    pub fn file(&self) -> &'a EdifFile
        ensures { result.now ≡ self.now }
    {
        self.file
    }

    /// The cells of the file, in file order.
    pub fn places(&self) -> &[PlacedCell<'a>]
        ensures { map place_of result.now ≡ all_cells self.now }
    {
        self.places.as_slice()
    }

    /// The cell of this number.
    pub fn cell(&self, number: u32) -> Option<&'a Cell>
        ensures { option_map (λ cell. cell.now) result ≡ slice_get (file_cells self.now) number }
    {
        match self.places.get(number as usize) {
            Some(place) => Some(place.cell),
            None => None,
        }
    }

    /// Whether a viewRef of this spelling means a view of the cell of this number, where there is one.
    pub fn means_view(
        &self,
        alloc: Global,
        number: u32,
        spelling: &[u8],
    ) -> Result<Option<bool>, NoMemory>
        ensures { IfOk result (λ means. means
            ≡ option_map (λ cell. means_view cell spelling.now)
            (slice_get (file_cells self.now) number)) }
    {
        match self.views.get(number as usize) {
            Some(views) => {
                let means = views.means(alloc, spelling)?;
                Ok(Some(means))
            }
            None => Ok(None),
        }
    }

    // What a libraryRef of this spelling means.
    pub(crate) fn find_library(&self, alloc: Global, spelling: &[u8]) -> Result<Meaning, NoMemory>
        ensures { IfOk result (λ found. found
            ≡ meant_by (library_candidates self.now spelling.now)) }
    {
        let found = self.libraries.find(alloc, spelling)?;
        Ok(found)
    }

    // What a cellRef of this spelling means in the library with this number.
    pub(crate) fn find_cell(
        &self,
        alloc: Global,
        library: u32,
        spelling: &[u8],
    ) -> Result<Meaning, NoMemory>
        ensures { IfOk result (λ found. found
            ≡ meant_by (cell_candidates self.now library spelling.now)) }
    {
        match self.cells.get(library as usize) {
            Some(table) => {
                let found = table.find(alloc, spelling)?;
                Ok(found)
            }
            None => Ok(Meaning::Nothing),
        }
    }
}
