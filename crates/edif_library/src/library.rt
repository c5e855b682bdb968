ghost use Rattle.std.specs.Prelude.{◌+◌, ◌<◌, [], ◌∷◌, IfOk};
ghost use Rattle.std.specs.List.{AllByRecursion};
ghost use Rattle.readers.specs.Readers.{same, Reads, room};
ghost use Rattle.edif_keywords.specs.Language.{edif};
ghost use Rattle.edif_keywords.specs.Grammar.{item};
ghost use Rattle.edif_values.specs.Values.{IsLibraryItem, IsLibrary};
ghost use Rattle.edif_values.specs.Sizes.{list_size, library_item_size, library_size};
ghost use Rattle.edif_library.specs.Grammar.{library_item, library_keywords, library_rest, library};

use crate::cell::read_cell;
use crate::technology::read_technology;
use edif_keywords::Cursor;
use edif_names::read_name;
use edif_status::{read_note, read_status};
use edif_values::{Keyword, Library, LibraryItem, same_keyword};
use nl_base::{ReadError, Seq};
use nl_io::Source;
use std::alloc::Global;

/// Reads on after the keyword `library`, or `external`.
pub(crate) fn read_library<S: Source>(
    alloc: Global,
    cursor: &mut Cursor,
    external: bool,
    source: &mut S,
) -> Result<Library, ReadError>
    ensures reads { Reads edif same (library external) result cursor.old cursor.new
        (S.supply source.old) (S.supply source.new) }
    ensures value { IfOk result IsLibrary }
    ensures size { IfOk result (λ l. library_size l + room cursor.new < room cursor.old) }
{
    let name = read_name(alloc, cursor, source)?;
    cursor.level(alloc, source)?;
    let (scales, notes) = read_technology(alloc, cursor, source)?;
    let items = library_rest(alloc, cursor, source)?;
    Ok(Library {
        external,
        name,
        scales,
        notes,
        items,
    })
}

/// Reads the cells, status and notes of a library up to its `)`.
fn library_rest<S: Source>(
    alloc: Global,
    cursor: &mut Cursor,
    source: &mut S,
) -> Result<Seq<LibraryItem>, ReadError>
    ensures reads { Reads edif same (library_rest []) result cursor.old cursor.new
        (S.supply source.old) (S.supply source.new) }
    ensures value { IfOk result (λ is. AllByRecursion IsLibraryItem is) }
    ensures size { IfOk result
        (λ is. list_size library_item_size is + room cursor.new < room cursor.old) }
{
    let mut items = Seq::empty(alloc);
    while cursor.at_form(alloc, source)? {
        let item = library_item(alloc, cursor, source)?;
        cursor.add(&mut items, item)?;
    }
    cursor.finish_form(alloc, source)?;
    Ok(items)
}

/// Reads a part of a library, from its `(` on.
fn library_item<S: Source>(
    alloc: Global,
    cursor: &mut Cursor,
    source: &mut S,
) -> Result<LibraryItem, ReadError>
    ensures reads { Reads edif same
        (item library_keywords library_item) result cursor.old cursor.new
        (S.supply source.old) (S.supply source.new) }
    ensures value { IfOk result IsLibraryItem }
    ensures size { IfOk result (λ i. library_item_size i + room cursor.new < room cursor.old) }
{
    let keyword = cursor.begin(
        alloc,
        &[
            Keyword::Cell,
            Keyword::Status,
            Keyword::Comment,
            Keyword::UserData,
        ],
        source,
    )?;
    library_form(alloc, cursor, keyword, source)
}

/// Reads on after the keyword of a part of a library.
pub fn library_form<S: Source>(
    alloc: Global,
    cursor: &mut Cursor,
    keyword: Keyword,
    source: &mut S,
) -> Result<LibraryItem, ReadError>
    ensures reads { Reads edif same (library_item keyword) result cursor.old cursor.new
        (S.supply source.old) (S.supply source.new) }
    ensures value { IfOk result IsLibraryItem }
    ensures size { IfOk result (λ i. library_item_size i + room cursor.new < room cursor.old) }
{
    if same_keyword(keyword, Keyword::Cell) {
        let cell = read_cell(alloc, cursor, source)?;
        return Ok(LibraryItem::Cell(cell));
    }
    if same_keyword(keyword, Keyword::Status) {
        let status = read_status(alloc, cursor, source)?;
        return Ok(LibraryItem::Status(status));
    }
    let note = read_note(alloc, cursor, keyword, source)?;
    Ok(LibraryItem::Note(note))
}
