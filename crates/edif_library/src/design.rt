// The reader of a design.
ghost use Rattle.std.specs.Prelude.{◌+◌, ◌<◌, [], ◌∷◌, IfOk};
ghost use Rattle.std.specs.List.{AllByRecursion};
ghost use Rattle.readers.specs.Readers.{same, Reads, room};
ghost use Rattle.edif_keywords.specs.Language.{edif};
ghost use Rattle.edif_keywords.specs.Grammar.{item};
ghost use Rattle.edif_values.specs.Values.{IsWord, IsDesignItem, IsDesign};
ghost use Rattle.edif_values.specs.Sizes.{list_size, design_item_size, design_size};
ghost use Rattle.edif_library.specs.Grammar.{library_ref, cell_ref, design_item, design_keywords, design_rest, design};

use edif_keywords::Cursor;
use edif_names::{read_name, read_property};
use edif_status::{read_note, read_status};
use edif_values::{Design, DesignItem, Keyword, same_keyword};
use nl_base::{Ident, ReadError, Seq};
use nl_io::Source;
use std::alloc::Global;

/// Reads on after the keyword `design`.
pub(crate) fn read_design<S: Source>(
    alloc: Global,
    cursor: &mut Cursor,
    source: &mut S,
) -> Result<Design, ReadError>
    ensures reads { Reads edif same design result cursor.old cursor.new
        (S.supply source.old) (S.supply source.new) }
    ensures value { IfOk result IsDesign }
    ensures size { IfOk result (λ d. design_size d + room cursor.new < room cursor.old) }
{
    let name = read_name(alloc, cursor, source)?;
    let (cell, library) = cell_ref(alloc, cursor, source)?;
    let items = design_rest(alloc, cursor, source)?;
    Ok(Design {
        name,
        cell,
        library,
        items,
    })
}

/// Reads a `cellRef` with its library, from its `(` on: the words for the cell and the library.
fn cell_ref<S: Source>(
    alloc: Global,
    cursor: &mut Cursor,
    source: &mut S,
) -> Result<(Ident, Ident), ReadError>
    ensures reads { Reads edif same cell_ref result cursor.old cursor.new
        (S.supply source.old) (S.supply source.new) }
    ensures value { IfOk result (λ c. IsWord c.0 × IsWord c.1) }
{
    cursor.begin(alloc, &[Keyword::CellRef], source)?;
    let cell = cursor.word(alloc, source)?;
    let library = library_ref(alloc, cursor, source)?;
    cursor.finish_form(alloc, source)?;
    Ok((cell, library))
}

/// Reads a `libraryRef`, from its `(` on.
fn library_ref<S: Source>(
    alloc: Global,
    cursor: &mut Cursor,
    source: &mut S,
) -> Result<Ident, ReadError>
    ensures reads { Reads edif same library_ref result cursor.old cursor.new
        (S.supply source.old) (S.supply source.new) }
    ensures value { IfOk result IsWord }
{
    cursor.begin(alloc, &[Keyword::LibraryRef], source)?;
    let word = cursor.word(alloc, source)?;
    cursor.finish_form(alloc, source)?;
    Ok(word)
}

/// Reads the properties, status and notes of a design up to its `)`.
fn design_rest<S: Source>(
    alloc: Global,
    cursor: &mut Cursor,
    source: &mut S,
) -> Result<Seq<DesignItem>, ReadError>
    ensures reads { Reads edif same (design_rest []) result cursor.old cursor.new
        (S.supply source.old) (S.supply source.new) }
    ensures value { IfOk result (λ is. AllByRecursion IsDesignItem is) }
    ensures size { IfOk result
        (λ is. list_size design_item_size is + room cursor.new < room cursor.old) }
{
    let mut items = Seq::empty(alloc);
    while cursor.at_form(alloc, source)? {
        let item = design_item(alloc, cursor, source)?;
        cursor.add(&mut items, item)?;
    }
    cursor.finish_form(alloc, source)?;
    Ok(items)
}

/// Reads a part of a design, from its `(` on.
fn design_item<S: Source>(
    alloc: Global,
    cursor: &mut Cursor,
    source: &mut S,
) -> Result<DesignItem, ReadError>
    ensures reads { Reads edif same (item design_keywords design_item) result cursor.old cursor.new
        (S.supply source.old) (S.supply source.new) }
    ensures value { IfOk result IsDesignItem }
    ensures size { IfOk result (λ i. design_item_size i + room cursor.new < room cursor.old) }
{
    let keyword = cursor.begin(
        alloc,
        &[
            Keyword::Property,
            Keyword::Status,
            Keyword::Comment,
            Keyword::UserData,
        ],
        source,
    )?;
    design_form(alloc, cursor, keyword, source)
}

/// Reads on after the keyword of a part of a design.
fn design_form<S: Source>(
    alloc: Global,
    cursor: &mut Cursor,
    keyword: Keyword,
    source: &mut S,
) -> Result<DesignItem, ReadError>
    ensures reads { Reads edif same (design_item keyword) result cursor.old cursor.new
        (S.supply source.old) (S.supply source.new) }
    ensures value { IfOk result IsDesignItem }
    ensures size { IfOk result (λ i. design_item_size i + room cursor.new < room cursor.old) }
{
    if same_keyword(keyword, Keyword::Property) {
        let property = read_property(alloc, cursor, source)?;
        return Ok(DesignItem::Property(property));
    }
    if same_keyword(keyword, Keyword::Status) {
        let status = read_status(alloc, cursor, source)?;
        return Ok(DesignItem::Status(status));
    }
    let note = read_note(alloc, cursor, keyword, source)?;
    Ok(DesignItem::Note(note))
}
