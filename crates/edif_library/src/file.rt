ghost use Rattle.std.specs.Prelude.{◌+◌, ◌<◌, ◌≤◌, [], ◌∷◌, IfOk};
ghost use Rattle.std.specs.List.{AllByRecursion};
ghost use Rattle.readers.specs.Readers.{same, Reads, ReadsWhole, room};
ghost use Rattle.edif_keywords.specs.Language.{edif};
ghost use Rattle.readers.specs.Texts.{ReadsText};
ghost use Rattle.edif_keywords.specs.Reasons.{trailing};
ghost use Rattle.edif_keywords.specs.Grammar.{item};
ghost use Rattle.nl_bytes.specs.declared.bytes.TheConstants.{LIMIT};
ghost use Rattle.edif_values.specs.Values.{IsNameDef, IsFileItem, IsEdifValue};
ghost use Rattle.edif_values.specs.Sizes.{list_size, file_item_size, edif_size};
ghost use Rattle.edif_library.specs.Grammar.{file_item, file_keywords, file_rest, file_body, file};

use crate::design::read_design;
use crate::library::read_library;
use edif_keywords::Cursor;
use edif_names::read_name;
use edif_status::{read_note, read_status};
use edif_tokens::Tokens;
use edif_values::{EdifFile, FileItem, Keyword, NameDef, same_keyword};
use nl_base::{ReadError, Seq};
use nl_io::Source;
use std::alloc::Global;

/// Reads a text to its end as an EDIF file. The text has at most 268,435,456 bytes. Whatever it answers, at
/// most 4,096 bytes more than these are taken from the source. From every source, whether it tells its bytes
/// or not, a file that is answered can be written and has at most 268,435,456 items in all its lists.
///
/// # Errors
/// `Text`: the first fault, with its place, where its stop lies within so many bytes. `TooLong`: the text is longer, and it has no such
/// fault. `ReadFault`: the source failed. `NoMemory`: memory ran out. It never answers `Spent`.
pub fn read_edif<S: Source>(alloc: Global, source: &mut S) -> Result<EdifFile, ReadError>
    ensures reads { ReadsText edif trailing [] same (file []) result
        (S.supply source.old) (S.supply source.new) }
    ensures value { IfOk result IsEdifValue }
    ensures size { IfOk result (λ file. edif_size file ≤ LIMIT) }
{
    let Ok(tokens) = Tokens::new(alloc) else {
        return Err(ReadError::NoMemory);
    };
    let mut cursor = Cursor::new(alloc, tokens);
    let file = read_file(alloc, &mut cursor, source)?;
    cursor.end_of_input(alloc, source)?;
    Ok(file)
}

/// Reads a file, from its `(` to its `)`.
#[tactic(auto, using(readers::proofs::Reading::sequences), unfolding(crate::specs::Grammar::file))]
fn read_file<S: Source>(
    alloc: Global,
    cursor: &mut Cursor,
    source: &mut S,
) -> Result<EdifFile, ReadError>
    ensures reads { ReadsWhole edif same (file cursor.old.context) result cursor.old cursor.new
        (S.supply source.old) (S.supply source.new) }
    ensures value { IfOk result IsEdifValue }
    ensures size { IfOk result (λ f. edif_size f + room cursor.new < room cursor.old) }
{
    cursor.begin(alloc, &[Keyword::Edif], source)?;
    let name = read_name(alloc, cursor, source)?;
    cursor.header(alloc, source)?;
    file_body(alloc, cursor, name, source)
}

/// Reads on after the header of a file of this name.
fn file_body<S: Source>(
    alloc: Global,
    cursor: &mut Cursor,
    name: NameDef,
    source: &mut S,
) -> Result<EdifFile, ReadError>
    requires { IsNameDef name }
    ensures reads { Reads edif same (file_body name) result cursor.old cursor.new
        (S.supply source.old) (S.supply source.new) }
    ensures value { IfOk result IsEdifValue }
    ensures size { IfOk result (λ f. edif_size f + room cursor.new < room cursor.old) }
{
    let items = file_rest(alloc, cursor, source)?;
    Ok(EdifFile { name, items })
}

/// Reads the parts of a file up to its `)`.
fn file_rest<S: Source>(
    alloc: Global,
    cursor: &mut Cursor,
    source: &mut S,
) -> Result<Seq<FileItem>, ReadError>
    ensures reads { Reads edif same (file_rest []) result cursor.old cursor.new
        (S.supply source.old) (S.supply source.new) }
    ensures value { IfOk result (λ is. AllByRecursion IsFileItem is) }
    ensures size { IfOk result
        (λ is. list_size file_item_size is + room cursor.new < room cursor.old) }
{
    let mut items = Seq::empty(alloc);
    while cursor.at_form(alloc, source)? {
        let item = file_item(alloc, cursor, source)?;
        cursor.add(&mut items, item)?;
    }
    cursor.finish_form(alloc, source)?;
    Ok(items)
}

/// Reads a part of a file, from its `(` on.
fn file_item<S: Source>(
    alloc: Global,
    cursor: &mut Cursor,
    source: &mut S,
) -> Result<FileItem, ReadError>
    ensures reads { Reads edif same (item file_keywords file_item) result cursor.old cursor.new
        (S.supply source.old) (S.supply source.new) }
    ensures value { IfOk result IsFileItem }
    ensures size { IfOk result (λ i. file_item_size i + room cursor.new < room cursor.old) }
{
    let keyword = cursor.begin(
        alloc,
        &[
            Keyword::Library,
            Keyword::External,
            Keyword::Design,
            Keyword::Status,
            Keyword::Comment,
            Keyword::UserData,
        ],
        source,
    )?;
    file_form(alloc, cursor, keyword, source)
}

/// Reads on after the keyword of a part of a file.
pub fn file_form<S: Source>(
    alloc: Global,
    cursor: &mut Cursor,
    keyword: Keyword,
    source: &mut S,
) -> Result<FileItem, ReadError>
    ensures reads { Reads edif same (file_item keyword) result cursor.old cursor.new
        (S.supply source.old) (S.supply source.new) }
    ensures value { IfOk result IsFileItem }
    ensures size { IfOk result (λ i. file_item_size i + room cursor.new < room cursor.old) }
{
    if same_keyword(keyword, Keyword::Library) {
        let library = read_library(alloc, cursor, false, source)?;
        return Ok(FileItem::Library(library));
    }
    if same_keyword(keyword, Keyword::External) {
        let external = read_library(alloc, cursor, true, source)?;
        return Ok(FileItem::Library(external));
    }
    if same_keyword(keyword, Keyword::Design) {
        let design = read_design(alloc, cursor, source)?;
        return Ok(FileItem::Design(design));
    }
    if same_keyword(keyword, Keyword::Status) {
        let status = read_status(alloc, cursor, source)?;
        return Ok(FileItem::Status(status));
    }
    let note = read_note(alloc, cursor, keyword, source)?;
    Ok(FileItem::Note(note))
}
