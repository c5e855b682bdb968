ghost use Rattle.std.specs.Prelude.{◌+◌, ◌<◌, [], IfOk};
ghost use Rattle.readers.specs.Readers.{same, Reads, room};
ghost use Rattle.edif_keywords.specs.Language.{edif};
ghost use Rattle.std.specs.List.{AllByRecursion};
ghost use Rattle.edif_values.specs.Values.{IsInteger, IsStamp, IsVersion, IsWrittenItem, IsWritten};
ghost use Rattle.edif_values.specs.Sizes.{list_size, written_item_size, written_size};
ghost use Rattle.edif_status.specs.Grammar.{clock, stamp, version_text, no_version, maybe_version, author, program, data_origin, written_item, written_part, written_rest, written};

use crate::note::read_note;
use edif_keywords::Cursor;
use edif_values::{Keyword, Stamp, Written, WrittenItem, same_keyword};
use nl_base::{Int, ReadError, Seq, Text};
use nl_io::Source;
use std::alloc::Global;

/// Reads on after the keyword `written`: a time stamp, and what is told of the writing.
#[tactic(auto, using(readers::proofs::Reading::sequences), unfolding(crate::specs::Grammar::written))]
pub(crate) fn read_written<S: Source>(
    alloc: Global,
    cursor: &mut Cursor,
    source: &mut S,
) -> Result<Written, ReadError>
    ensures reads { Reads edif same written result cursor.old cursor.new
        (S.supply source.old) (S.supply source.new) }
    ensures value { IfOk result IsWritten }
    ensures size { IfOk result (λ w. written_size w + room cursor.new < room cursor.old) }
{
    cursor.begin(alloc, &[Keyword::TimeStamp], source)?;
    let stamp = read_stamp(alloc, cursor, source)?;
    let items = read_written_items(alloc, cursor, source)?;
    Ok(Written { stamp, items })
}

/// Reads on after the keyword `timeStamp`: six numbers.
#[tactic(auto, using(readers::proofs::Reading::sequences), unfolding(crate::specs::Grammar::stamp))]
fn read_stamp<S: Source>(
    alloc: Global,
    cursor: &mut Cursor,
    source: &mut S,
) -> Result<Stamp, ReadError>
    ensures reads { Reads edif same stamp result cursor.old cursor.new
        (S.supply source.old) (S.supply source.new) }
    ensures value { IfOk result IsStamp }
{
    let year = cursor.int(alloc, source)?;
    let month = cursor.int(alloc, source)?;
    let day = cursor.int(alloc, source)?;
    read_clock(alloc, cursor, year, month, day, source)
}

/// Reads on after the date of a time stamp.
#[tactic(auto, using(readers::proofs::Reading::sequences), unfolding(crate::specs::Grammar::clock))]
fn read_clock<S: Source>(
    alloc: Global,
    cursor: &mut Cursor,
    year: Int,
    month: Int,
    day: Int,
    source: &mut S,
) -> Result<Stamp, ReadError>
    requires year { IsInteger year }
    requires month { IsInteger month }
    requires day { IsInteger day }
    ensures reads { Reads edif same (clock year month day) result cursor.old cursor.new
        (S.supply source.old) (S.supply source.new) }
    ensures value { IfOk result IsStamp }
{
    let hour = cursor.int(alloc, source)?;
    let minute = cursor.int(alloc, source)?;
    let second = cursor.int(alloc, source)?;
    cursor.finish_form(alloc, source)?;
    Ok(Stamp {
        year,
        month,
        day,
        hour,
        minute,
        second,
    })
}

/// Reads what is told of a writing, up to the end of its form.
#[tactic(auto, using(edif_keywords::proofs::Collected::item_lists), unfolding(crate::specs::Grammar::written_rest, crate::specs::Grammar::written_part))]
fn read_written_items<S: Source>(
    alloc: Global,
    cursor: &mut Cursor,
    source: &mut S,
) -> Result<Seq<WrittenItem>, ReadError>
    ensures reads { Reads edif same (written_rest []) result cursor.old cursor.new
        (S.supply source.old) (S.supply source.new) }
    ensures value { IfOk result (λ is. AllByRecursion IsWrittenItem is) }
    ensures size { IfOk result
        (λ is. list_size written_item_size is + room cursor.new < room cursor.old) }
{
    let mut items = Seq::empty(alloc);
    while cursor.at_form(alloc, source)? {
        let item = read_written_item(alloc, cursor, source)?;
        cursor.add(&mut items, item)?;
    }
    cursor.finish_form(alloc, source)?;
    Ok(items)
}

/// Reads an item of a writing, from its `(` on.
#[tactic(auto, using(readers::proofs::Reading::sequences), unfolding(crate::specs::Grammar::written_part))]
fn read_written_item<S: Source>(
    alloc: Global,
    cursor: &mut Cursor,
    source: &mut S,
) -> Result<WrittenItem, ReadError>
    ensures reads { Reads edif same written_part result cursor.old cursor.new
        (S.supply source.old) (S.supply source.new) }
    ensures value { IfOk result IsWrittenItem }
    ensures size { IfOk result (λ i. written_item_size i + room cursor.new < room cursor.old) }
{
    let allowed = &[
        Keyword::Author,
        Keyword::Program,
        Keyword::DataOrigin,
        Keyword::Comment,
        Keyword::UserData,
    ];
    let keyword = cursor.begin(alloc, allowed, source)?;
    read_written_form(alloc, cursor, keyword, source)
}

/// Reads on after the keyword of an item of a writing.
#[tactic(auto, using(readers::proofs::Reading::sequences))]
fn read_written_form<S: Source>(
    alloc: Global,
    cursor: &mut Cursor,
    keyword: Keyword,
    source: &mut S,
) -> Result<WrittenItem, ReadError>
    ensures reads { Reads edif same (written_item keyword) result cursor.old cursor.new
        (S.supply source.old) (S.supply source.new) }
    ensures value { IfOk result IsWrittenItem }
    ensures size { IfOk result (λ i. written_item_size i + room cursor.new < room cursor.old) }
{
    if same_keyword(keyword, Keyword::Author) {
        return read_author(alloc, cursor, source);
    }
    if same_keyword(keyword, Keyword::Program) {
        return read_program(alloc, cursor, source);
    }
    if same_keyword(keyword, Keyword::DataOrigin) {
        return read_data_origin(alloc, cursor, source);
    }
    let note = read_note(alloc, cursor, keyword, source)?;
    Ok(WrittenItem::Note(note))
}

/// Reads on after the keyword `author`.
#[tactic(auto, using(readers::proofs::Reading::sequences), unfolding(crate::specs::Grammar::author))]
fn read_author<S: Source>(
    alloc: Global,
    cursor: &mut Cursor,
    source: &mut S,
) -> Result<WrittenItem, ReadError>
    ensures reads { Reads edif same author result cursor.old cursor.new
        (S.supply source.old) (S.supply source.new) }
    ensures value { IfOk result IsWrittenItem }
    ensures size { IfOk result (λ i. written_item_size i + room cursor.new < room cursor.old) }
{
    let name = cursor.string(alloc, source)?;
    cursor.finish_form(alloc, source)?;
    Ok(WrittenItem::Author(name))
}

/// Reads on after the keyword `program`.
#[tactic(auto, using(readers::proofs::Reading::sequences), unfolding(crate::specs::Grammar::program))]
fn read_program<S: Source>(
    alloc: Global,
    cursor: &mut Cursor,
    source: &mut S,
) -> Result<WrittenItem, ReadError>
    ensures reads { Reads edif same program result cursor.old cursor.new
        (S.supply source.old) (S.supply source.new) }
    ensures value { IfOk result IsWrittenItem }
    ensures size { IfOk result (λ i. written_item_size i + room cursor.new < room cursor.old) }
{
    let name = cursor.string(alloc, source)?;
    let version = read_version(alloc, cursor, source)?;
    Ok(WrittenItem::Program(name, version))
}

/// Reads on after the keyword `dataOrigin`.
#[tactic(auto, using(readers::proofs::Reading::sequences), unfolding(crate::specs::Grammar::data_origin))]
fn read_data_origin<S: Source>(
    alloc: Global,
    cursor: &mut Cursor,
    source: &mut S,
) -> Result<WrittenItem, ReadError>
    ensures reads { Reads edif same data_origin result cursor.old cursor.new
        (S.supply source.old) (S.supply source.new) }
    ensures value { IfOk result IsWrittenItem }
    ensures size { IfOk result (λ i. written_item_size i + room cursor.new < room cursor.old) }
{
    let name = cursor.string(alloc, source)?;
    let version = read_version(alloc, cursor, source)?;
    Ok(WrittenItem::DataOrigin(name, version))
}

/// Reads the version of a program or origin, if there is one, and the end of the form around it.
#[tactic(auto, using(crate::proofs::Due::version_or_end), unfolding(crate::specs::Grammar::maybe_version))]
fn read_version<S: Source>(
    alloc: Global,
    cursor: &mut Cursor,
    source: &mut S,
) -> Result<Option<Text>, ReadError>
    ensures reads { Reads edif same maybe_version result cursor.old cursor.new
        (S.supply source.old) (S.supply source.new) }
    ensures value { IfOk result IsVersion }
{
    if cursor.at_form(alloc, source)? {
        cursor.begin(alloc, &[Keyword::Version], source)?;
        return read_version_text(alloc, cursor, source);
    }
    no_version(alloc, cursor, source)
}

/// Reads on after the keyword `version`, and the end of the form around it.
#[tactic(auto, using(readers::proofs::Reading::sequences), unfolding(crate::specs::Grammar::version_text))]
fn read_version_text<S: Source>(
    alloc: Global,
    cursor: &mut Cursor,
    source: &mut S,
) -> Result<Option<Text>, ReadError>
    ensures reads { Reads edif same version_text result cursor.old cursor.new
        (S.supply source.old) (S.supply source.new) }
    ensures value { IfOk result IsVersion }
{
    let text = cursor.string(alloc, source)?;
    cursor.finish_form(alloc, source)?;
    cursor.finish_form(alloc, source)?;
    Ok(Some(text))
}

/// Reads the end of a form without a version.
#[tactic(auto, using(readers::proofs::Reading::sequences), unfolding(crate::specs::Grammar::no_version))]
fn no_version<S: Source>(
    alloc: Global,
    cursor: &mut Cursor,
    source: &mut S,
) -> Result<Option<Text>, ReadError>
    ensures reads { Reads edif same no_version result cursor.old cursor.new
        (S.supply source.old) (S.supply source.new) }
    ensures value { IfOk result IsVersion }
{
    cursor.finish_form(alloc, source)?;
    Ok(None)
}
