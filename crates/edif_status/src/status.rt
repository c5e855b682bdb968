ghost use Rattle.std.specs.Prelude.{◌+◌, ◌<◌, [], IfOk};
ghost use Rattle.readers.specs.Readers.{same, Reads, room};
ghost use Rattle.edif_keywords.specs.Language.{edif};
ghost use Rattle.std.specs.List.{AllByRecursion};
ghost use Rattle.edif_values.specs.Values.{IsStatusItem, IsStatus};
ghost use Rattle.edif_values.specs.Sizes.{list_size, status_item_size, status_size};
ghost use Rattle.edif_status.specs.Grammar.{status_item, status_part, status_rest, status};

use crate::note::read_note;
use crate::written::read_written;
use edif_keywords::Cursor;
use edif_values::{Keyword, Status, StatusItem, same_keyword};
use nl_base::{ReadError, Seq};
use nl_io::Source;
use std::alloc::Global;

/// Reads on after the keyword `status`.
#[tactic(auto, using(readers::proofs::Reading::sequences), unfolding(crate::specs::Grammar::status))]
pub fn read_status<S: Source>(
    alloc: Global,
    cursor: &mut Cursor,
    source: &mut S,
) -> Result<Status, ReadError>
    ensures reads { Reads edif same status result cursor.old cursor.new
        (S.supply source.old) (S.supply source.new) }
    ensures value { IfOk result IsStatus }
    ensures size { IfOk result (λ s. status_size s + room cursor.new < room cursor.old) }
{
    let items = read_status_items(alloc, cursor, source)?;
    Ok(Status { items })
}

/// Reads the parts of a status, up to the end of its form.
#[tactic(auto, using(edif_keywords::proofs::Collected::item_lists), unfolding(crate::specs::Grammar::status_rest, crate::specs::Grammar::status_part))]
fn read_status_items<S: Source>(
    alloc: Global,
    cursor: &mut Cursor,
    source: &mut S,
) -> Result<Seq<StatusItem>, ReadError>
    ensures reads { Reads edif same (status_rest []) result cursor.old cursor.new
        (S.supply source.old) (S.supply source.new) }
    ensures value { IfOk result (λ is. AllByRecursion IsStatusItem is) }
    ensures size { IfOk result
        (λ is. list_size status_item_size is + room cursor.new < room cursor.old) }
{
    let mut items = Seq::empty(alloc);
    while cursor.at_form(alloc, source)? {
        let item = read_status_item(alloc, cursor, source)?;
        cursor.add(&mut items, item)?;
    }
    cursor.finish_form(alloc, source)?;
    Ok(items)
}

/// Reads a part of a status, from its `(` on.
#[tactic(auto, using(readers::proofs::Reading::sequences), unfolding(crate::specs::Grammar::status_part))]
fn read_status_item<S: Source>(
    alloc: Global,
    cursor: &mut Cursor,
    source: &mut S,
) -> Result<StatusItem, ReadError>
    ensures reads { Reads edif same status_part result cursor.old cursor.new
        (S.supply source.old) (S.supply source.new) }
    ensures value { IfOk result IsStatusItem }
    ensures size { IfOk result (λ i. status_item_size i + room cursor.new < room cursor.old) }
{
    let allowed = &[Keyword::Written, Keyword::Comment, Keyword::UserData];
    let keyword = cursor.begin(alloc, allowed, source)?;
    read_status_form(alloc, cursor, keyword, source)
}

/// Reads on after the keyword of a part of a status.
#[tactic(auto, using(readers::proofs::Reading::sequences))]
fn read_status_form<S: Source>(
    alloc: Global,
    cursor: &mut Cursor,
    keyword: Keyword,
    source: &mut S,
) -> Result<StatusItem, ReadError>
    ensures reads { Reads edif same (status_item keyword) result cursor.old cursor.new
        (S.supply source.old) (S.supply source.new) }
    ensures value { IfOk result IsStatusItem }
    ensures size { IfOk result (λ i. status_item_size i + room cursor.new < room cursor.old) }
{
    if same_keyword(keyword, Keyword::Written) {
        let written = read_written(alloc, cursor, source)?;
        return Ok(StatusItem::Written(written));
    }
    let note = read_note(alloc, cursor, keyword, source)?;
    Ok(StatusItem::Note(note))
}
