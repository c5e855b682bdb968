// The reader of contents.
ghost use Rattle.std.specs.Prelude.{◌≡◌, ◌+◌, ◌<◌, [], ◌∷◌, IfOk};
ghost use Rattle.std.specs.List.{AllByRecursion};
ghost use Rattle.readers.specs.Readers.{same, Reads, room};
ghost use Rattle.edif_keywords.specs.Language.{edif};
ghost use Rattle.edif_keywords.specs.Grammar.{item};
ghost use Rattle.edif_values.specs.Values.{IsContentsItem};
ghost use Rattle.edif_values.specs.Sizes.{list_size, contents_item_size};
ghost use Rattle.edif_library.specs.Grammar.{contents_item, contents_keywords, contents_rest};

use edif_keywords::Cursor;
use edif_nets::{read_instance, read_net};
use edif_status::read_note;
use edif_values::{ContentsItem, Keyword, same_keyword};
use nl_base::{ReadError, Seq};
use nl_io::Source;
use std::alloc::Global;

/// Reads on after the keyword `contents`, up to its `)` (EDIF 2 0 0, contents).
pub(crate) fn read_contents<S: Source>(
    alloc: Global,
    cursor: &mut Cursor,
    source: &mut S,
) -> Result<Seq<ContentsItem>, ReadError>
    ensures reads { Reads edif same (contents_rest []) result cursor.old cursor.new
        (S.supply source.old) (S.supply source.new) }
    ensures value { IfOk result (λ is. AllByRecursion IsContentsItem is) }
    ensures size { IfOk result
        (λ is. list_size contents_item_size is + room cursor.new < room cursor.old) }
{
    let mut items = Seq::empty(alloc);
    while cursor.at_form(alloc, source)? {
        let item = contents_item(alloc, cursor, source)?;
        cursor.add(&mut items, item)?;
    }
    cursor.finish_form(alloc, source)?;
    Ok(without_spare_room(items))
}

/// The same parts, in a list that has given back its spare room: there may be many small cells.
fn without_spare_room(items: Seq<ContentsItem>) -> Seq<ContentsItem>
    ensures { result ≡ items }
{
    let mut items = items.into_vec();
    items.shrink_to_fit();
    Seq::of(items)
}

/// Reads a part of contents, from its `(` on.
#[tactic(auto, using(readers::proofs::Reading::sequences))]
pub fn contents_item<S: Source>(
    alloc: Global,
    cursor: &mut Cursor,
    source: &mut S,
) -> Result<ContentsItem, ReadError>
    ensures reads { Reads edif same
        (item contents_keywords contents_item) result cursor.old cursor.new
        (S.supply source.old) (S.supply source.new) }
    ensures value { IfOk result IsContentsItem }
    ensures size { IfOk result (λ i. contents_item_size i + room cursor.new < room cursor.old) }
{
    let keyword = cursor.begin(
        alloc,
        &[
            Keyword::Instance,
            Keyword::Net,
            Keyword::Comment,
            Keyword::UserData,
        ],
        source,
    )?;
    contents_form(alloc, cursor, keyword, source)
}

/// Reads on after the keyword of a part of contents.
#[tactic(auto, using(readers::proofs::Reading::sequences))]
fn contents_form<S: Source>(
    alloc: Global,
    cursor: &mut Cursor,
    keyword: Keyword,
    source: &mut S,
) -> Result<ContentsItem, ReadError>
    ensures reads { Reads edif same (contents_item keyword) result cursor.old cursor.new
        (S.supply source.old) (S.supply source.new) }
    ensures value { IfOk result IsContentsItem }
    ensures size { IfOk result (λ i. contents_item_size i + room cursor.new < room cursor.old) }
{
    if same_keyword(keyword, Keyword::Instance) {
        let instance = read_instance(alloc, cursor, source)?;
        return Ok(ContentsItem::Instance(instance));
    }
    if same_keyword(keyword, Keyword::Net) {
        let net = read_net(alloc, cursor, source)?;
        return Ok(ContentsItem::Net(net));
    }
    let note = read_note(alloc, cursor, keyword, source)?;
    Ok(ContentsItem::Note(note))
}
