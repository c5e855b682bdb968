ghost use Rattle.std.specs.Prelude.{◌≡◌, ◌||◌, ◌+◌, ◌<◌, ◌≤◌, [], ◌∷◌, true, false, length, IfOk};
ghost use Rattle.std.specs.List.{AllByRecursion, filter};
ghost use Rattle.readers.specs.Readers.{same, Reads, room};
ghost use Rattle.edif_keywords.specs.Language.{edif};
ghost use Rattle.edif_keywords.specs.Grammar.{item};
ghost use Rattle.edif_values.specs.declared.keyword.Keyword.TheVariants as k;
ghost use Rattle.edif_values.specs.Keywords.{same_keyword};
ghost use Rattle.edif_values.specs.Values.{is_contents, IsViewItem, IsView};
ghost use Rattle.edif_values.specs.Sizes.{list_size, view_item_size, view_size};
ghost use Rattle.edif_library.specs.Grammar.{view_item, view_keywords, view_rest, netlist, view};

use crate::contents::read_contents;
use crate::interface::read_interface;
use edif_keywords::Cursor;
use edif_names::{read_name, read_property};
use edif_status::{read_note, read_status};
use edif_values::{Keyword, View, ViewItem, same_keyword};
use nl_base::{InlineList, ReadError};
use nl_io::Source;
use std::alloc::Global;

/// Reads on after the keyword `view`.
pub(crate) fn read_view<S: Source>(
    alloc: Global,
    cursor: &mut Cursor,
    source: &mut S,
) -> Result<View, ReadError>
    ensures reads { Reads edif same view result cursor.old cursor.new
        (S.supply source.old) (S.supply source.new) }
    ensures value { IfOk result IsView }
    ensures size { IfOk result (λ v. view_size v + room cursor.new < room cursor.old) }
{
    let name = read_name(alloc, cursor, source)?;
    netlist(alloc, cursor, source)?;
    let interface = read_interface(alloc, cursor, source)?;
    let items = view_rest(alloc, cursor, source)?;
    Ok(View {
        name,
        interface,
        items,
    })
}

/// Reads `viewType`, which is NETLIST.
#[tactic(auto, using(readers::proofs::Reading::sequences), unfolding(crate::specs::Grammar::netlist))]
pub fn netlist<S: Source>(
    alloc: Global,
    cursor: &mut Cursor,
    source: &mut S,
) -> Result<(), ReadError>
    ensures { Reads edif same netlist result cursor.old cursor.new
        (S.supply source.old) (S.supply source.new) }
{
    cursor.begin(alloc, &[Keyword::ViewType], source)?;
    cursor.view_type(alloc, source)?;
    cursor.finish_form(alloc, source)
}

/// Reads the parts of a view up to its `)`. Contents may stand there once.
fn view_rest<S: Source>(
    alloc: Global,
    cursor: &mut Cursor,
    source: &mut S,
) -> Result<InlineList<ViewItem>, ReadError>
    ensures reads { Reads edif same (view_rest []) result cursor.old cursor.new
        (S.supply source.old) (S.supply source.new) }
    ensures value { IfOk result (λ is. AllByRecursion IsViewItem is) }
    ensures once { IfOk result (λ is. length (filter is_contents is) ≤ 1) }
    ensures size { IfOk result
        (λ is. list_size view_item_size is + room cursor.new < room cursor.old) }
{
    let mut items = InlineList::empty();
    let mut filled = false;
    while cursor.at_form(alloc, source)? {
        let item = view_item(alloc, cursor, filled, source)?;
        filled = is_filled(filled, &item);
        cursor.add_inline(alloc, &mut items, item)?;
    }
    cursor.finish_form(alloc, source)?;
    Ok(items)
}

/// Whether contents stand among the parts of a view, after one more.
fn is_filled(so_far: bool, item: &ViewItem) -> bool
    ensures { result ≡ (so_far || is_contents item.now) }
{
    match item {
        ViewItem::Contents(_) => true,
        ViewItem::Property(_) | ViewItem::Status(_) | ViewItem::Note(_) => so_far,
    }
}

/// Reads a part of a view, from its `(` on.
fn view_item<S: Source>(
    alloc: Global,
    cursor: &mut Cursor,
    filled: bool,
    source: &mut S,
) -> Result<ViewItem, ReadError>
    ensures reads { Reads edif same
        (item (view_keywords filled) view_item) result cursor.old cursor.new
        (S.supply source.old) (S.supply source.new) }
    ensures value { IfOk result IsViewItem }
    ensures once { IfOk result (λ i. filled ≡ true → is_contents i ≡ false) }
    ensures size { IfOk result (λ i. view_item_size i + room cursor.new < room cursor.old) }
{
    let keyword = cursor.begin(alloc, view_keywords(filled), source)?;
    view_form(alloc, cursor, keyword, source)
}

/// The keywords that may stand in a view, which has contents already or not.
#[tactic(auto, unfolding(crate::specs::Grammar::view_keywords))]
pub fn view_keywords(filled: bool) -> &'static [Keyword]
    ensures { result.now ≡ view_keywords filled }
{
    if filled {
        return &[
            Keyword::Property,
            Keyword::Status,
            Keyword::Comment,
            Keyword::UserData,
        ];
    }
    &[
        Keyword::Contents,
        Keyword::Property,
        Keyword::Status,
        Keyword::Comment,
        Keyword::UserData,
    ]
}

/// Reads on after the keyword of a part of a view.
#[tactic(auto, using(readers::proofs::Reading::sequences))]
pub fn view_form<S: Source>(
    alloc: Global,
    cursor: &mut Cursor,
    keyword: Keyword,
    source: &mut S,
) -> Result<ViewItem, ReadError>
    ensures reads { Reads edif same (view_item keyword) result cursor.old cursor.new
        (S.supply source.old) (S.supply source.new) }
    ensures value { IfOk result IsViewItem }
    ensures kind { IfOk result (λ i. is_contents i ≡ same_keyword keyword k.Contents) }
    ensures size { IfOk result (λ i. view_item_size i + room cursor.new < room cursor.old) }
{
    if same_keyword(keyword, Keyword::Contents) {
        let items = read_contents(alloc, cursor, source)?;
        return Ok(ViewItem::Contents(items));
    }
    if same_keyword(keyword, Keyword::Property) {
        let property = read_property(alloc, cursor, source)?;
        let property = cursor.boxed(alloc, property)?;
        return Ok(ViewItem::Property(property));
    }
    if same_keyword(keyword, Keyword::Status) {
        let status = read_status(alloc, cursor, source)?;
        return Ok(ViewItem::Status(status));
    }
    let note = read_note(alloc, cursor, keyword, source)?;
    let note = cursor.boxed(alloc, note)?;
    Ok(ViewItem::Note(note))
}
