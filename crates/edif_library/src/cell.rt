ghost use Rattle.std.specs.Prelude.{◌≡◌, ◌||◌, ◌+◌, ◌<◌, ◌≤◌, [], ◌∷◌, true, false, length, IfOk};
ghost use Rattle.std.specs.List.{AllByRecursion, filter};
ghost use Rattle.readers.specs.Readers.{same, Reads, room};
ghost use Rattle.edif_keywords.specs.Language.{edif};
ghost use Rattle.edif_keywords.specs.Grammar.{item};
ghost use Rattle.edif_values.specs.declared.keyword.Keyword.TheVariants as k;
ghost use Rattle.edif_values.specs.Keywords.{same_keyword};
ghost use Rattle.edif_values.specs.Values.{is_view, IsCellItem, IsCell};
ghost use Rattle.edif_values.specs.Sizes.{list_size, cell_item_size, cell_size};
ghost use Rattle.edif_library.specs.Grammar.{cell_item, cell_keywords, cell_rest, cell_type, cell};

use crate::view::read_view;
use edif_keywords::Cursor;
use edif_names::{read_name, read_property};
use edif_status::{read_note, read_status};
use edif_values::{Cell, CellItem, CellKind, Keyword, same_keyword};
use nl_base::{ReadError, Seq};
use nl_io::Source;
use std::alloc::Global;

/// Reads on after the keyword `cell`.
pub(crate) fn read_cell<S: Source>(
    alloc: Global,
    cursor: &mut Cursor,
    source: &mut S,
) -> Result<Cell, ReadError>
    ensures reads { Reads edif same cell result cursor.old cursor.new
        (S.supply source.old) (S.supply source.new) }
    ensures value { IfOk result IsCell }
    ensures size { IfOk result (λ c. cell_size c + room cursor.new < room cursor.old) }
{
    let name = read_name(alloc, cursor, source)?;
    let kind = cell_type(alloc, cursor, source)?;
    let items = cell_rest(alloc, cursor, source)?;
    Ok(Cell { name, kind, items })
}

/// Reads a `cellType`.
#[tactic(auto, using(readers::proofs::Reading::sequences), unfolding(crate::specs::Grammar::cell_type))]
pub fn cell_type<S: Source>(
    alloc: Global,
    cursor: &mut Cursor,
    source: &mut S,
) -> Result<CellKind, ReadError>
    ensures { Reads edif same cell_type result cursor.old cursor.new
        (S.supply source.old) (S.supply source.new) }
{
    cursor.begin(alloc, &[Keyword::CellType], source)?;
    let kind = cursor.choose(
        alloc,
        &[
            (b"GENERIC".as_slice(), CellKind::Generic),
            (b"TIE".as_slice(), CellKind::Tie),
            (b"RIPPER".as_slice(), CellKind::Ripper),
        ],
        source,
    )?;
    cursor.finish_form(alloc, source)?;
    Ok(kind)
}

/// Reads the parts of a cell up to its `)`. A view may stand there once.
fn cell_rest<S: Source>(
    alloc: Global,
    cursor: &mut Cursor,
    source: &mut S,
) -> Result<Seq<CellItem>, ReadError>
    ensures reads { Reads edif same (cell_rest []) result cursor.old cursor.new
        (S.supply source.old) (S.supply source.new) }
    ensures value { IfOk result (λ is. AllByRecursion IsCellItem is) }
    ensures once { IfOk result (λ is. length (filter is_view is) ≤ 1) }
    ensures size { IfOk result
        (λ is. list_size cell_item_size is + room cursor.new < room cursor.old) }
{
    let mut items = Seq::empty(alloc);
    let mut viewed = false;
    while cursor.at_form(alloc, source)? {
        let item = cell_item(alloc, cursor, viewed, source)?;
        viewed = is_viewed(viewed, &item);
        cursor.add(&mut items, item)?;
    }
    cursor.finish_form(alloc, source)?;
    Ok(items)
}

/// Whether a view stands among the parts of a cell, after one more.
fn is_viewed(so_far: bool, item: &CellItem) -> bool
    ensures { result ≡ (so_far || is_view item.now) }
{
    match item {
        CellItem::View(_) => true,
        CellItem::Property(_) | CellItem::Status(_) | CellItem::Note(_) => so_far,
    }
}

/// Reads a part of a cell, from its `(` on.
fn cell_item<S: Source>(
    alloc: Global,
    cursor: &mut Cursor,
    viewed: bool,
    source: &mut S,
) -> Result<CellItem, ReadError>
    ensures reads { Reads edif same
        (item (cell_keywords viewed) cell_item) result cursor.old cursor.new
        (S.supply source.old) (S.supply source.new) }
    ensures value { IfOk result IsCellItem }
    ensures once { IfOk result (λ i. viewed ≡ true → is_view i ≡ false) }
    ensures size { IfOk result (λ i. cell_item_size i + room cursor.new < room cursor.old) }
{
    let keyword = cursor.begin(alloc, cell_keywords(viewed), source)?;
    cell_form(alloc, cursor, keyword, source)
}

/// The keywords that may stand in a cell, which has a view already or not.
#[tactic(auto, unfolding(crate::specs::Grammar::cell_keywords))]
pub fn cell_keywords(viewed: bool) -> &'static [Keyword]
    ensures { result.now ≡ cell_keywords viewed }
{
    if viewed {
        return &[
            Keyword::Property,
            Keyword::Status,
            Keyword::Comment,
            Keyword::UserData,
        ];
    }
    &[
        Keyword::View,
        Keyword::Property,
        Keyword::Status,
        Keyword::Comment,
        Keyword::UserData,
    ]
}

/// Reads on after the keyword of a part of a cell.
pub fn cell_form<S: Source>(
    alloc: Global,
    cursor: &mut Cursor,
    keyword: Keyword,
    source: &mut S,
) -> Result<CellItem, ReadError>
    ensures reads { Reads edif same (cell_item keyword) result cursor.old cursor.new
        (S.supply source.old) (S.supply source.new) }
    ensures value { IfOk result IsCellItem }
    ensures kind { IfOk result (λ i. is_view i ≡ same_keyword keyword k.View) }
    ensures size { IfOk result (λ i. cell_item_size i + room cursor.new < room cursor.old) }
{
    if same_keyword(keyword, Keyword::View) {
        let view = read_view(alloc, cursor, source)?;
        return Ok(CellItem::View(view));
    }
    if same_keyword(keyword, Keyword::Property) {
        let property = read_property(alloc, cursor, source)?;
        return Ok(CellItem::Property(property));
    }
    if same_keyword(keyword, Keyword::Status) {
        let status = read_status(alloc, cursor, source)?;
        return Ok(CellItem::Status(status));
    }
    let note = read_note(alloc, cursor, keyword, source)?;
    Ok(CellItem::Note(note))
}
