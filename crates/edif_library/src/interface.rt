// The readers of interfaces and of contents.
ghost use Rattle.std.specs.Prelude.{◌+◌, ◌<◌, [], ◌∷◌, IfOk};
ghost use Rattle.std.specs.List.{AllByRecursion};
ghost use Rattle.readers.specs.Readers.{same, Reads, room};
ghost use Rattle.edif_keywords.specs.Language.{edif};
ghost use Rattle.edif_keywords.specs.Grammar.{item};
ghost use Rattle.edif_values.specs.Values.{IsInterfaceItem};
ghost use Rattle.edif_values.specs.Sizes.{list_size, interface_item_size};
ghost use Rattle.edif_library.specs.Grammar.{interface_item, interface_keywords, interface_rest, interface};

use edif_keywords::Cursor;
use edif_names::read_property;
use edif_nets::{read_designator, read_port};
use edif_status::read_note;
use edif_values::{InterfaceItem, Keyword, same_keyword};
use nl_base::{ReadError, Seq};
use nl_io::Source;
use std::alloc::Global;

/// Reads an interface, from its `(` on (EDIF 2 0 0, interface).
pub fn read_interface<S: Source>(
    alloc: Global,
    cursor: &mut Cursor,
    source: &mut S,
) -> Result<Seq<InterfaceItem>, ReadError>
    ensures reads { Reads edif same interface result cursor.old cursor.new
        (S.supply source.old) (S.supply source.new) }
    ensures value { IfOk result (λ is. AllByRecursion IsInterfaceItem is) }
    ensures size { IfOk result
        (λ is. list_size interface_item_size is + room cursor.new < room cursor.old) }
{
    cursor.begin(alloc, &[Keyword::Interface], source)?;
    interface_rest(alloc, cursor, source)
}

/// Reads the parts of an interface up to its `)`.
fn interface_rest<S: Source>(
    alloc: Global,
    cursor: &mut Cursor,
    source: &mut S,
) -> Result<Seq<InterfaceItem>, ReadError>
    ensures reads { Reads edif same (interface_rest []) result cursor.old cursor.new
        (S.supply source.old) (S.supply source.new) }
    ensures value { IfOk result (λ is. AllByRecursion IsInterfaceItem is) }
    ensures size { IfOk result
        (λ is. list_size interface_item_size is + room cursor.new < room cursor.old) }
{
    let mut items = Seq::empty(alloc);
    while cursor.at_form(alloc, source)? {
        let item = interface_item(alloc, cursor, source)?;
        cursor.add(&mut items, item)?;
    }
    cursor.finish_form(alloc, source)?;
    Ok(items)
}

/// Reads a part of an interface, from its `(` on.
fn interface_item<S: Source>(
    alloc: Global,
    cursor: &mut Cursor,
    source: &mut S,
) -> Result<InterfaceItem, ReadError>
    ensures reads { Reads edif same
        (item interface_keywords interface_item) result cursor.old cursor.new
        (S.supply source.old) (S.supply source.new) }
    ensures value { IfOk result IsInterfaceItem }
    ensures size { IfOk result (λ i. interface_item_size i + room cursor.new < room cursor.old) }
{
    let keyword = cursor.begin(
        alloc,
        &[
            Keyword::Port,
            Keyword::Property,
            Keyword::Designator,
            Keyword::Comment,
            Keyword::UserData,
        ],
        source,
    )?;
    interface_form(alloc, cursor, keyword, source)
}

/// Reads on after the keyword of a part of an interface.
fn interface_form<S: Source>(
    alloc: Global,
    cursor: &mut Cursor,
    keyword: Keyword,
    source: &mut S,
) -> Result<InterfaceItem, ReadError>
    ensures reads { Reads edif same (interface_item keyword) result cursor.old cursor.new
        (S.supply source.old) (S.supply source.new) }
    ensures value { IfOk result IsInterfaceItem }
    ensures size { IfOk result (λ i. interface_item_size i + room cursor.new < room cursor.old) }
{
    if same_keyword(keyword, Keyword::Port) {
        let port = read_port(alloc, cursor, source)?;
        return Ok(InterfaceItem::Port(port));
    }
    if same_keyword(keyword, Keyword::Property) {
        let property = read_property(alloc, cursor, source)?;
        return Ok(InterfaceItem::Property(property));
    }
    if same_keyword(keyword, Keyword::Designator) {
        let text = read_designator(alloc, cursor, source)?;
        return Ok(InterfaceItem::Designator(text));
    }
    let note = read_note(alloc, cursor, keyword, source)?;
    Ok(InterfaceItem::Note(note))
}
