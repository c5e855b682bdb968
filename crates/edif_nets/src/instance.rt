ghost use Rattle.std.specs.Prelude.{◌+◌, ◌<◌, [], IfOk, IfSome};
ghost use Rattle.readers.specs.Readers.{same, Reads, room};
ghost use Rattle.edif_keywords.specs.Language.{edif};
ghost use Rattle.edif_keywords.specs.Grammar.{item};
ghost use Rattle.std.specs.List.{AllByRecursion};
ghost use Rattle.edif_values.specs.Values.{IsWord, IsInstanceItem, IsInstance};
ghost use Rattle.edif_values.specs.Sizes.{list_size, instance_item_size, instance_size};
ghost use Rattle.edif_nets.specs.Grammar.{library_named, no_library, maybe_library, cell_ref, view_ref, instance_item, instance_keywords, instance_rest, instance};

use crate::port::read_designator;
use edif_keywords::Cursor;
use edif_names::{read_name, read_property};
use edif_status::read_note;
use edif_values::{Instance, InstanceItem, Keyword, same_keyword};
use nl_base::{Ident, OptionalIdent, ReadError, Seq};
use nl_io::Source;
use std::alloc::Global;

/// Reads on after the keyword `instance`: its name, the view of a cell that it refers to, and its items.
#[tactic(auto, using(readers::proofs::Reading::sequences), unfolding(crate::specs::Grammar::instance))]
pub fn read_instance<S: Source>(
    alloc: Global,
    cursor: &mut Cursor,
    source: &mut S,
) -> Result<Instance, ReadError>
    ensures reads { Reads edif same instance result cursor.old cursor.new
        (S.supply source.old) (S.supply source.new) }
    ensures value { IfOk result IsInstance }
    ensures size { IfOk result (λ u. instance_size u + room cursor.new < room cursor.old) }
{
    let name = read_name(alloc, cursor, source)?;
    let (view, cell, library) = view_ref(alloc, cursor, source)?;
    let items = instance_rest(alloc, cursor, source)?;
    Ok(Instance {
        name,
        view,
        cell,
        library,
        items,
    })
}

/// A `viewRef`, from its `(` on: the view, its cell, and the cell's library where one is named.
#[tactic(auto, using(readers::proofs::Reading::sequences), unfolding(crate::specs::Grammar::view_ref))]
fn view_ref<S: Source>(
    alloc: Global,
    cursor: &mut Cursor,
    source: &mut S,
) -> Result<(Ident, Ident, OptionalIdent), ReadError>
    ensures reads { Reads edif same view_ref result cursor.old cursor.new
        (S.supply source.old) (S.supply source.new) }
    ensures value { IfOk result (λ v. IsWord v.0 × IsWord v.1 × IfSome v.2 IsWord) }
{
    cursor.begin(alloc, &[Keyword::ViewRef], source)?;
    let view = cursor.word(alloc, source)?;
    let (cell, library) = cell_ref(alloc, cursor, source)?;
    cursor.finish_form(alloc, source)?;
    Ok((view, cell, library))
}

/// A `cellRef`, from its `(` on: the cell, and its library where one is named.
#[tactic(auto, using(readers::proofs::Reading::sequences), unfolding(crate::specs::Grammar::cell_ref))]
fn cell_ref<S: Source>(
    alloc: Global,
    cursor: &mut Cursor,
    source: &mut S,
) -> Result<(Ident, OptionalIdent), ReadError>
    ensures reads { Reads edif same cell_ref result cursor.old cursor.new
        (S.supply source.old) (S.supply source.new) }
    ensures value { IfOk result (λ c. IsWord c.0 × IfSome c.1 IsWord) }
{
    cursor.begin(alloc, &[Keyword::CellRef], source)?;
    let cell = cursor.word(alloc, source)?;
    let library = maybe_library(alloc, cursor, source)?;
    Ok((cell, library))
}

/// The library of a cell where one is named, with the `)` of the form around it.
#[tactic(auto, using(crate::proofs::Parts::form_or_token), unfolding(crate::specs::Grammar::maybe_library))]
fn maybe_library<S: Source>(
    alloc: Global,
    cursor: &mut Cursor,
    source: &mut S,
) -> Result<OptionalIdent, ReadError>
    ensures reads { Reads edif same maybe_library result cursor.old cursor.new
        (S.supply source.old) (S.supply source.new) }
    ensures value { IfOk result (λ l. IfSome l IsWord) }
{
    if cursor.at_form(alloc, source)? {
        cursor.begin(alloc, &[Keyword::LibraryRef], source)?;
        return library_named(alloc, cursor, source);
    }
    no_library(alloc, cursor, source)
}

/// Reads on after the keyword `libraryRef`, with the `)` of the form around it.
#[tactic(auto, using(readers::proofs::Reading::sequences), unfolding(crate::specs::Grammar::library_named))]
fn library_named<S: Source>(
    alloc: Global,
    cursor: &mut Cursor,
    source: &mut S,
) -> Result<OptionalIdent, ReadError>
    ensures reads { Reads edif same library_named result cursor.old cursor.new
        (S.supply source.old) (S.supply source.new) }
    ensures value { IfOk result (λ l. IfSome l IsWord) }
{
    let library = cursor.word(alloc, source)?;
    cursor.finish_form(alloc, source)?;
    cursor.finish_form(alloc, source)?;
    Ok(OptionalIdent::some(library))
}

#[tactic(auto, using(readers::proofs::Reading::sequences), unfolding(crate::specs::Grammar::no_library))]
fn no_library<S: Source>(
    alloc: Global,
    cursor: &mut Cursor,
    source: &mut S,
) -> Result<OptionalIdent, ReadError>
    ensures reads { Reads edif same no_library result cursor.old cursor.new
        (S.supply source.old) (S.supply source.new) }
    ensures value { IfOk result (λ l. IfSome l IsWord) }
{
    cursor.finish_form(alloc, source)?;
    Ok(OptionalIdent::none())
}

#[tactic(auto, using(edif_keywords::proofs::Collected::item_lists), unfolding(crate::specs::Grammar::instance_rest))]
fn instance_rest<S: Source>(
    alloc: Global,
    cursor: &mut Cursor,
    source: &mut S,
) -> Result<Seq<InstanceItem>, ReadError>
    ensures reads { Reads edif same (instance_rest []) result cursor.old cursor.new
        (S.supply source.old) (S.supply source.new) }
    ensures value { IfOk result (λ is. AllByRecursion IsInstanceItem is) }
    ensures size { IfOk result
        (λ is. list_size instance_item_size is + room cursor.new < room cursor.old) }
{
    let mut items = Seq::empty(alloc);
    while cursor.at_form(alloc, source)? {
        let item = instance_item(alloc, cursor, source)?;
        cursor.add(&mut items, item)?;
    }
    cursor.finish_form(alloc, source)?;
    Ok(items)
}

/// An item of an instance, from its `(` on.
#[tactic(auto, using(readers::proofs::Reading::sequences))]
fn instance_item<S: Source>(
    alloc: Global,
    cursor: &mut Cursor,
    source: &mut S,
) -> Result<InstanceItem, ReadError>
    ensures reads { Reads edif same
        (item instance_keywords instance_item) result cursor.old cursor.new
        (S.supply source.old) (S.supply source.new) }
    ensures value { IfOk result IsInstanceItem }
    ensures size { IfOk result (λ i. instance_item_size i + room cursor.new < room cursor.old) }
{
    let allowed = [
        Keyword::Property,
        Keyword::Designator,
        Keyword::Comment,
        Keyword::UserData,
    ];
    let keyword = cursor.begin(alloc, &allowed, source)?;
    instance_form(alloc, cursor, keyword, source)
}

/// The rest of an item of an instance, by its keyword.
#[tactic(auto, using(crate::proofs::Parts::by_keyword))]
fn instance_form<S: Source>(
    alloc: Global,
    cursor: &mut Cursor,
    keyword: Keyword,
    source: &mut S,
) -> Result<InstanceItem, ReadError>
    ensures reads { Reads edif same (instance_item keyword) result cursor.old cursor.new
        (S.supply source.old) (S.supply source.new) }
    ensures value { IfOk result IsInstanceItem }
    ensures size { IfOk result (λ i. instance_item_size i + room cursor.new < room cursor.old) }
{
    if same_keyword(keyword, Keyword::Property) {
        let property = read_property(alloc, cursor, source)?;
        return Ok(InstanceItem::Property(property));
    }
    if same_keyword(keyword, Keyword::Designator) {
        let text = read_designator(alloc, cursor, source)?;
        return Ok(InstanceItem::Designator(text));
    }
    let note = read_note(alloc, cursor, keyword, source)?;
    Ok(InstanceItem::Note(note))
}
