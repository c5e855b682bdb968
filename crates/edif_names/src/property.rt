ghost use Rattle.std.specs.Prelude.{[], ◌+◌, ◌<◌, IfOk};
ghost use Rattle.edif_values.specs.Sizes.{list_size, tail_size, property_size};
ghost use Rattle.edif_values.specs.Values.{IsPropTail, ArePropTails, IsProperty};
ghost use Rattle.readers.specs.Readers.{same, Reads, room};
ghost use Rattle.edif_keywords.specs.Language.{edif};
ghost use Rattle.edif_names.specs.Grammar.{owner, tail_form, tail_item, tails, property};

use crate::name::read_name;
use crate::value::read_value;
use edif_keywords::{Cursor, read_comment};
use edif_values::{Keyword, PropTail, Property, same_keyword};
use nl_base::{BoxedList, ReadError};
use nl_io::Source;
use std::alloc::Global;

/// Reads on after the keyword `property`: its name, its value, and its owners and comments.
#[tactic(auto, using(readers::proofs::Reading::sequences), unfolding(crate::specs::Grammar::property))]
pub fn read_property<S: Source>(
    alloc: Global,
    cursor: &mut Cursor,
    source: &mut S,
) -> Result<Property, ReadError>
    ensures reads { Reads edif same property result cursor.old cursor.new
        (S.supply source.old) (S.supply source.new) }
    ensures value { IfOk result IsProperty }
    ensures size { IfOk result (λ p. property_size p + room cursor.new < room cursor.old) }
{
    let name = read_name(alloc, cursor, source)?;
    let value = read_value(alloc, cursor, source)?;
    let tail = read_tails(alloc, cursor, source)?;
    Ok(Property { name, value, tail })
}

#[tactic(auto, using(edif_keywords::proofs::Collected::item_lists), unfolding(crate::specs::Grammar::tails, crate::specs::Grammar::tail_item))]
fn read_tails<S: Source>(
    alloc: Global,
    cursor: &mut Cursor,
    source: &mut S,
) -> Result<BoxedList<PropTail>, ReadError>
    ensures reads { Reads edif same (tails []) result cursor.old cursor.new
        (S.supply source.old) (S.supply source.new) }
    ensures value { IfOk result ArePropTails }
    ensures size { IfOk result (λ ts. list_size tail_size ts + room cursor.new < room cursor.old) }
{
    let mut tail = BoxedList::empty();
    while cursor.at_form(alloc, source)? {
        let item = tail_item(alloc, cursor, source)?;
        cursor.add_boxed(alloc, &mut tail, item)?;
    }
    cursor.finish_form(alloc, source)?;
    Ok(tail)
}

/// An owner or a comment, from its `(` on.
#[tactic(auto, using(readers::proofs::Reading::sequences), unfolding(crate::specs::Grammar::tail_item))]
fn tail_item<S: Source>(
    alloc: Global,
    cursor: &mut Cursor,
    source: &mut S,
) -> Result<PropTail, ReadError>
    ensures reads { Reads edif same tail_item result cursor.old cursor.new
        (S.supply source.old) (S.supply source.new) }
    ensures value { IfOk result IsPropTail }
    ensures size { IfOk result (λ t. tail_size t + room cursor.new < room cursor.old) }
{
    let keyword = cursor.begin(alloc, &[Keyword::Owner, Keyword::Comment], source)?;
    tail_form(alloc, cursor, keyword, source)
}

#[tactic(auto, using(crate::proofs::Parts::by_keyword))]
fn tail_form<S: Source>(
    alloc: Global,
    cursor: &mut Cursor,
    keyword: Keyword,
    source: &mut S,
) -> Result<PropTail, ReadError>
    ensures reads { Reads edif same (tail_form keyword) result cursor.old cursor.new
        (S.supply source.old) (S.supply source.new) }
    ensures value { IfOk result IsPropTail }
    ensures size { IfOk result (λ t. tail_size t + room cursor.new < room cursor.old) }
{
    if same_keyword(keyword, Keyword::Owner) {
        return owner(alloc, cursor, source);
    }
    let texts = read_comment(alloc, cursor, source)?;
    Ok(PropTail::Comment(texts))
}

/// Reads on after the keyword `owner`.
#[tactic(auto, using(readers::proofs::Reading::sequences), unfolding(crate::specs::Grammar::owner))]
fn owner<S: Source>(
    alloc: Global,
    cursor: &mut Cursor,
    source: &mut S,
) -> Result<PropTail, ReadError>
    ensures reads { Reads edif same owner result cursor.old cursor.new
        (S.supply source.old) (S.supply source.new) }
    ensures value { IfOk result IsPropTail }
    ensures size { IfOk result (λ t. tail_size t + room cursor.new < room cursor.old) }
{
    let text = cursor.string(alloc, source)?;
    cursor.finish_form(alloc, source)?;
    Ok(PropTail::Owner(text))
}
