ghost use Rattle.std.specs.Prelude.{◌≡◌, ◌+◌, ◌<◌, true, false, [], ◌&&◌, ◌||◌, IfOk};
ghost use Rattle.readers.specs.Readers.{same, Reads, room};
ghost use Rattle.edif_keywords.specs.Language.{edif};
ghost use Rattle.edif_keywords.specs.Grammar.{item};
ghost use Rattle.edif_keywords.specs.Reasons.{rows};
ghost use Rattle.edif_values.specs.Keywords.{same_keyword};
ghost use Rattle.edif_values.specs.Values.{IsString, IsPortItem, ArePortItems, IsPort};
ghost use Rattle.edif_values.specs.Sizes.{list_size, port_item_size, port_size};
ghost use Rattle.edif_nets.specs.Grammar.{designator, direction_words, direction, port_item, is_direction, port_keywords, port_rest, port};

use edif_keywords::Cursor;
use edif_names::{read_port_name, read_property};
use edif_status::read_note;
use edif_values::{Keyword, Port, PortItem, same_keyword};
use nl_base::{Dir, InlineList, ReadError, Text};
use nl_io::Source;
use std::alloc::Global;

/// Reads on after the keyword `port`: its name and its items.
#[tactic(auto, using(readers::proofs::Reading::sequences), unfolding(crate::specs::Grammar::port))]
pub fn read_port<S: Source>(
    alloc: Global,
    cursor: &mut Cursor,
    source: &mut S,
) -> Result<Port, ReadError>
    ensures reads { Reads edif same port result cursor.old cursor.new
        (S.supply source.old) (S.supply source.new) }
    ensures value { IfOk result IsPort }
    ensures size { IfOk result (λ p. port_size p + room cursor.new < room cursor.old) }
{
    let name = read_port_name(alloc, cursor, source)?;
    let items = port_rest(alloc, cursor, source)?;
    Ok(Port { name, items })
}

/// Reads on after the keyword `designator`.
#[tactic(auto, using(readers::proofs::Reading::sequences), unfolding(crate::specs::Grammar::designator))]
pub fn read_designator<S: Source>(
    alloc: Global,
    cursor: &mut Cursor,
    source: &mut S,
) -> Result<Text, ReadError>
    ensures reads { Reads edif same designator result cursor.old cursor.new
        (S.supply source.old) (S.supply source.new) }
    ensures value { IfOk result IsString }
{
    let text = cursor.string(alloc, source)?;
    cursor.finish_form(alloc, source)?;
    Ok(text)
}

#[tactic(auto, using(crate::proofs::Parts::port_loops), unfolding(crate::specs::Grammar::port_rest))]
fn port_rest<S: Source>(
    alloc: Global,
    cursor: &mut Cursor,
    source: &mut S,
) -> Result<InlineList<PortItem>, ReadError>
    ensures reads { Reads edif same (port_rest []) result cursor.old cursor.new
        (S.supply source.old) (S.supply source.new) }
    ensures value { IfOk result ArePortItems }
    ensures size { IfOk result
        (λ is. list_size port_item_size is + room cursor.new < room cursor.old) }
{
    let mut items = InlineList::empty();
    let mut directed = false;
    while cursor.at_form(alloc, source)? {
        let item = port_item(alloc, cursor, directed, source)?;
        directed = is_directed(directed, &item);
        cursor.add_inline(alloc, &mut items, item)?;
    }
    cursor.finish_form(alloc, source)?;
    Ok(items)
}

/// An item of a port that has a direction already or not, from its `(` on.
#[tactic(auto, using(readers::proofs::Reading::sequences))]
fn port_item<S: Source>(
    alloc: Global,
    cursor: &mut Cursor,
    directed: bool,
    source: &mut S,
) -> Result<PortItem, ReadError>
    ensures reads { Reads edif same
        (item (port_keywords directed) port_item) result cursor.old cursor.new
        (S.supply source.old) (S.supply source.new) }
    ensures value { IfOk result IsPortItem }
    ensures size { IfOk result (λ i. port_item_size i + room cursor.new < room cursor.old) }
    ensures one { IfOk result (λ i. (directed && is_direction i) ≡ false) }
{
    let keyword = cursor.begin(alloc, port_keywords(directed), source)?;
    port_form(alloc, cursor, keyword, source)
}

/// The rest of an item of a port, by its keyword.
#[tactic(auto, using(crate::proofs::Parts::by_keyword), unfolding(crate::specs::Grammar::is_direction))]
fn port_form<S: Source>(
    alloc: Global,
    cursor: &mut Cursor,
    keyword: Keyword,
    source: &mut S,
) -> Result<PortItem, ReadError>
    ensures reads { Reads edif same (port_item keyword) result cursor.old cursor.new
        (S.supply source.old) (S.supply source.new) }
    ensures value { IfOk result IsPortItem }
    ensures size { IfOk result (λ i. port_item_size i + room cursor.new < room cursor.old) }
    ensures kind { IfOk result (λ i. is_direction i ≡ same_keyword keyword Keyword.Direction) }
{
    if same_keyword(keyword, Keyword::Direction) {
        return direction_item(alloc, cursor, source);
    }
    if same_keyword(keyword, Keyword::Property) {
        let property = read_property(alloc, cursor, source)?;
        let property = cursor.boxed(alloc, property)?;
        return Ok(PortItem::Property(property));
    }
    if same_keyword(keyword, Keyword::Designator) {
        let text = read_designator(alloc, cursor, source)?;
        return Ok(PortItem::Designator(text));
    }
    let note = read_note(alloc, cursor, keyword, source)?;
    let note = cursor.boxed(alloc, note)?;
    Ok(PortItem::Note(note))
}

/// Reads on after the keyword `direction`.
#[tactic(auto, using(readers::proofs::Reading::sequences), unfolding(crate::specs::Grammar::direction, crate::specs::Grammar::is_direction))]
fn direction_item<S: Source>(
    alloc: Global,
    cursor: &mut Cursor,
    source: &mut S,
) -> Result<PortItem, ReadError>
    ensures reads { Reads edif same direction result cursor.old cursor.new
        (S.supply source.old) (S.supply source.new) }
    ensures value { IfOk result IsPortItem }
    ensures size { IfOk result (λ i. port_item_size i + room cursor.new < room cursor.old) }
    ensures kind { IfOk result (λ i. is_direction i ≡ true) }
{
    let direction = cursor.choose(alloc, direction_words(), source)?;
    cursor.finish_form(alloc, source)?;
    Ok(PortItem::Direction(direction))
}

/// The words of a direction.
fn direction_words() -> &'static [(&'static [u8], Dir)]
    ensures { rows result.now ≡ direction_words }
{
    &[
        (b"INPUT", Dir::Input),
        (b"OUTPUT", Dir::Output),
        (b"INOUT", Dir::Inout),
    ]
}

/// The keywords that may stand in a port that has a direction already or not.
#[tactic(auto, unfolding(crate::specs::Grammar::port_keywords))]
fn port_keywords(directed: bool) -> &'static [Keyword]
    ensures { result.now ≡ port_keywords directed }
{
    if directed {
        return &[
            Keyword::Property,
            Keyword::Designator,
            Keyword::Comment,
            Keyword::UserData,
        ];
    }
    &[
        Keyword::Direction,
        Keyword::Property,
        Keyword::Designator,
        Keyword::Comment,
        Keyword::UserData,
    ]
}

/// Whether there is a direction among some items and one more.
#[tactic(auto, unfolding(crate::specs::Grammar::is_direction))]
fn is_directed(directed: bool, item: &PortItem) -> bool
    ensures { result ≡ (directed || is_direction item.now) }
{
    directed || matches!(item, PortItem::Direction(_))
}
