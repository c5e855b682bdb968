ghost use Rattle.std.specs.Prelude.{◌+◌, ◌<◌, [], length, IfOk, IfSome};
ghost use Rattle.readers.specs.Readers.{same, Reads, room};
ghost use Rattle.edif_keywords.specs.Language.{edif};
ghost use Rattle.edif_keywords.specs.Grammar.{item};
ghost use Rattle.std.specs.List.{AllByRecursion};
ghost use Rattle.edif_values.specs.Values.{IsWord, IsInteger, IsPortRef, IsNetItem, IsNet};
ghost use Rattle.edif_values.specs.Sizes.{list_size, net_item_size, net_size};
ghost use Rattle.edif_nets.specs.Grammar.{member, whole_port, port_or_member, instance_named, no_instance, maybe_instance, port_ref, joined_keywords, joined_rest, joined, net_item, net_keywords, net_rest, net};

use edif_keywords::Cursor;
use edif_names::{read_name, read_property};
use edif_status::read_note;
use edif_values::{Keyword, Net, NetItem, PortRef, same_keyword};
use nl_base::{Ident, Int, OptionalIdent, OptionalInt, ReadError, Seq};
use nl_io::Source;
use std::alloc::Global;

/// Reads on after the keyword `net`: its name, what it joins, and its items.
#[tactic(auto, using(readers::proofs::Reading::sequences), unfolding(crate::specs::Grammar::net))]
pub fn read_net<S: Source>(
    alloc: Global,
    cursor: &mut Cursor,
    source: &mut S,
) -> Result<Net, ReadError>
    ensures reads { Reads edif same net result cursor.old cursor.new
        (S.supply source.old) (S.supply source.new) }
    ensures value { IfOk result IsNet }
    ensures size { IfOk result (λ n. net_size n + room cursor.new < room cursor.old) }
{
    let name = read_name(alloc, cursor, source)?;
    let joined = joined(alloc, cursor, source)?;
    let items = net_rest(alloc, cursor, source)?;
    Ok(Net {
        name,
        joined,
        items,
    })
}

/// A `joined`, from its `(` on.
#[tactic(auto, using(readers::proofs::Reading::sequences), unfolding(crate::specs::Grammar::joined))]
fn joined<S: Source>(
    alloc: Global,
    cursor: &mut Cursor,
    source: &mut S,
) -> Result<Seq<PortRef>, ReadError>
    ensures reads { Reads edif same joined result cursor.old cursor.new
        (S.supply source.old) (S.supply source.new) }
    ensures value { IfOk result (λ rs. AllByRecursion IsPortRef rs) }
    ensures size { IfOk result (λ rs. length rs + room cursor.new < room cursor.old) }
{
    cursor.begin(alloc, &[Keyword::Joined], source)?;
    joined_rest(alloc, cursor, source)
}

#[tactic(auto, using(edif_keywords::proofs::Collected::item_lists), unfolding(crate::specs::Grammar::joined_rest))]
fn joined_rest<S: Source>(
    alloc: Global,
    cursor: &mut Cursor,
    source: &mut S,
) -> Result<Seq<PortRef>, ReadError>
    ensures reads { Reads edif same (joined_rest []) result cursor.old cursor.new
        (S.supply source.old) (S.supply source.new) }
    ensures value { IfOk result (λ rs. AllByRecursion IsPortRef rs) }
    ensures size { IfOk result (λ rs. length rs + room cursor.new < room cursor.old) }
{
    let mut references = Seq::empty(alloc);
    while cursor.at_form(alloc, source)? {
        let reference = joined_item(alloc, cursor, source)?;
        cursor.add(&mut references, reference)?;
    }
    cursor.finish_form(alloc, source)?;
    Ok(references)
}

/// A `portRef`, from its `(` on.
#[tactic(auto, using(readers::proofs::Reading::sequences))]
fn joined_item<S: Source>(
    alloc: Global,
    cursor: &mut Cursor,
    source: &mut S,
) -> Result<PortRef, ReadError>
    ensures reads { Reads edif same
        (item joined_keywords (λ _. port_ref)) result cursor.old cursor.new
        (S.supply source.old) (S.supply source.new) }
    ensures value { IfOk result IsPortRef }
{
    cursor.begin(alloc, &[Keyword::PortRef], source)?;
    port_ref(alloc, cursor, source)
}

/// Reads on after the keyword `portRef`.
#[tactic(auto, using(readers::proofs::Reading::sequences), unfolding(crate::specs::Grammar::port_ref))]
fn port_ref<S: Source>(
    alloc: Global,
    cursor: &mut Cursor,
    source: &mut S,
) -> Result<PortRef, ReadError>
    ensures reads { Reads edif same port_ref result cursor.old cursor.new
        (S.supply source.old) (S.supply source.new) }
    ensures value { IfOk result IsPortRef }
{
    let (port, member) = port_or_member(alloc, cursor, source)?;
    let instance = maybe_instance(alloc, cursor, source)?;
    Ok(PortRef {
        port,
        member: OptionalInt::of(member),
        instance,
    })
}

/// A port, and the index of its member where one is named.
#[tactic(auto, using(crate::proofs::Parts::form_or_token), unfolding(crate::specs::Grammar::port_or_member))]
fn port_or_member<S: Source>(
    alloc: Global,
    cursor: &mut Cursor,
    source: &mut S,
) -> Result<(Ident, Option<Int>), ReadError>
    ensures reads { Reads edif same port_or_member result cursor.old cursor.new
        (S.supply source.old) (S.supply source.new) }
    ensures value { IfOk result (λ p. IsWord p.0 × IfSome p.1 IsInteger) }
{
    if cursor.at_form(alloc, source)? {
        cursor.begin(alloc, &[Keyword::Member], source)?;
        return member(alloc, cursor, source);
    }
    whole_port(alloc, cursor, source)
}

/// Reads on after the keyword `member`.
#[tactic(auto, using(readers::proofs::Reading::sequences), unfolding(crate::specs::Grammar::member))]
fn member<S: Source>(
    alloc: Global,
    cursor: &mut Cursor,
    source: &mut S,
) -> Result<(Ident, Option<Int>), ReadError>
    ensures reads { Reads edif same member result cursor.old cursor.new
        (S.supply source.old) (S.supply source.new) }
    ensures value { IfOk result (λ p. IsWord p.0 × IfSome p.1 IsInteger) }
{
    let port = cursor.word(alloc, source)?;
    let index = cursor.int(alloc, source)?;
    cursor.finish_form(alloc, source)?;
    Ok((port, Some(index)))
}

#[tactic(auto, using(readers::proofs::Reading::sequences), unfolding(crate::specs::Grammar::whole_port))]
fn whole_port<S: Source>(
    alloc: Global,
    cursor: &mut Cursor,
    source: &mut S,
) -> Result<(Ident, Option<Int>), ReadError>
    ensures reads { Reads edif same whole_port result cursor.old cursor.new
        (S.supply source.old) (S.supply source.new) }
    ensures value { IfOk result (λ p. IsWord p.0 × IfSome p.1 IsInteger) }
{
    let port = cursor.word(alloc, source)?;
    Ok((port, None))
}

/// The instance of a reference where one is named, with the `)` of the form around it.
#[tactic(auto, using(crate::proofs::Parts::form_or_token), unfolding(crate::specs::Grammar::maybe_instance))]
fn maybe_instance<S: Source>(
    alloc: Global,
    cursor: &mut Cursor,
    source: &mut S,
) -> Result<OptionalIdent, ReadError>
    ensures reads { Reads edif same maybe_instance result cursor.old cursor.new
        (S.supply source.old) (S.supply source.new) }
    ensures value { IfOk result (λ l. IfSome l IsWord) }
{
    if cursor.at_form(alloc, source)? {
        cursor.begin(alloc, &[Keyword::InstanceRef], source)?;
        return instance_named(alloc, cursor, source);
    }
    no_instance(alloc, cursor, source)
}

/// Reads on after the keyword `instanceRef`, with the `)` of the form around it.
#[tactic(auto, using(readers::proofs::Reading::sequences), unfolding(crate::specs::Grammar::instance_named))]
fn instance_named<S: Source>(
    alloc: Global,
    cursor: &mut Cursor,
    source: &mut S,
) -> Result<OptionalIdent, ReadError>
    ensures reads { Reads edif same instance_named result cursor.old cursor.new
        (S.supply source.old) (S.supply source.new) }
    ensures value { IfOk result (λ l. IfSome l IsWord) }
{
    let instance = cursor.word(alloc, source)?;
    cursor.finish_form(alloc, source)?;
    cursor.finish_form(alloc, source)?;
    Ok(OptionalIdent::some(instance))
}

#[tactic(auto, using(readers::proofs::Reading::sequences), unfolding(crate::specs::Grammar::no_instance))]
fn no_instance<S: Source>(
    alloc: Global,
    cursor: &mut Cursor,
    source: &mut S,
) -> Result<OptionalIdent, ReadError>
    ensures reads { Reads edif same no_instance result cursor.old cursor.new
        (S.supply source.old) (S.supply source.new) }
    ensures value { IfOk result (λ l. IfSome l IsWord) }
{
    cursor.finish_form(alloc, source)?;
    Ok(OptionalIdent::none())
}

#[tactic(auto, using(edif_keywords::proofs::Collected::item_lists), unfolding(crate::specs::Grammar::net_rest))]
fn net_rest<S: Source>(
    alloc: Global,
    cursor: &mut Cursor,
    source: &mut S,
) -> Result<Seq<NetItem>, ReadError>
    ensures reads { Reads edif same (net_rest []) result cursor.old cursor.new
        (S.supply source.old) (S.supply source.new) }
    ensures value { IfOk result (λ is. AllByRecursion IsNetItem is) }
    ensures size { IfOk result
        (λ is. list_size net_item_size is + room cursor.new < room cursor.old) }
{
    let mut items = Seq::empty(alloc);
    while cursor.at_form(alloc, source)? {
        let item = net_item(alloc, cursor, source)?;
        cursor.add(&mut items, item)?;
    }
    cursor.finish_form(alloc, source)?;
    Ok(items)
}

/// An item of a net, from its `(` on.
#[tactic(auto, using(readers::proofs::Reading::sequences))]
fn net_item<S: Source>(
    alloc: Global,
    cursor: &mut Cursor,
    source: &mut S,
) -> Result<NetItem, ReadError>
    ensures reads { Reads edif same (item net_keywords net_item) result cursor.old cursor.new
        (S.supply source.old) (S.supply source.new) }
    ensures value { IfOk result IsNetItem }
    ensures size { IfOk result (λ i. net_item_size i + room cursor.new < room cursor.old) }
{
    let allowed = [Keyword::Property, Keyword::Comment, Keyword::UserData];
    let keyword = cursor.begin(alloc, &allowed, source)?;
    net_form(alloc, cursor, keyword, source)
}

/// The rest of an item of a net, by its keyword.
#[tactic(auto, using(crate::proofs::Parts::by_keyword))]
fn net_form<S: Source>(
    alloc: Global,
    cursor: &mut Cursor,
    keyword: Keyword,
    source: &mut S,
) -> Result<NetItem, ReadError>
    ensures reads { Reads edif same (net_item keyword) result cursor.old cursor.new
        (S.supply source.old) (S.supply source.new) }
    ensures value { IfOk result IsNetItem }
    ensures size { IfOk result (λ i. net_item_size i + room cursor.new < room cursor.old) }
{
    if same_keyword(keyword, Keyword::Property) {
        let property = read_property(alloc, cursor, source)?;
        return Ok(NetItem::Property(property));
    }
    let note = read_note(alloc, cursor, keyword, source)?;
    Ok(NetItem::Note(note))
}
