// Modules.
ghost use Rattle.std.specs.Prelude.{◌≡◌, ◌+◌, ◌<◌, [], length, is_some, IfOk};
ghost use Rattle.std.specs.List.{AllByRecursion, list_any};
ghost use Rattle.grammar.specs.Part.{sequence};
ghost use Rattle.nl_base.specs.Case.{same_bytes};
ghost use Rattle.readers.specs.Readers.{same, room, Reads, LooksFor};
ghost use Rattle.vlog_values.specs.Values.{AreAttrs, IsItem, IsModule};
ghost use Rattle.vlog_values.specs.Sizes.{list_size, item_size, module_size};
ghost use Rattle.vlog_tokens.specs.Language.{vlog};
ghost use Rattle.vlog_exprs.specs.Reasons.{meant_by};
ghost use Rattle.vlog_items.specs.Grammar.{item_words};
ghost use Rattle.vlog_modules.specs.Starts.{begins_item, begins_by};
ghost use Rattle.vlog_modules.specs.Beginnings.{heading_rest, heading_of, with_items};
ghost use Rattle.vlog_modules.specs.Grammar.{items};

use crate::header::read_header;
use crate::parameter::read_params;
use nl_base::{BoxedList, ReadError, Seq};
use nl_io::Source;
use std::alloc::Global;
use vlog_exprs::{VCursor, fitted};
use vlog_items::read_item;
use vlog_tokens::{Plain, VFound, VToken, is_keyword};
use vlog_values::{Attr, ItemV, Module};

/// Whether a word is one of some.
fn is_one_of(word: &[u8], words: &[&[u8]]) -> bool
    ensures { result ≡ list_any (λ q. same_bytes word.now q.now) words.now }
{
    for spelling in words {
        if word == *spelling {
            return true;
        }
    }
    false
}

/// Whether a keyword begins an item.
fn is_item_word(word: &[u8]) -> bool
    ensures { result ≡ is_some (meant_by item_words word.now) }
{
    is_one_of(
        word,
        &[
            b"input",
            b"output",
            b"inout",
            b"wire",
            b"tri",
            b"supply0",
            b"supply1",
            b"parameter",
            b"assign",
            b"defparam",
        ],
    )
}

/// Whether attributes or an item begin with a token.
#[tactic(auto, unfolding(crate::specs::Starts::begins_item))]
fn begins_item(found: &VFound) -> bool
    ensures { result ≡ begins_item found.now }
{
    match &found.token {
        VToken::AttrStart | VToken::Name(_) => true,
        VToken::Keyword(word) => is_item_word(word.bytes()),
        _ => false,
    }
}

/// Whether an item begins with a simple name or a keyword.
fn begins_by(word: &[u8]) -> bool
    ensures { result ≡ begins_by word.now }
{
    if is_keyword(word) {
        return is_item_word(word);
    }
    true
}

/// Looks whether attributes or an item are next in a module. It takes nothing.
///
/// # Errors
/// As `read_item`, where the next token is no token of Verilog or is not to be had.
pub fn at_item<S: Source>(
    alloc: Global,
    cursor: &mut VCursor,
    source: &mut S,
) -> Result<bool, ReadError>
    ensures { LooksFor vlog begins_item result cursor.old cursor.new
        (S.supply source.old) (S.supply source.new) }
{
    let held = cursor.held_word();
    let count = held.len();
    if count > 0 {
        return Ok(begins_by(held));
    }
    if let Some(plain) = cursor.held_plain() {
        if let Plain::AttrStart = plain {
            return Ok(true);
        }
    }
    at_item_token(alloc, cursor, source)
}

/// Looks at any token, and whether attributes or an item begin with it.
#[inline(never)]
#[tactic(auto, using(readers::proofs::Looking::looks_for))]
fn at_item_token<S: Source>(
    alloc: Global,
    cursor: &mut VCursor,
    source: &mut S,
) -> Result<bool, ReadError>
    ensures { LooksFor vlog begins_item result cursor.old cursor.new
        (S.supply source.old) (S.supply source.new) }
{
    cursor.look(alloc, source)?;
    if let Some(found) = cursor.ahead() {
        return Ok(begins_item(found));
    }
    Ok(false)
}

/// Reads the items of a module up to `endmodule`.
#[tactic(auto, using(crate::proofs::Items::item_loops))]
pub(crate) fn read_items<S: Source>(
    alloc: Global,
    cursor: &mut VCursor,
    source: &mut S,
) -> Result<Seq<ItemV>, ReadError>
    ensures reads { Reads vlog same (items []) result cursor.old cursor.new
        (S.supply source.old) (S.supply source.new) }
    ensures value { IfOk result (AllByRecursion IsItem) }
    ensures size { IfOk result
        (λ items. list_size item_size items + room cursor.new < room cursor.old) }
{
    let mut items = Seq::empty(alloc);
    while at_item(alloc, cursor, source)? {
        let item = read_item(alloc, cursor, source)?;
        cursor.add(&mut items, item)?;
    }
    cursor.keyword(alloc, b"endmodule", source)?;
    Ok(items)
}

/// The module with these items, in a list without spare room.
pub(crate) fn with_items(heading: Module, items: Seq<ItemV>) -> Module
    ensures { result ≡ with_items heading items }
{
    let mut module = heading;
    module.items = fitted(items);
    module
}

/// Reads a module up to its items, behind `module`.
#[tactic(auto, using(readers::proofs::Reading::sequences), unfolding(crate::specs::Beginnings::heading_rest))]
fn read_heading_rest<S: Source>(
    alloc: Global,
    cursor: &mut VCursor,
    implicit: bool,
    attrs: BoxedList<Attr>,
    source: &mut S,
) -> Result<Module, ReadError>
    requires { AreAttrs attrs }
    ensures reads { Reads vlog same (heading_rest implicit attrs) result cursor.old cursor.new
        (S.supply source.old) (S.supply source.new) }
    ensures value { IfOk result IsModule }
    ensures size { IfOk result
        (λ m. module_size m + room cursor.new < room cursor.old + length attrs) }
{
    let name = cursor.name(alloc, source)?;
    let params = read_params(alloc, cursor, source)?;
    let header = read_header(alloc, cursor, source)?;
    cursor.mark(alloc, b';', source)?;
    Ok(Module {
        attrs,
        name,
        implicit,
        params,
        header,
        items: Seq::empty(alloc),
    })
}

/// Reads a module up to its items, behind its attributes.
#[tactic(auto, using(readers::proofs::Reading::sequences), unfolding(crate::specs::Beginnings::heading_of))]
pub(crate) fn read_heading<S: Source>(
    alloc: Global,
    cursor: &mut VCursor,
    implicit: bool,
    attrs: BoxedList<Attr>,
    source: &mut S,
) -> Result<Module, ReadError>
    requires { AreAttrs attrs }
    ensures reads { Reads vlog same (heading_of implicit attrs) result cursor.old cursor.new
        (S.supply source.old) (S.supply source.new) }
    ensures value { IfOk result IsModule }
    ensures size { IfOk result
        (λ m. module_size m + 1 + room cursor.new < room cursor.old + length attrs) }
{
    cursor.keyword(alloc, b"module", source)?;
    let heading = read_heading_rest(alloc, cursor, implicit, attrs, source)?;
    Ok(heading)
}
