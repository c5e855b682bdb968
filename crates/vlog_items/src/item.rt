// The items of a module.
ghost use Rattle.std.specs.Prelude.{◌≡◌, ◌+◌, ◌<◌, length, IfOk};
ghost use Rattle.grammar.specs.Part.{sequence};
ghost use Rattle.readers.specs.Readers.{same, room, Reads};
ghost use Rattle.vlog_values.specs.Values.{IsName, AreAttrs, IsItem};
ghost use Rattle.vlog_values.specs.Sizes.{item_size};
ghost use Rattle.vlog_tokens.specs.Language.{vlog};
ghost use Rattle.vlog_exprs.specs.Grammar.{choice, attrs};
ghost use Rattle.vlog_items.specs.Grammar.{item_words, word_item, instances_item, item};

use crate::assign::read_assigns;
use crate::declaration::{read_net_item, read_port_item};
use crate::defparam::read_defparams;
use crate::instance::read_instances;
use crate::parameter::read_param_item;
use nl_base::{BoxedList, Dir, ReadError, Text};
use nl_io::Source;
use std::alloc::Global;
use vlog_exprs::{VCursor, read_attrs};
use vlog_values::{Attr, ItemV, NetKind};

/// The first word of an item.
#[derive(Clone, Copy)]
pub enum ItemWord {
    Port(Dir),
    Net(NetKind),
    Param,
    Assign,
    Defparam,
}

/// Reads the first word of an item.
fn read_item_word<S: Source>(
    alloc: Global,
    cursor: &mut VCursor,
    source: &mut S,
) -> Result<ItemWord, ReadError>
    ensures { Reads vlog same (choice item_words) result cursor.old cursor.new
        (S.supply source.old) (S.supply source.new) }
{
    cursor.choose(
        alloc,
        &[
            (b"input", ItemWord::Port(Dir::Input)),
            (b"output", ItemWord::Port(Dir::Output)),
            (b"inout", ItemWord::Port(Dir::Inout)),
            (b"wire", ItemWord::Net(NetKind::Wire)),
            (b"tri", ItemWord::Net(NetKind::Tri)),
            (b"supply0", ItemWord::Net(NetKind::Supply0)),
            (b"supply1", ItemWord::Net(NetKind::Supply1)),
            (b"parameter", ItemWord::Param),
            (b"assign", ItemWord::Assign),
            (b"defparam", ItemWord::Defparam),
        ],
        source,
    )
}

/// Reads on behind the first word of an item.
#[inline(always)]
#[tactic(auto, using(readers::proofs::Reading::sequences), unfolding(crate::specs::Grammar::word_item))]
fn read_word_item<S: Source>(
    alloc: Global,
    cursor: &mut VCursor,
    attrs: BoxedList<Attr>,
    word: ItemWord,
    source: &mut S,
) -> Result<ItemV, ReadError>
    requires { AreAttrs attrs }
    ensures reads { Reads vlog same (word_item attrs word) result cursor.old cursor.new
        (S.supply source.old) (S.supply source.new) }
    ensures value { IfOk result IsItem }
    ensures size { IfOk result
        (λ item. item_size item + room cursor.new < room cursor.old + length attrs) }
{
    match word {
        ItemWord::Port(dir) => {
            let decl = read_port_item(alloc, cursor, attrs, dir, source)?;
            Ok(ItemV::Port(decl))
        }
        ItemWord::Net(kind) => {
            let decl = read_net_item(alloc, cursor, attrs, kind, source)?;
            Ok(ItemV::Net(decl))
        }
        ItemWord::Param => {
            let decl = read_param_item(alloc, cursor, attrs, source)?;
            Ok(ItemV::Param(decl))
        }
        ItemWord::Assign => {
            let assigns = read_assigns(alloc, cursor, attrs, source)?;
            Ok(ItemV::Assign(assigns))
        }
        ItemWord::Defparam => {
            let defparams = read_defparams(alloc, cursor, attrs, source)?;
            Ok(ItemV::Defparam(defparams))
        }
    }
}

/// Reads on behind the name of the module of instances.
#[tactic(auto, using(readers::proofs::Reading::sequences), unfolding(crate::specs::Grammar::instances_item))]
fn read_instances_item<S: Source>(
    alloc: Global,
    cursor: &mut VCursor,
    attrs: BoxedList<Attr>,
    of_module: Text,
    source: &mut S,
) -> Result<ItemV, ReadError>
    requires attrs { AreAttrs attrs }
    requires name { IsName of_module }
    ensures reads { Reads vlog same (instances_item attrs of_module) result cursor.old cursor.new
        (S.supply source.old) (S.supply source.new) }
    ensures value { IfOk result IsItem }
    ensures size { IfOk result
        (λ item. item_size item + room cursor.new < room cursor.old + length attrs) }
{
    let instances = read_instances(alloc, cursor, attrs, of_module, source)?;
    Ok(ItemV::Instances(instances))
}

/// Reads an item that has these attributes.
#[tactic(auto, using(readers::proofs::Choices::choices), unfolding(crate::specs::Grammar::item))]
fn read_item_of<S: Source>(
    alloc: Global,
    cursor: &mut VCursor,
    attrs: BoxedList<Attr>,
    source: &mut S,
) -> Result<ItemV, ReadError>
    requires { AreAttrs attrs }
    ensures reads { Reads vlog same (item attrs) result cursor.old cursor.new
        (S.supply source.old) (S.supply source.new) }
    ensures value { IfOk result IsItem }
    ensures size { IfOk result
        (λ item. item_size item + room cursor.new < room cursor.old + length attrs) }
{
    match cursor.takes_name(alloc, source)? {
        Some(of_module) => {
            let item = read_instances_item(alloc, cursor, attrs, of_module, source)?;
            Ok(item)
        }
        None => {
            let word = read_item_word(alloc, cursor, source)?;
            let item = read_word_item(alloc, cursor, attrs, word, source)?;
            Ok(item)
        }
    }
}

/// Reads the attributes of an item, and the item.
#[tactic(auto, using(readers::proofs::Reading::sequences))]
pub fn read_item<S: Source>(
    alloc: Global,
    cursor: &mut VCursor,
    source: &mut S,
) -> Result<ItemV, ReadError>
    ensures reads { Reads vlog same (sequence attrs item) result cursor.old cursor.new
        (S.supply source.old) (S.supply source.new) }
    ensures value { IfOk result IsItem }
    ensures size { IfOk result (λ item. item_size item + room cursor.new < room cursor.old) }
{
    let attributes = read_attrs(alloc, cursor, source)?;
    let item = read_item_of(alloc, cursor, attributes, source)?;
    Ok(item)
}
