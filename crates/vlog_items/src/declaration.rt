// Declarations of ports and nets.
ghost use Rattle.std.specs.Prelude.{◌≡◌, ◌+◌, ◌<◌, length, IfOk};
ghost use Rattle.readers.specs.Readers.{same, room, Reads, ReadsMaybe, TakesNext};
ghost use Rattle.vlog_values.specs.Values.{AreSome, IsName, AreAttrs, IsPortDecl, IsNetDecl};
ghost use Rattle.vlog_values.specs.Sizes.{port_size, net_size};
ghost use Rattle.vlog_tokens.specs.Language.{vlog};
ghost use Rattle.vlog_exprs.specs.Reasons as say;
ghost use Rattle.vlog_exprs.specs.Grammar.{name, mark, commas, list};
ghost use Rattle.vlog_items.specs.Grammar.{signed, port_kind, port_item, net_item};

use nl_base::{BoxedList, Dir, InlineList, ReadError, Text};
use nl_io::Source;
use std::alloc::Global;
use vlog_exprs::{VCursor, read_range_if_any};
use vlog_values::{Attr, NetDecl, NetKind, PortDecl, PortKind};

/// Reads further names, each behind a comma, and the mark behind them, and adds the names to others.
#[inline(always)]
#[tactic(auto, using(readers::proofs::Choices::loops), unfolding(vlog_exprs::specs::Grammar::commas))]
pub fn read_more_names<S: Source>(
    alloc: Global,
    cursor: &mut VCursor,
    mut names: InlineList<Text>,
    close: u8,
    source: &mut S,
) -> Result<InlineList<Text>, ReadError>
    ensures reads { Reads vlog same (commas name (mark close) names) result cursor.old cursor.new
        (S.supply source.old) (S.supply source.new) }
    ensures value { AreSome IsName names → IfOk result (AreSome IsName) }
    ensures size { IfOk result
        (λ all. length all + room cursor.new < room cursor.old + length names) }
{
    while cursor.takes(alloc, b',', source)? {
        let name = cursor.name(alloc, source)?;
        cursor.add_name(alloc, &mut names, name)?;
    }
    cursor.mark(alloc, close, source)?;
    Ok(names)
}

/// Reads one name or more up to the `;`.
#[inline(always)]
#[tactic(auto, using(readers::proofs::Reading::sequences), unfolding(vlog_exprs::specs::Grammar::list))]
fn read_names<S: Source>(
    alloc: Global,
    cursor: &mut VCursor,
    source: &mut S,
) -> Result<InlineList<Text>, ReadError>
    ensures reads { Reads vlog same (list name (mark 59)) result cursor.old cursor.new
        (S.supply source.old) (S.supply source.new) }
    ensures value { IfOk result (AreSome IsName) }
    ensures size { IfOk result (λ names. length names + room cursor.new < room cursor.old) }
{
    let first = cursor.name(alloc, source)?;
    let names = read_more_names(alloc, cursor, InlineList::one(first), b';', source)?;
    Ok(names)
}

/// Reads the word `signed`, where it stands, and answers whether it does.
#[inline(always)]
#[tactic(auto, using(readers::proofs::Reading::sequences), unfolding(crate::specs::Grammar::signed))]
pub fn read_signed<S: Source>(
    alloc: Global,
    cursor: &mut VCursor,
    source: &mut S,
) -> Result<bool, ReadError>
    ensures { ReadsMaybe vlog same signed result cursor.old cursor.new
        (S.supply source.old) (S.supply source.new) }
{
    let word = cursor.takes_choice(alloc, &[(b"signed", true)], source)?;
    Ok(word.is_some())
}

/// Reads the net kind of a port, where one stands.
#[tactic(auto, using(readers::proofs::Reading::sequences), unfolding(crate::specs::Grammar::port_kind))]
pub fn read_port_kind<S: Source>(
    alloc: Global,
    cursor: &mut VCursor,
    source: &mut S,
) -> Result<Option<PortKind>, ReadError>
    ensures { ReadsMaybe vlog same port_kind result cursor.old cursor.new
        (S.supply source.old) (S.supply source.new) }
{
    let kind = cursor.takes_choice(
        alloc,
        &[(b"wire", PortKind::Wire), (b"tri", PortKind::Tri)],
        source,
    )?;
    Ok(kind)
}

/// Reads on behind the direction of a declaration of ports.
#[tactic(auto, using(readers::proofs::Reading::sequences), unfolding(crate::specs::Grammar::port_item))]
pub(crate) fn read_port_item<S: Source>(
    alloc: Global,
    cursor: &mut VCursor,
    attrs: BoxedList<Attr>,
    dir: Dir,
    source: &mut S,
) -> Result<PortDecl, ReadError>
    requires { AreAttrs attrs }
    ensures reads { Reads vlog same (port_item attrs dir) result cursor.old cursor.new
        (S.supply source.old) (S.supply source.new) }
    ensures value { IfOk result IsPortDecl }
    ensures size { IfOk result
        (λ d. port_size d + room cursor.new < room cursor.old + length attrs) }
{
    let kind = read_port_kind(alloc, cursor, source)?;
    let signed = read_signed(alloc, cursor, source)?;
    let range = read_range_if_any(alloc, cursor, source)?;
    let names = read_names(alloc, cursor, source)?;
    Ok(PortDecl {
        attrs,
        dir,
        kind,
        signed,
        range,
        names,
    })
}

/// Reads on behind the kind of a declaration of nets.
#[tactic(auto, using(readers::proofs::Reading::sequences), unfolding(crate::specs::Grammar::net_item))]
pub(crate) fn read_net_item<S: Source>(
    alloc: Global,
    cursor: &mut VCursor,
    attrs: BoxedList<Attr>,
    kind: NetKind,
    source: &mut S,
) -> Result<NetDecl, ReadError>
    requires { AreAttrs attrs }
    ensures reads { Reads vlog same (net_item attrs kind) result cursor.old cursor.new
        (S.supply source.old) (S.supply source.new) }
    ensures value { IfOk result IsNetDecl }
    ensures size { IfOk result
        (λ d. net_size d + room cursor.new < room cursor.old + length attrs) }
{
    let signed = read_signed(alloc, cursor, source)?;
    let range = read_range_if_any(alloc, cursor, source)?;
    let names = read_names(alloc, cursor, source)?;
    Ok(NetDecl {
        attrs,
        kind,
        signed,
        range,
        names,
    })
}
