// The ports of a module's header.
ghost use Rattle.std.specs.Prelude.{◌≡◌, ◌+◌, ◌<◌, ◌≤◌, ◌∷◌, [], length, IfOk, IsFalse};
ghost use Rattle.readers.specs.Readers.{same, room, Reads, ReadsMaybe};
ghost use Rattle.vlog_values.specs.Values.{AreSome, IsName, AreAttrs, IsPortDecl, IsHeader};
ghost use Rattle.vlog_values.specs.Sizes.{list_size, port_size, header_size};
ghost use Rattle.vlog_tokens.specs.Language.{vlog};
ghost use Rattle.vlog_exprs.specs.Grammar.{choice};
ghost use Rattle.vlog_modules.specs.States.{ArePorts, ports_size};
ghost use Rattle.vlog_modules.specs.Grammar.{dir_words, port_rest, port_decl, port_turn, port_decls, name_header, decl_header, some_header, header};

use nl_base::{BoxedList, Dir, InlineList, ReadError, Seq, Text};
use nl_io::Source;
use std::alloc::Global;
use vlog_exprs::{VCursor, read_attrs, read_range_if_any};
use vlog_items::{read_more_names, read_port_kind, read_signed};
use vlog_values::{Attr, Header, PortDecl};

/// Declarations, of which the last may get further names.
#[derive(Drop)]
pub(crate) struct PortDecls {
    pub(crate) before: Seq<PortDecl>,
    pub(crate) last: PortDecl,
}

/// Reads the direction of a port.
fn read_dir<S: Source>(
    alloc: Global,
    cursor: &mut VCursor,
    source: &mut S,
) -> Result<Dir, ReadError>
    ensures { Reads vlog same (choice dir_words) result cursor.old cursor.new
        (S.supply source.old) (S.supply source.new) }
{
    let dir = cursor.choose(
        alloc,
        &[
            (b"input", Dir::Input),
            (b"output", Dir::Output),
            (b"inout", Dir::Inout),
        ],
        source,
    )?;
    Ok(dir)
}

/// Reads a declaration up to its first name, behind its direction.
#[tactic(auto, using(readers::proofs::Reading::sequences), unfolding(crate::specs::Grammar::port_rest))]
fn read_port_rest<S: Source>(
    alloc: Global,
    cursor: &mut VCursor,
    attrs: BoxedList<Attr>,
    dir: Dir,
    source: &mut S,
) -> Result<PortDecl, ReadError>
    requires { AreAttrs attrs }
    ensures reads { Reads vlog same (port_rest attrs dir) result cursor.old cursor.new
        (S.supply source.old) (S.supply source.new) }
    ensures value { IfOk result IsPortDecl }
    ensures size { IfOk result
        (λ d. port_size d + room cursor.new ≤ room cursor.old + length attrs) }
{
    let kind = read_port_kind(alloc, cursor, source)?;
    let signed = read_signed(alloc, cursor, source)?;
    let range = read_range_if_any(alloc, cursor, source)?;
    let name = cursor.name(alloc, source)?;
    Ok(PortDecl {
        attrs,
        dir,
        kind,
        signed,
        range,
        names: InlineList::one(name),
    })
}

/// Reads a declaration up to its first name.
#[tactic(auto, using(readers::proofs::Reading::sequences), unfolding(crate::specs::Grammar::port_decl))]
fn read_port_decl<S: Source>(
    alloc: Global,
    cursor: &mut VCursor,
    source: &mut S,
) -> Result<PortDecl, ReadError>
    ensures reads { Reads vlog same port_decl result cursor.old cursor.new
        (S.supply source.old) (S.supply source.new) }
    ensures value { IfOk result IsPortDecl }
    ensures size { IfOk result (λ d. port_size d + room cursor.new < room cursor.old) }
{
    let attrs = read_attrs(alloc, cursor, source)?;
    let dir = read_dir(alloc, cursor, source)?;
    let decl = read_port_rest(alloc, cursor, attrs, dir, source)?;
    Ok(decl)
}

/// Reads on behind a comma: a name of the last declaration, or a new declaration.
#[tactic(auto, using(readers::proofs::Choices::choices), unfolding(crate::specs::Grammar::port_turn))]
fn read_port_turn<S: Source>(
    alloc: Global,
    cursor: &mut VCursor,
    decls: PortDecls,
    source: &mut S,
) -> Result<PortDecls, ReadError>
    requires { ArePorts decls }
    ensures reads { Reads vlog same (port_turn decls) result cursor.old cursor.new
        (S.supply source.old) (S.supply source.new) }
    ensures value { IfOk result ArePorts }
    ensures size { IfOk result
        (λ ds. ports_size ds + room cursor.new ≤ room cursor.old + ports_size decls) }
{
    let PortDecls {
        mut before,
        mut last,
    } = decls;
    match cursor.takes_name(alloc, source)? {
        Some(name) => {
            cursor.add_name(alloc, &mut last.names, name)?;
            Ok(PortDecls { before, last })
        }
        None => {
            let next = read_port_decl(alloc, cursor, source)?;
            cursor.add(&mut before, last)?;
            Ok(PortDecls { before, last: next })
        }
    }
}

/// Reads further names and declarations up to the `)`.
#[tactic(auto, using(readers::proofs::Choices::loops), unfolding(crate::specs::Grammar::port_decls))]
fn read_port_decls<S: Source>(
    alloc: Global,
    cursor: &mut VCursor,
    first: PortDecls,
    source: &mut S,
) -> Result<Seq<PortDecl>, ReadError>
    requires { ArePorts first }
    ensures reads { Reads vlog same (port_decls first) result cursor.old cursor.new
        (S.supply source.old) (S.supply source.new) }
    ensures value { IfOk result (AreSome IsPortDecl) }
    ensures size { IfOk result
        (λ ds. list_size port_size ds + room cursor.new < room cursor.old + ports_size first) }
{
    let mut decls = first;
    while cursor.takes(alloc, b',', source)? {
        decls = read_port_turn(alloc, cursor, decls, source)?;
    }
    cursor.mark(alloc, b')', source)?;
    let PortDecls { mut before, last } = decls;
    cursor.add(&mut before, last)?;
    Ok(before)
}

/// Reads a header of names, behind the first.
#[tactic(auto, using(readers::proofs::Reading::sequences), unfolding(crate::specs::Grammar::name_header))]
fn read_name_header<S: Source>(
    alloc: Global,
    cursor: &mut VCursor,
    first: Text,
    source: &mut S,
) -> Result<Header, ReadError>
    requires unspent { IsFalse cursor.old.spent }
    requires name { IsName first }
    ensures reads { Reads vlog same (name_header first) result cursor.old cursor.new
        (S.supply source.old) (S.supply source.new) }
    ensures value { IfOk result IsHeader }
    ensures size { IfOk result (λ header. header_size header + room cursor.new ≤ room cursor.old) }
{
    let names = read_more_names(alloc, cursor, InlineList::one(first), b')', source)?;
    Ok(Header::Names(names))
}

/// Reads a header of declarations.
#[tactic(auto, using(readers::proofs::Reading::sequences), unfolding(crate::specs::Grammar::decl_header))]
fn read_decl_header<S: Source>(
    alloc: Global,
    cursor: &mut VCursor,
    source: &mut S,
) -> Result<Header, ReadError>
    ensures reads { Reads vlog same decl_header result cursor.old cursor.new
        (S.supply source.old) (S.supply source.new) }
    ensures value { IfOk result IsHeader }
    ensures size { IfOk result (λ header. header_size header + room cursor.new ≤ room cursor.old) }
{
    let last = read_port_decl(alloc, cursor, source)?;
    let first = PortDecls {
        before: Seq::empty(alloc),
        last,
    };
    let decls = read_port_decls(alloc, cursor, first, source)?;
    Ok(Header::Decls(decls))
}

/// Reads a header that is not empty, behind its `(`.
#[tactic(auto, using(readers::proofs::Choices::choices), unfolding(crate::specs::Grammar::some_header))]
fn read_some_header<S: Source>(
    alloc: Global,
    cursor: &mut VCursor,
    source: &mut S,
) -> Result<Header, ReadError>
    ensures reads { Reads vlog same some_header result cursor.old cursor.new
        (S.supply source.old) (S.supply source.new) }
    ensures value { IfOk result IsHeader }
    ensures size { IfOk result (λ header. header_size header + room cursor.new ≤ room cursor.old) }
{
    match cursor.takes_name(alloc, source)? {
        Some(name) => {
            let header = read_name_header(alloc, cursor, name, source)?;
            Ok(header)
        }
        None => {
            let header = read_decl_header(alloc, cursor, source)?;
            Ok(header)
        }
    }
}

/// Reads the ports of a module's header, which may be left out.
#[tactic(auto, using(readers::proofs::Choices::choices), unfolding(crate::specs::Grammar::header, vlog_exprs::specs::Grammar::after))]
pub(crate) fn read_header<S: Source>(
    alloc: Global,
    cursor: &mut VCursor,
    source: &mut S,
) -> Result<Header, ReadError>
    ensures reads { ReadsMaybe vlog same header result cursor.old cursor.new
        (S.supply source.old) (S.supply source.new) }
    ensures value { IfOk result IsHeader }
    ensures size { IfOk result (λ header. header_size header + room cursor.new ≤ room cursor.old) }
{
    if !cursor.takes(alloc, b'(', source)? {
        return Ok(Header::Names(InlineList::empty()));
    }
    if cursor.takes(alloc, b')', source)? {
        return Ok(Header::Names(InlineList::empty()));
    }
    let header = read_some_header(alloc, cursor, source)?;
    Ok(header)
}
