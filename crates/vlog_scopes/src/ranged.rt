// The names that declarations of ports declare, with their ranges.
ghost use Rattle.std.specs.Prelude.{◌≡◌, ◌++◌, ◌∷◌, [], flat_map, IfOk, OnOk};
ghost use Rattle.vlog_design.specs.Names.{header_decls, port_decl, port_decls};
ghost use Rattle.vlog_scopes.specs.Ranged.{lent_names, range_named, ranged_names, ranged_ports};

use crate::lists::USUAL;
use nl_base::{NoMemory, Range};
use std::alloc::Global;
use vlog_design::names::NameSet;
use vlog_values::{Header, ItemV, Module, PortDecl};

/// A name with the range that is declared for it.
#[derive(Clone, Copy)]
pub struct Ranged<'a> {
    pub name: &'a [u8],
    pub range: Option<Range>,
}

fn push_one<'a>(
    name: &'a [u8],
    range: Option<Range>,
    out: &mut Vec<Ranged<'a>>,
) -> Result<(), NoMemory>
    ensures added { OnOk result (ranged_names out.new.items
        ≡ ranged_names out.old.items ++ record { name = name.now; range = range } ∷ []) }
{
    if let Ok(_) = out.push(Ranged { name, range }) {
        return Ok(());
    }
    Err(NoMemory)
}

fn push_ports<'a>(decl: &'a PortDecl, out: &mut Vec<Ranged<'a>>) -> Result<(), NoMemory>
    ensures added { OnOk result (ranged_names out.new.items
        ≡ ranged_names out.old.items ++ ranged_ports decl.now) }
{
    for name in decl.names.items() {
        push_one(name.bytes(), decl.range, out)?;
    }
    Ok(())
}

fn push_decls<'a>(decls: &'a [PortDecl], out: &mut Vec<Ranged<'a>>) -> Result<(), NoMemory>
    ensures added { OnOk result (ranged_names out.new.items
        ≡ ranged_names out.old.items ++ flat_map ranged_ports decls.now) }
{
    for decl in decls {
        push_ports(decl, out)?;
    }
    Ok(())
}

fn push_header<'a>(header: &'a Header, out: &mut Vec<Ranged<'a>>) -> Result<(), NoMemory>
    ensures added { OnOk result (ranged_names out.new.items
        ≡ ranged_names out.old.items ++ flat_map ranged_ports (header_decls header.now)) }
{
    match header {
        Header::Names(_) => Ok(()),
        Header::Decls(decls) => push_decls(decls.items(), out),
    }
}

fn push_item_ports<'a>(item: &'a ItemV, out: &mut Vec<Ranged<'a>>) -> Result<(), NoMemory>
    ensures added { OnOk result (ranged_names out.new.items
        ≡ ranged_names out.old.items ++ flat_map ranged_ports (port_decl item.now)) }
{
    match item {
        ItemV::Port(decl) => push_ports(decl, out),
        ItemV::Net(_) => Ok(()),
        ItemV::Param(_) => Ok(()),
        ItemV::Assign(_) => Ok(()),
        ItemV::Instances(_) => Ok(()),
        ItemV::Defparam(_) => Ok(()),
    }
}

fn push_items_ports<'a>(items: &'a [ItemV], out: &mut Vec<Ranged<'a>>) -> Result<(), NoMemory>
    ensures added { OnOk result (ranged_names out.new.items
        ≡ ranged_names out.old.items ++ flat_map ranged_ports (flat_map port_decl items.now)) }
{
    for item in items {
        push_item_ports(item, out)?;
    }
    Ok(())
}

/// The names to which declarations give a direction, with their ranges, in the order of the text.
pub fn directions_in<'a>(alloc: Global, m: &'a Module) -> Result<Vec<Ranged<'a>>, NoMemory>
    ensures { IfOk result (λ found. ranged_names found.items
        ≡ flat_map ranged_ports (port_decls m.now)) }
{
    let mut found = Vec::with_capacity(alloc, USUAL)?;
    push_header(&m.header, &mut found)?;
    push_items_ports(m.items.items(), &mut found)?;
    Ok(found)
}

/// The range of the first that has the name, by the set of their names.
pub fn range_in(names: &NameSet, ranged: &[Ranged], name: &[u8]) -> Option<Range>
    requires { names.now ≡ lent_names ranged.now }
    ensures { result ≡ range_named (ranged_names ranged.now) name.now }
{
    match names.place(name) {
        None => None,
        Some(place) => ranged[place].range,
    }
}
