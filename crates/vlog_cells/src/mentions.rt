// What the declarations of a module say of its ports.
ghost use Rattle.std.specs.Prelude.{◌≡◌, ◌++◌, ◌∷◌, [], List, ℕ, filter, flat_map, IfOk, OnOk};
ghost use Rattle.vlog_cells.specs.Ports.{port_said, said, said_by_net, said_by_port, said_in_header, said_in_item, said_in_module, said_in_names, said_of};
ghost use Rattle.vlog_cells.specs.Nets.{names_port};

use crate::groups::Groups;
use crate::nets::{declared_count, first_net, names_port};
use nl_base::{Dir, NoMemory, Text};
use std::alloc::Global;
use vlog_design::table::Table;
use vlog_values::{Attr, Header, ItemV, Module, NetDecl, PortDecl};

/// What one declaration says of a name: its direction, where it gives one, and its attributes.
#[derive(Clone, Copy)]
pub struct Mention<'a> {
    pub dir: Option<Dir>,
    pub attrs: &'a [Attr],
}

/// Adds what a declaration of these names says.
fn mention_names<'a>(
    alloc: Global,
    mention: Mention<'a>,
    names: &'a [Text],
    found: &mut Groups<'a, Mention<'a>>,
) -> Result<(), NoMemory>
    ensures added { OnOk result ((key : List ℕ)
        → said_of found.new key ≡ said_of found.old key
        ++ said_in_names (said mention.entry) names.now key) }
{
    for name in names {
        found.add(alloc, name.bytes(), mention)?;
    }
    Ok(())
}

/// Adds what a declaration of ports says.
fn mention_port<'a>(
    alloc: Global,
    decl: &'a PortDecl,
    found: &mut Groups<'a, Mention<'a>>,
) -> Result<(), NoMemory>
    ensures added { OnOk result ((key : List ℕ)
        → said_of found.new key ≡ said_of found.old key ++ said_by_port decl.now key) }
{
    let mention = Mention {
        dir: Some(decl.dir),
        attrs: decl.attrs.items(),
    };
    mention_names(alloc, mention, decl.names.items(), found)?;
    Ok(())
}

/// Adds what declarations of ports say.
fn mention_ports<'a>(
    alloc: Global,
    decls: &'a [PortDecl],
    found: &mut Groups<'a, Mention<'a>>,
) -> Result<(), NoMemory>
    ensures added { OnOk result ((key : List ℕ)
        → said_of found.new key ≡ said_of found.old key ++ flat_map (port_said key) decls.now) }
{
    for decl in decls {
        mention_port(alloc, decl, found)?;
    }
    Ok(())
}

/// Adds what a header says.
fn mention_header<'a>(
    alloc: Global,
    header: &'a Header,
    found: &mut Groups<'a, Mention<'a>>,
) -> Result<(), NoMemory>
    ensures added { OnOk result ((key : List ℕ)
        → said_of found.new key ≡ said_of found.old key ++ said_in_header key header.now) }
{
    match header {
        Header::Names(_) => Ok(()),
        Header::Decls(decls) => {
            mention_ports(alloc, decls.items(), found)?;
            Ok(())
        }
    }
}

/// Adds what a declaration says of this name, where it is that of a port.
fn mention_port_net<'a>(
    alloc: Global,
    table: &Table,
    place: usize,
    mention: Mention<'a>,
    name: &'a [u8],
    found: &mut Groups<'a, Mention<'a>>,
) -> Result<(), NoMemory>
    ensures added { OnOk result ((key : List ℕ)
        → said_of found.new key ≡ said_of found.old key
        ++ said_in_names (said mention.entry) (filter (names_port table.now) (name.now ∷ [])) key) }
{
    if !names_port(table, place, name) {
        return Ok(());
    }
    found.add(alloc, name, mention)?;
    Ok(())
}

/// Adds what a declaration of nets says of ports.
fn mention_net<'a>(
    alloc: Global,
    table: &Table,
    place: usize,
    decl: &'a NetDecl,
    found: &mut Groups<'a, Mention<'a>>,
) -> Result<(), NoMemory>
    ensures added { OnOk result ((key : List ℕ)
        → said_of found.new key ≡ said_of found.old key ++ said_by_net table.now decl.now key) }
{
    let mention = Mention {
        dir: None,
        attrs: decl.attrs.items(),
    };
    let mut at = place;
    for name in decl.names.items() {
        mention_port_net(alloc, table, at, mention, name.bytes(), found)?;
        at = at.saturating_add(1);
    }
    Ok(())
}

/// Adds what an item says of ports.
fn mention_item<'a>(
    alloc: Global,
    table: &Table,
    place: usize,
    item: &'a ItemV,
    found: &mut Groups<'a, Mention<'a>>,
) -> Result<(), NoMemory>
    ensures added { OnOk result ((key : List ℕ)
        → said_of found.new key ≡ said_of found.old key ++ said_in_item table.now key item.now) }
{
    match item {
        ItemV::Port(decl) => {
            mention_port(alloc, decl, found)?;
            Ok(())
        }
        ItemV::Net(decl) => {
            mention_net(alloc, table, place, decl, found)?;
            Ok(())
        }
        ItemV::Param(_) => Ok(()),
        ItemV::Assign(_) => Ok(()),
        ItemV::Instances(_) => Ok(()),
        ItemV::Defparam(_) => Ok(()),
    }
}

/// Adds what items say of ports.
fn mention_items<'a>(
    alloc: Global,
    table: &Table,
    items: &'a [ItemV],
    found: &mut Groups<'a, Mention<'a>>,
) -> Result<(), NoMemory>
    ensures added { OnOk result ((key : List ℕ)
        → said_of found.new key ≡ said_of found.old key
        ++ flat_map (said_in_item table.now key) items.now) }
{
    let mut place = first_net(table);
    for item in items {
        mention_item(alloc, table, place, item, found)?;
        place = place.saturating_add(declared_count(item));
    }
    Ok(())
}

/// What the declarations of a module say of each port of the table, in the order of the text.
pub fn mentions_in<'a>(
    alloc: Global,
    m: &'a Module,
    table: &Table,
) -> Result<Groups<'a, Mention<'a>>, NoMemory>
    ensures { IfOk result (λ found. (key : List ℕ)
        → said_of found key ≡ said_in_module table.now key m.now) }
{
    let mut found = Groups::empty(alloc);
    mention_header(alloc, &m.header, &mut found)?;
    mention_items(alloc, table, m.items.items(), &mut found)?;
    Ok(found)
}
