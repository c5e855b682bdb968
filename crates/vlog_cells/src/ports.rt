// The ports of a cell.
ghost use Rattle.std.specs.Prelude.{◌≡◌, ◌++◌, [], flat_map, map, IfOk, OnOk};
ghost use Rattle.vlog_design.specs.Design.{attr_props, module_ports};
ghost use Rattle.vlog_design.specs.Names.{header_names, signals};
ghost use Rattle.vlog_design.specs.Rules.{declared_twice};
ghost use Rattle.vlog_values.specs.declared.module.Module.{Module as ModuleValue};
ghost use Rattle.vlog_cells.specs.Parts.{declared_part};
ghost use Rattle.vlog_cells.specs.Ports.{attrs_said, dir_said, port_by, range_in, said};

use crate::groups::Groups;
use crate::mentions::{Mention, mentions_in};
use crate::properties::add_attrs;
use net_hier::{HPort, HProp};
use nl_base::{Dir, NoMemory, Range, Seq, Text};
use std::alloc::Global;
use vlog_design::table::Table;
use vlog_values::{Header, Module, PortDecl};

/// The first direction that is said, and `inout` where none is.
fn first_dir(mentions: &[Mention]) -> Dir
    ensures { result ≡ dir_said (map said mentions.now) }
{
    for mention in mentions {
        if let Some(dir) = mention.dir {
            return dir;
        }
    }
    Dir::Inout
}

/// The attributes that are said, as properties.
fn props_said(alloc: Global, mentions: &[Mention]) -> Result<Seq<HProp>, NoMemory>
    ensures { IfOk result (λ made. made ≡ attr_props (attrs_said (map said mentions.now))) }
{
    let mut made = Vec::new(alloc);
    let mut spelling = Vec::new(alloc);
    for mention in mentions {
        add_attrs(alloc, &mut made, mention.attrs, &mut spelling)?;
    }
    Ok(Seq::of(made))
}

/// The range of the port or net of this name.
fn range_in(table: &Table, name: &[u8]) -> Option<Range>
    ensures { result ≡ range_in table.now name.now }
{
    match table.find(name) {
        None => None,
        Some(slot) => slot.range,
    }
}

/// The port of this name.
#[tactic(auto, unfolding(crate::specs::Ports::said_of))]
fn port_of(
    alloc: Global,
    table: &Table,
    found: &Groups<'_, Mention>,
    name: &[u8],
) -> Result<HPort, NoMemory>
    ensures { IfOk result (λ made. made ≡ port_by table.now found.now name.now) }
{
    let mentions = found.of(name);
    let range = range_in(table, name);
    let dir = first_dir(mentions);
    let props = props_said(alloc, mentions)?;
    let name = Text::copy(alloc, name)?;
    Ok(HPort {
        name,
        range,
        dir,
        props,
    })
}

/// Adds the ports of these names.
fn add_ports(
    alloc: Global,
    table: &Table,
    found: &Groups<'_, Mention>,
    names: &[Text],
    made: &mut Seq<HPort>,
) -> Result<(), NoMemory>
    ensures added { OnOk result (made.new
        ≡ made.old ++ map (port_by table.now found.now) names.now) }
{
    for name in names {
        let port = port_of(alloc, table, found, name.bytes())?;
        made.push(port)?;
    }
    Ok(())
}

/// Adds the ports of the declarations of a header.
fn add_declared(
    alloc: Global,
    table: &Table,
    found: &Groups<'_, Mention>,
    decls: &[PortDecl],
    made: &mut Seq<HPort>,
) -> Result<(), NoMemory>
    ensures added { OnOk result (made.new
        ≡ made.old ++ map (port_by table.now found.now) (flat_map (λ decl. decl.names) decls.now)) }
{
    for decl in decls {
        add_ports(alloc, table, found, decl.names.items(), made)?;
    }
    Ok(())
}

/// Adds the ports of a header.
#[tactic(auto, unfolding(vlog_design::specs::Names::header_names))]
fn add_header(
    alloc: Global,
    table: &Table,
    found: &Groups<'_, Mention>,
    header: &Header,
    made: &mut Seq<HPort>,
) -> Result<(), NoMemory>
    ensures added { OnOk result (made.new
        ≡ made.old ++ map (port_by table.now found.now) (header_names header.now)) }
{
    match header {
        Header::Names(names) => {
            add_ports(alloc, table, found, names.items(), made)?;
            Ok(())
        }
        Header::Decls(decls) => {
            add_declared(alloc, table, found, decls.items(), made)?;
            Ok(())
        }
    }
}

/// The ports of a module, in which no name is declared twice, by what it declares and the table of its names.
pub(crate) fn ports_made(
    alloc: Global,
    declared: &Module,
    table: &Table,
) -> Result<Seq<HPort>, NoMemory>
    ensures { IfOk result (λ made. (m : ModuleValue) → declared.now ≡ declared_part m
        → table.now ≡ signals m → declared_twice m ≡ [] → made ≡ module_ports m) }
{
    let found = mentions_in(alloc, declared, table)?;
    let mut made = Seq::empty(alloc);
    add_header(alloc, table, &found, &declared.header, &mut made)?;
    Ok(made)
}
