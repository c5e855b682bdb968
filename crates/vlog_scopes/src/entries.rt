// The names of a module in the order of its table: the ports, the declared nets that are no ports, and the nets without a declaration.
ghost use Rattle.std.specs.Prelude.{◌≡◌, ◌≤◌, ◌+◌, ◌*◌, ◌++◌, [], true, length, flat_map, IfOk, OnOk, None, ◌^◌};
ghost use Rattle.vlog_design.specs.Names.{implicit_names, port_names, port_signals, signals};
ghost use Rattle.net_hier.specs.Cells.{width_of};
ghost use Rattle.vlog_design.specs.Rules.{declared_twice};
ghost use Rattle.vlog_design.specs.Tables.{names_of};
ghost use Rattle.vlog_scopes.specs.Distinct.{Distinct, signal_names};
ghost use Rattle.vlog_scopes.specs.Filled.{item_nets, items_added, net_added, nets_added};
ghost use Rattle.vlog_scopes.specs.Signals.{declared_nets, declared_signals};
ghost use Rattle.vlog_scopes.specs.Ranged.{lent_names, net_slots, number_behind, of_range, port_slots, ranged_names, ranged_nets};
ghost use Rattle.vlog_values.specs.Sizes.{module_size};

use crate::implicit::implicit_in;
use crate::known::shows_none;
use crate::lists::{ports_in, ranged_set};
use crate::new_table::NewTable;
use crate::ranged::{Ranged, directions_in, range_in};
use nl_base::{NoMemory, Range};
use std::alloc::Global;
use vlog_design::names::NameSet;
use vlog_design::signals::{SignalAt, Slot};
use vlog_values::{ItemV, Module, NetDecl};

fn add_listed<'a>(
    listed: &[&'a [u8]],
    names: &NameSet,
    directions: &[Ranged],
    out: &mut NewTable<'a>,
) -> Result<(), NoMemory>
    requires few { length listed.now ≤ 2 ^ 32 }
    requires are_named { names.now ≡ lent_names directions.now }
    requires differ { Distinct (signal_names out.old ++ names_of listed.now) }
    ensures added { OnOk result (out.new
        ≡ out.old ++ port_slots (ranged_names directions.now) 0 (names_of listed.now)) }
{
    for number in 0..listed.len() {
        let name = listed[number];
        let range = range_in(names, directions, name);
        out.add(
            name,
            Slot {
                range,
                place: SignalAt::AtPort(number as u32),
            },
        )?;
    }
    Ok(())
}

/// Adds the ports of the module, in the order of the header, to a table without names.
fn add_ports<'a>(alloc: Global, m: &'a Module, out: &mut NewTable<'a>) -> Result<(), NoMemory>
    requires once { declared_twice m.now ≡ [] }
    requires small { module_size m.now ≤ 268435456 }
    requires first { out.old ≡ [] }
    ensures added { OnOk result (out.new ≡ port_signals m.now 0 (port_names m.now)) }
{
    let listed = ports_in(alloc, m)?;
    let directions = directions_in(alloc, m)?;
    let names = ranged_set(alloc, &directions)?;
    add_listed(&listed, &names, &directions, out)?;
    Ok(())
}

/// How many bits there are, which are fewer than 2^32.
fn bits_of(range: Option<Range>) -> u64
    ensures width { result ≡ width_of range }
    ensures bound { result ≤ 2 ^ 32 }
{
    match range {
        None => 1,
        Some(range) => range.bits(),
    }
}

/// Adds a net of the declaration, of which the first bit has this number, and answers the number behind its last bit. A name that is
/// there is that of a port, and is left.
fn add_net<'a>(
    decl: &NetDecl,
    name: &'a [u8],
    first: u64,
    out: &mut NewTable<'a>,
) -> Result<u64, NoMemory>
    requires { first ≤ 2 ^ 61 }
    ensures added { IfOk result (λ next. (out.new, next)
        ≡ net_added (out.old, first) (record { name = name.now; range = decl.now.range })) }
    ensures bound { IfOk result (λ next. next ≤ first + 4294967296) }
{
    let place = SignalAt::AtNet(first);
    let new = out.add(
        name,
        Slot {
            range: decl.range,
            place,
        },
    )?;
    if new {
        return Ok(first + bits_of(decl.range));
    }
    Ok(first)
}

/// Adds the nets of a declaration that are no ports, and answers the number behind their last bit.
fn add_nets<'a>(decl: &'a NetDecl, first: u64, out: &mut NewTable<'a>) -> Result<u64, NoMemory>
    requires { first + length decl.now.names * 4294967296 ≤ 2 ^ 60 }
    ensures added { IfOk result
        (λ next. (out.new, next) ≡ nets_added (out.old, first) (ranged_nets decl.now)) }
    ensures bound { IfOk result (λ next. next ≤ first + length decl.now.names * 4294967296) }
{
    let mut next = first;
    for name in decl.names.items() {
        next = add_net(decl, name.bytes(), next, out)?;
    }
    Ok(next)
}

/// Adds the nets that an item declares and that are no ports, and answers the number behind their last bit.
fn add_item_nets<'a>(item: &'a ItemV, first: u64, out: &mut NewTable<'a>) -> Result<u64, NoMemory>
    requires { first + length (item_nets item.now) * 4294967296 ≤ 2 ^ 60 }
    ensures added { IfOk result
        (λ next. (out.new, next) ≡ nets_added (out.old, first) (item_nets item.now)) }
    ensures bound { IfOk result
        (λ next. next ≤ first + length (item_nets item.now) * 4294967296) }
{
    match item {
        ItemV::Net(decl) => add_nets(decl, first, out),
        ItemV::Port(_) => Ok(first),
        ItemV::Param(_) => Ok(first),
        ItemV::Assign(_) => Ok(first),
        ItemV::Instances(_) => Ok(first),
        ItemV::Defparam(_) => Ok(first),
    }
}

/// Adds the nets that items declare and that are no ports, and answers the number behind their last bit.
fn add_items_nets<'a>(items: &'a [ItemV], out: &mut NewTable<'a>) -> Result<u64, NoMemory>
    requires { length (flat_map item_nets items.now) ≤ 268435456 }
    ensures added { IfOk result
        (λ next. (out.new, next) ≡ items_added (out.old, 0) items.now) }
    ensures bound { IfOk result (λ next. next ≤ 2 ^ 60) }
{
    let mut next: u64 = 0;
    for item in items {
        next = add_item_nets(item, next, out)?;
    }
    Ok(next)
}

/// Adds the ports and the declared nets of the module, in their order, to a table without names, and answers the number behind the last
/// bit of the nets. The nets go from the items to the table, and no list of them is made.
pub(crate) fn add_declared<'a>(
    alloc: Global,
    m: &'a Module,
    out: &mut NewTable<'a>,
) -> Result<u64, NoMemory>
    requires once { declared_twice m.now ≡ [] }
    requires small { module_size m.now ≤ 268435456 }
    requires first { out.old ≡ [] }
    ensures added { OnOk result (out.new ≡ declared_signals m.now) }
    ensures behind { IfOk result (λ next. next ≡ number_behind 0 (declared_nets m.now)) }
    ensures bound { IfOk result (λ next. next ≤ 2 ^ 60) }
{
    add_ports(alloc, m, out)?;
    let next = add_items_nets(m.items.items(), out)?;
    Ok(next)
}

/// Adds nets of one bit, of which the first has this number.
pub(crate) fn add_single<'a>(
    names: &[&'a [u8]],
    first: u64,
    out: &mut NewTable<'a>,
) -> Result<(), NoMemory>
    requires small { first ≤ 2 ^ 60 }
    requires differ { Distinct (signal_names out.old ++ names_of names.now) }
    ensures added { OnOk result (out.new
        ≡ out.old ++ net_slots first (of_range None (names_of names.now))) }
{
    for number in 0..names.len() {
        out.add(
            names[number],
            Slot {
                range: None,
                place: SignalAt::AtNet(first + number as u64),
            },
        )?;
    }
    Ok(())
}

/// Adds the nets of the module that no declaration declares, of which the first has this number, to the table of the ports and the
/// declared nets. Mostly that table shows that there are none, which is the answer then.
pub(crate) fn add_implicit<'a>(
    alloc: Global,
    m: &'a Module,
    first: u64,
    out: &mut NewTable<'a>,
) -> Result<bool, NoMemory>
    requires once { declared_twice m.now ≡ [] }
    requires declared { out.old ≡ declared_signals m.now }
    requires behind { first ≡ number_behind 0 (declared_nets m.now) }
    requires small { first ≤ 2 ^ 60 }
    ensures added { OnOk result (out.new ≡ signals m.now) }
    ensures none { IfOk result (λ none. none ≡ true → implicit_names m.now ≡ []) }
{
    let shown = shows_none(alloc, m, out)?;
    if shown {
        return Ok(true);
    }
    let names = implicit_in(alloc, m)?;
    out.expect(names.len());
    add_single(&names, first, out)?;
    Ok(false)
}
