// The connections of instances.
ghost use Rattle.std.specs.Prelude.{◌≡◌, ◌++◌, ◌+◌, ◌≤◌, flat_map, length, map, OnOk};
ghost use Rattle.net_hier.specs.Cells.{width_of};
ghost use Rattle.vlog_ties.specs.Ties.{all_tied, connection_by_name, connection_by_place, connection_to, connections_among, connections_from, instance_ties, instances_ties, pin_of};

use crate::tie::Tie;
use nl_base::{NoMemory, Range};
use vlog_design::signals::{SignalAt, Slot};
use vlog_design::table::Table;
use vlog_rules::passes::ModuleScope;
use vlog_values::{Conns, Expr, NamedConn, VInst};

/// How many bits a port has.
fn port_width(range: Option<Range>) -> u32
    ensures { result ≡ width_of range }
{
    match range {
        None => 1,
        Some(range) => range.bits() as u32,
    }
}

/// Adds the tie of a connection to what a name stands for, where that is a port.
fn push_pin<'a>(
    instance: &'a [u8],
    number: u32,
    port: &'a [u8],
    slot: Slot,
    value: &'a Expr,
    out: &mut Vec<Tie<'a>>,
) -> Result<(), NoMemory>
    ensures added { OnOk result (all_tied out.new.items
        ≡ all_tied out.old.items ++ map (pin_of instance.now number)
        (connection_to port.now slot value.now)) }
{
    match slot.place {
        SignalAt::AtPort(port_number) => {
            out.push(Tie::Pin {
                instance,
                number,
                port,
                port_number,
                width: port_width(slot.range),
                value,
            })?;
            Ok(())
        }
        SignalAt::AtNet(_) => Ok(()),
    }
}

/// Adds the tie of a connection by name. Connections are often written in the order of the ports: the place among them is tried first.
fn push_by_name<'a>(
    table: &Table,
    instance: &'a [u8],
    number: u32,
    place: usize,
    conn: &'a NamedConn,
    out: &mut Vec<Tie<'a>>,
) -> Result<(), NoMemory>
    ensures added { OnOk result (all_tied out.new.items
        ≡ all_tied out.old.items ++ map (pin_of instance.now number)
        (connection_by_name table.now conn.now.port conn.now.value)) }
{
    match &conn.value {
        None => Ok(()),
        Some(value) => match table.find_at(place, conn.port.bytes()) {
            None => Ok(()),
            Some(slot) => push_pin(instance, number, conn.port.bytes(), slot, value, out),
        },
    }
}

fn push_by_place<'a>(
    table: &Table<'a>,
    instance: &'a [u8],
    number: u32,
    place: usize,
    value: &'a Option<Expr>,
    out: &mut Vec<Tie<'a>>,
) -> Result<(), NoMemory>
    ensures added { OnOk result (all_tied out.new.items
        ≡ all_tied out.old.items ++ map (pin_of instance.now number)
        (connection_by_place table.now place value.now)) }
{
    match value {
        None => Ok(()),
        Some(value) => match table.entry(place) {
            None => Ok(()),
            Some(entry) => push_pin(instance, number, entry.0, entry.1, value, out),
        },
    }
}

fn push_named<'a>(
    table: &Table,
    instance: &'a [u8],
    number: u32,
    conns: &'a [NamedConn],
    out: &mut Vec<Tie<'a>>,
) -> Result<(), NoMemory>
    ensures added { OnOk result (all_tied out.new.items
        ≡ all_tied out.old.items ++ map (pin_of instance.now number)
        (flat_map (λ conn. connection_by_name table.now conn.port conn.value) conns.now)) }
{
    for place in 0..conns.len() {
        push_by_name(table, instance, number, place, &conns[place], out)?;
    }
    Ok(())
}

fn push_in_order<'a>(
    table: &Table<'a>,
    instance: &'a [u8],
    number: u32,
    values: &'a [Option<Expr>],
    out: &mut Vec<Tie<'a>>,
) -> Result<(), NoMemory>
    ensures added { OnOk result (all_tied out.new.items
        ≡ all_tied out.old.items ++ map (pin_of instance.now number)
        (connections_from table.now 0 values.now)) }
{
    for place in 0..values.len() {
        push_by_place(table, instance, number, place, &values[place], out)?;
    }
    Ok(())
}

#[tactic(auto, unfolding(crate::specs::Ties::connections_among))]
fn push_conns<'a>(
    table: &Table<'a>,
    instance: &'a [u8],
    number: u32,
    conns: &'a Conns,
    out: &mut Vec<Tie<'a>>,
) -> Result<(), NoMemory>
    ensures added { OnOk result (all_tied out.new.items
        ≡ all_tied out.old.items ++ map (pin_of instance.now number)
        (connections_among table.now conns.now)) }
{
    match conns {
        Conns::Named(conns) => push_named(table, instance, number, conns.items(), out),
        Conns::Order(values) => push_in_order(table, instance, number, values.items(), out),
    }
}

/// Adds what an instance ties, by its number and the scope of its module.
fn push_instance<'a>(
    below: &ModuleScope<'a>,
    number: u32,
    instance: &'a VInst,
    out: &mut Vec<Tie<'a>>,
) -> Result<(), NoMemory>
    ensures added { OnOk result (all_tied out.new.items
        ≡ all_tied out.old.items ++ instance_ties below.now.module.now number instance.now) }
{
    push_conns(
        &below.table,
        instance.name.bytes(),
        number,
        &instance.conns,
        out,
    )
}

/// Adds what instances tie, by the number of the first and the scope of their module.
pub fn push_instances<'a>(
    below: &ModuleScope<'a>,
    first: u32,
    insts: &'a [VInst],
    out: &mut Vec<Tie<'a>>,
) -> Result<(), NoMemory>
    requires few { first + length insts.now ≤ 268435456 }
    ensures added { OnOk result (all_tied out.new.items
        ≡ all_tied out.old.items ++ instances_ties below.now.module.now first insts.now) }
{
    let mut number = first;
    for instance in insts {
        push_instance(below, number, instance, out)?;
        number += 1;
    }
    Ok(())
}
