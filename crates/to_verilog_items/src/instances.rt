// The instances of a module.
ghost use Rattle.std.specs.Prelude.{◌≡◌, ◌++◌, ◌<◌, ◌≤◌, ◌^◌, length, map, IfOk, OnOk};
ghost use Rattle.net_hier.specs.Valid.{Each, count_limit};
ghost use Rattle.vlog_written.specs.Written.{instance_item, plain_conns, statement_of};
ghost use Rattle.to_verilog_items.specs.Instances.{below_ports, conns_of, instance_of, instances_of};

use crate::connections::conns_of;
use net_bits::Names;
use net_hier::{HCell, HInst, HPort};
use nl_base::{BoxedList, NoMemory, Seq, Text};
use std::alloc::Global;
use to_verilog_props::given_of;
use to_verilog_wires::Wiring;
use vlog_values::{Conns, Instances, ItemV, NamedConn, VInst};

/// Connections by name, or none in order where there are no ports.
fn conns_made(alloc: Global, conns: Seq<NamedConn>) -> Conns
    ensures { result ≡ plain_conns conns }
{
    if conns.is_empty() {
        return Conns::Order(Seq::empty(alloc));
    }
    Conns::Named(conns)
}

/// The one instance of a statement.
fn instance_made(
    alloc: Global,
    ports: &[HPort],
    wiring: &Wiring,
    number: u32,
    name: &[u8],
    below: &[HPort],
) -> Result<VInst, NoMemory>
    requires { length below.now ≤ 2 ^ 32 }
    ensures { IfOk result (λ made. made ≡ record {
      name = name.now;
      conns = plain_conns (conns_of ports.now wiring.now number below.now);
    }) }
{
    let conns = conns_of(alloc, ports, wiring, number, below)?;
    let conns = conns_made(alloc, conns);
    let name = Text::copy(alloc, name)?;
    Ok(VInst { name, conns })
}

/// The statement of the instance of this number.
fn statement_of(
    alloc: Global,
    cells: &[HCell],
    ports: &[HPort],
    wiring: &Wiring,
    number: u32,
    instance: &HInst,
    params: &Names,
) -> Result<Instances, NoMemory>
    requires cell { instance.now.cell < length cells.now }
    requires few { length (below_ports cells.now instance.now) ≤ 2 ^ 32 }
    ensures { IfOk result (λ made. made ≡ statement_of (instance_of cells.now ports.now wiring.now
        params.now (record { 0 = number; 1 = instance.now }))) }
{
    let below = &cells[instance.cell as usize];
    let made = instance_made(
        alloc,
        ports,
        wiring,
        number,
        instance.name.bytes(),
        below.ports.items(),
    )?;
    let mut insts = BoxedList::empty();
    insts.push(alloc, made)?;
    let given = given_of(alloc, instance.props.items(), params)?;
    let module = Text::copy(alloc, below.name.bytes())?;
    Ok(Instances {
        attrs: given.attrs,
        module,
        params: given.params,
        insts,
    })
}

/// Adds the statements of the instances of a cell, one for each.
pub fn push_instances(
    alloc: Global,
    cells: &[HCell],
    cell: &HCell,
    wiring: &Wiring,
    params: &Names,
    items: &mut Seq<ItemV>,
) -> Result<(), NoMemory>
    requires few { length cell.now.instances ≤ count_limit }
    requires cells { Each (λ instance. instance.cell < length cells.now) cell.now.instances }
    requires ports { Each (λ instance. length (below_ports cells.now instance) ≤ 2 ^ 32)
        cell.now.instances }
    ensures { OnOk result (items.new ≡ items.old
        ++ map instance_item (instances_of cells.now cell.now wiring.now params.now)) }
{
    let instances = cell.instances.items();
    let ports = cell.ports.items();
    for number in 0..instances.len() {
        let instance = &instances[number];
        let statement = statement_of(alloc, cells, ports, wiring, number as u32, instance, params)?;
        items.push(ItemV::Instances(statement))?;
    }
    Ok(())
}
