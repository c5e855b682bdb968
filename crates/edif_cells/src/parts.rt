// The ports, instances and nets of a cell of a design.
ghost use Rattle.std.specs.Prelude.{◌≡◌, false, None, IfOk, get_or, map};
ghost use Rattle.std.specs.List.{list_any};
ghost use Rattle.std.specs.Option.{option_and_then};
ghost use Rattle.edif_design.specs.Design.{net_value, number_in, port_value};
ghost use Rattle.edif_design.specs.Parts.{numbered};
ghost use Rattle.edif_cells.specs.Values.{instance_at, instance_of, is_bad_port, number_within};
ghost use Rattle.edif_rules.specs.Lists.{seen};

use crate::properties::{instance_properties, net_properties, port_properties};
use edif_values::{Instance, Net, Port, direction, original, port_original};
use net_hier::{HInst, HNet, HPort};
use nl_base::{NoMemory, Seq, Text};
use std::alloc::Global;

/// A port under its original name.
fn port_of(alloc: Global, port: &Port) -> Result<HPort, NoMemory>
    requires { is_bad_port port.now ≡ false }
    ensures { IfOk result (λ made. made ≡ port_value port.now) }
{
    let (original, range) = port_original(&port.name);
    let name = Text::copy(alloc, original)?;
    let props = port_properties(alloc, port.items.items())?;
    Ok(HPort {
        name,
        range,
        dir: direction(port),
        props,
    })
}

/// The ports of a cell.
pub fn ports_made(alloc: Global, ports: &[&Port]) -> Result<Seq<HPort>, NoMemory>
    requires { list_any is_bad_port (seen ports.now) ≡ false }
    ensures { IfOk result (λ made. made ≡ map port_value (seen ports.now)) }
{
    let mut made = Seq::empty(alloc);
    for port in ports {
        let value = port_of(alloc, port)?;
        made.push(value)?;
    }
    Ok(made)
}

/// The number in the design of the cell of this number, where it is one of so many cells.
fn number_at(numbers: &[u32], cells: usize, cell: u32) -> u32
    ensures { result ≡ number_in numbers.now (number_within cells cell) }
{
    if cell as usize >= cells {
        return 0;
    }
    match numbers.get(cell as usize) {
        Some(number) => *number,
        None => 0,
    }
}

/// The number in the design of the cell that the instance of this number is of, and 0 where no cell is meant.
fn number_of(numbers: &[u32], below: &[Option<u32>], cells: usize, instance: usize) -> u32
    ensures { result ≡ number_in numbers.now
        (option_and_then (number_within cells) (get_or below.now instance None)) }
{
    match below.get(instance) {
        Some(Some(cell)) => number_at(numbers, cells, *cell),
        _ => 0,
    }
}

/// An instance under its original name, of the cell of this number.
fn instance_of(alloc: Global, instance: &Instance, cell: u32) -> Result<HInst, NoMemory>
    ensures { IfOk result (λ made. made ≡ instance_of cell instance.now) }
{
    let name = Text::copy(alloc, original(&instance.name))?;
    let props = instance_properties(alloc, instance.items.items())?;
    Ok(HInst { name, cell, props })
}

/// The instances of a cell.
pub fn instances_made(
    alloc: Global,
    numbers: &[u32],
    below: &[Option<u32>],
    cells: usize,
    instances: &[&Instance],
) -> Result<Seq<HInst>, NoMemory>
    ensures { IfOk result (λ made. made
        ≡ map (instance_at numbers.now below.now cells) (numbered (seen instances.now))) }
{
    let mut made = Seq::empty(alloc);
    for (number, instance) in instances.iter().enumerate() {
        let value = instance_of(alloc, instance, number_of(numbers, below, cells, number))?;
        made.push(value)?;
    }
    Ok(made)
}

/// A net under its original name.
fn net_of(alloc: Global, net: &Net) -> Result<HNet, NoMemory>
    ensures { IfOk result (λ made. made ≡ net_value net.now) }
{
    let name = Text::copy(alloc, original(&net.name))?;
    let props = net_properties(alloc, net.items.items())?;
    Ok(HNet { name, props })
}

/// The nets of a cell.
pub fn nets_made(alloc: Global, nets: &[&Net]) -> Result<Seq<HNet>, NoMemory>
    ensures { IfOk result (λ made. made ≡ map net_value (seen nets.now)) }
{
    let mut made = Seq::empty(alloc);
    for net in nets {
        let value = net_of(alloc, net)?;
        made.push(value)?;
    }
    Ok(made)
}
