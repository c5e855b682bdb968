// The pins of an instance.
ghost use Rattle.std.specs.Prelude.{◌≡◌, ◌++◌, ◌≤◌, length, IfOk, OnOk};
ghost use Rattle.to_spice_nodes.specs.Nodes.{pins_of as pins_of_instance, port_pins};

use net_hier::units::port_width;
use net_hier::{HCell, HPort, Node};
use nl_base::NoMemory;
use std::alloc::Global;

/// Adds the pins of an instance for the port of this number.
fn push_pins(pins: &mut Vec<Node>, instance: u32, number: u32, port: &HPort) -> Result<(), NoMemory>
    ensures { OnOk result (pins.new.items
        ≡ pins.old.items ++ port_pins instance (number, port.now)) }
{
    for bit in 0..port_width(port) {
        pins.push(Node::Pin {
            instance,
            port: number,
            bit: bit as u32,
        })?;
    }
    Ok(())
}

/// The pins of an instance of this number of a cell, in the order of the port bits.
pub fn pins_of(alloc: Global, instance: u32, below: &HCell) -> Result<Vec<Node>, NoMemory>
    requires { length below.now.ports ≤ 33554432 }
    ensures { IfOk result (λ pins. pins.items ≡ pins_of_instance instance below.now) }
{
    let mut pins = Vec::new(alloc);
    let ports = below.ports.items();
    for number in 0..ports.len() {
        push_pins(&mut pins, instance, number as u32, &ports[number])?;
    }
    Ok(pins)
}
