// What the ports of instances are connected to.
ghost use Rattle.std.specs.Prelude.{◌≡◌, ◌++◌, ◌≤◌, ◌^◌, length, option_to_list, IfOk, OnOk};
ghost use Rattle.std.specs.List.{range_with_len};
ghost use Rattle.to_verilog_items.specs.Instances.{conn_of, connected, conns_of, pin_expr, pin_exprs};

use crate::exprs::hub_expr;
use net_hier::{HPort, Node};
use nl_base::{NoMemory, Seq, Text};
use std::alloc::Global;
use to_verilog_classes::roots::width_of;
use to_verilog_wires::Wiring;
use vlog_values::{Expr, NamedConn};

/// What stands for a pin bit.
fn pin_expr(
    alloc: Global,
    ports: &[HPort],
    wiring: &Wiring,
    pin: &Node,
) -> Result<Option<Expr>, NoMemory>
    ensures { IfOk result (λ made. made ≡ pin_expr ports.now wiring.now pin.now) }
{
    match wiring.hub_of(pin) {
        None => Ok(None),
        Some(hub) => {
            let expr = hub_expr(alloc, ports, wiring.names(), hub)?;
            Ok(expr)
        }
    }
}

/// Adds what stands for a pin bit.
fn push_pin(
    alloc: Global,
    ports: &[HPort],
    wiring: &Wiring,
    pin: &Node,
    exprs: &mut Seq<Expr>,
) -> Result<(), NoMemory>
    ensures { OnOk result (exprs.new ≡ exprs.old
        ++ option_to_list (pin_expr ports.now wiring.now pin.now)) }
{
    let found = pin_expr(alloc, ports, wiring, pin)?;
    match found {
        None => Ok(()),
        Some(expr) => {
            exprs.push(expr)?;
            Ok(())
        }
    }
}

/// What stands for the bits of a port of an instance, from the left.
fn pin_exprs(
    alloc: Global,
    ports: &[HPort],
    wiring: &Wiring,
    instance: u32,
    port: u32,
    width: u32,
) -> Result<Seq<Expr>, NoMemory>
    ensures { IfOk result (λ made. made
        ≡ pin_exprs ports.now wiring.now instance port (range_with_len 0 width)) }
{
    let mut exprs = Seq::empty(alloc);
    for bit in 0..width {
        let pin = Node::Pin {
            instance,
            port,
            bit,
        };
        push_pin(alloc, ports, wiring, &pin, &mut exprs)?;
    }
    Ok(exprs)
}

/// What a port of so many bits is connected to: what stands for its bit where it has one, else the concatenation of its bits where one of
/// them is written.
fn connected(
    alloc: Global,
    ports: &[HPort],
    wiring: &Wiring,
    instance: u32,
    port: u32,
    width: u32,
) -> Result<Option<Expr>, NoMemory>
    ensures { IfOk result (λ made. made ≡ connected ports.now wiring.now instance port width) }
{
    let first = Node::Pin {
        instance,
        port,
        bit: 0,
    };
    if width == 1 {
        let expr = pin_expr(alloc, ports, wiring, &first)?;
        return Ok(expr);
    }
    if !wiring.is_written(&first) {
        return Ok(None);
    }
    let exprs = pin_exprs(alloc, ports, wiring, instance, port, width)?;
    Ok(Some(Expr::Cat(exprs)))
}

/// The connection of the port of this number.
fn conn_of(
    alloc: Global,
    ports: &[HPort],
    wiring: &Wiring,
    instance: u32,
    number: u32,
    below: &HPort,
) -> Result<NamedConn, NoMemory>
    ensures { IfOk result (λ made. made
        ≡ conn_of ports.now wiring.now instance (record { 0 = number; 1 = below.now })) }
{
    let value = connected(
        alloc,
        ports,
        wiring,
        instance,
        number,
        width_of(below.range),
    )?;
    let port = Text::copy(alloc, below.name.bytes())?;
    Ok(NamedConn { port, value })
}

/// The connections of an instance: each port of its cell, in order.
pub fn conns_of(
    alloc: Global,
    ports: &[HPort],
    wiring: &Wiring,
    instance: u32,
    below: &[HPort],
) -> Result<Seq<NamedConn>, NoMemory>
    requires { length below.now ≤ 2 ^ 32 }
    ensures { IfOk result (λ made. made ≡ conns_of ports.now wiring.now instance below.now) }
{
    let mut conns = Seq::empty(alloc);
    for number in 0..below.len() {
        let conn = conn_of(
            alloc,
            ports,
            wiring,
            instance,
            number as u32,
            &below[number],
        )?;
        conns.push(conn)?;
    }
    Ok(conns)
}
