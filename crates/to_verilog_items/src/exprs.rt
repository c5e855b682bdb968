// Expressions for port bits, wires and constants.
ghost use Rattle.std.specs.Prelude.{◌≡◌, ◌<◌, IfOk, option_map, slice_get};
ghost use Rattle.net_hier.specs.Cells.{width_of as width};
ghost use Rattle.vlog_values.specs.declared.expression.Expr.TheVariants.{Lit, Ref};
ghost use Rattle.vlog_values.specs.declared.expression.Select.TheVariants.{All};
ghost use Rattle.vlog_written.specs.Written.{bit_literal, select_of};
ghost use Rattle.to_verilog_items.specs.Exprs.{bit_of, hub_expr, port_expr};

use net_hier::HPort;
use nl_base::{Boxed, NoMemory, Text};
use std::alloc::Global;
use to_verilog_classes::roots::width_of;
use to_verilog_props::constants::bit_literal;
use to_verilog_wires::Hub;
use vlog_values::{Expr, Select};

/// The bits of the port that a position from the left is: all of a scalar.
fn select_of(port: &HPort, bit: u32) -> Select
    requires { bit < width port.now.range }
    ensures { result ≡ select_of port.now.range bit }
{
    match port.range {
        None => Select::All,
        Some(range) => Select::One(range.index(bit)),
    }
}

/// The bit of the port at this position; none where it is not there.
fn bit_of(alloc: Global, port: &HPort, bit: u32) -> Result<Option<Expr>, NoMemory>
    ensures { IfOk result (λ made. made ≡ bit_of port.now bit) }
{
    if bit < width_of(port.range) {
        let name = Text::copy(alloc, port.name.bytes())?;
        let select = select_of(port, bit);
        return Ok(Some(Expr::Ref { select, name }));
    }
    Ok(None)
}

/// The bit of the port of this number; none where it is not there.
pub fn port_expr(
    alloc: Global,
    ports: &[HPort],
    port: u32,
    bit: u32,
) -> Result<Option<Expr>, NoMemory>
    ensures { IfOk result (λ made. made ≡ port_expr ports.now port bit) }
{
    match ports.get(port as usize) {
        None => Ok(None),
        Some(port) => {
            let expr = bit_of(alloc, port, bit)?;
            Ok(expr)
        }
    }
}

/// The wire of this number; none where it is not there.
fn wire_expr(alloc: Global, names: &[Text], wire: usize) -> Result<Option<Expr>, NoMemory>
    ensures { IfOk result (λ made. made
        ≡ option_map (λ name. Ref All name) (slice_get names.now wire)) }
{
    match names.get(wire) {
        None => Ok(None),
        Some(name) => {
            let name = Text::copy(alloc, name.bytes())?;
            Ok(Some(Expr::Ref {
                select: Select::All,
                name,
            }))
        }
    }
}

/// What stands for a class: a port bit, or the wire of a number.
pub fn hub_expr(
    alloc: Global,
    ports: &[HPort],
    names: &[Text],
    hub: Hub,
) -> Result<Option<Expr>, NoMemory>
    ensures { IfOk result (λ made. made ≡ hub_expr ports.now names.now hub) }
{
    match hub {
        Hub::Port { port, bit } => {
            let expr = port_expr(alloc, ports, port, bit)?;
            Ok(expr)
        }
        Hub::Wire(wire) => {
            let expr = wire_expr(alloc, names, wire)?;
            Ok(expr)
        }
    }
}

/// A constant.
pub fn constant_expr(alloc: Global, one: bool) -> Result<Expr, NoMemory>
    ensures { IfOk result (λ made. made ≡ Lit (bit_literal one)) }
{
    let literal = Boxed::new(alloc, bit_literal(alloc, one)?)?;
    Ok(Expr::Lit(literal))
}
