// The list of terminals.
ghost use Rattle.std.specs.Prelude.{ℕ, ◌≡◌, ◌<◌, ◌≤◌, ◌^◌, ◌++◌, All, Some, map, length, slice_get, IfOk, OnOk};
ghost use Rattle.std.specs.List.{range_with_len};
ghost use Rattle.flat_numbers.specs.Tables.{HasFewBits};
ghost use Rattle.flat_classes.specs.Terminals.{bits_of_ports, is_leaf_spot, leaf_spots, ports_at, terminals_of as all_terminals};
ghost use Rattle.net_hier.specs.Design.{IsCell};
ghost use Rattle.net_hier.specs.declared.cells.HCell.{HCell as CellValue};
ghost use Rattle.flat_numbers.specs.Numbers.{CellOf};
ghost use Rattle.flat_numbers.specs.Spots.{top_spot};
ghost use Rattle.flat_numbers.specs.declared.spots.Spot.{Spot as SpotValue};
ghost use Rattle.flat_classes.specs.declared.flat.Terminal.TheVariants.{Pin, Port};

use crate::flat::Terminal;
use flat_numbers::spots::Spot;
use net_hier::units::port_width;
use net_hier::{HCell, Hier};
use nl_base::NoMemory;
use std::alloc::Global;

/// Adds the bits of a leaf's port.
fn push_pin_bits(
    terminals: &mut Vec<Terminal>,
    spot: u32,
    port: u32,
    width: u64,
) -> Result<(), NoMemory>
    requires { width ≤ 2000001 }
    ensures { OnOk result (terminals.new.items ≡ terminals.old.items ++ map (Pin spot port)
        (range_with_len 0 width)) }
{
    for bit in 0..width {
        terminals.push(Terminal::Pin {
            spot,
            port,
            bit: bit as u32,
        })?;
    }
    Ok(())
}

/// Adds the pins of a leaf.
fn push_pins(terminals: &mut Vec<Terminal>, spot: u32, cell: &HCell) -> Result<(), NoMemory>
    requires { HasFewBits cell.now }
    ensures { OnOk result (terminals.new.items ≡ terminals.old.items ++ bits_of_ports (Pin spot) 0
        cell.now.ports) }
{
    let ports = cell.ports.items();
    for port in 0..ports.len() {
        push_pin_bits(terminals, spot, port as u32, port_width(&ports[port]))?;
    }
    Ok(())
}

/// Adds the bits of a port of the top.
fn push_port_bits(terminals: &mut Vec<Terminal>, port: u32, width: u64) -> Result<(), NoMemory>
    requires { width ≤ 2000001 }
    ensures { OnOk result (terminals.new.items ≡ terminals.old.items ++ map (Port port)
        (range_with_len 0 width)) }
{
    for bit in 0..width {
        terminals.push(Terminal::Port {
            port,
            bit: bit as u32,
        })?;
    }
    Ok(())
}

/// Adds the port bits of the top.
fn push_ports(terminals: &mut Vec<Terminal>, top: &HCell) -> Result<(), NoMemory>
    requires { HasFewBits top.now }
    ensures { OnOk result (terminals.new.items ≡ terminals.old.items ++ bits_of_ports Port 0
        top.now.ports) }
{
    let ports = top.ports.items();
    for port in 0..ports.len() {
        push_port_bits(terminals, port as u32, port_width(&ports[port]))?;
    }
    Ok(())
}

/// Whether the spot is that of a leaf that is no constant cell.
fn is_leaf_spot(spot: Spot, leaves: &[bool], constants: &[Option<bool>]) -> bool
    requires leaves { spot.cell < length leaves.now }
    requires constants { length constants.now ≡ length leaves.now }
    ensures { result ≡ is_leaf_spot leaves.now constants.now (Some spot) }
{
    let cell = spot.cell as usize;
    leaves[cell] && constants[cell].is_none()
}

/// The spots of the leaves that are no constant cells, in order.
pub fn leaves_of(
    alloc: Global,
    spots: &[Spot],
    leaves: &[bool],
    constants: &[Option<bool>],
) -> Result<Vec<u32>, NoMemory>
    requires few { length spots.now < 2 ^ 32 }
    requires leaves { (number : ℕ) (spot : SpotValue) → slice_get spots.now number ≡ Some spot →
        spot.cell < length leaves.now }
    requires constants { length constants.now ≡ length leaves.now }
    ensures { IfOk result (λ found. found.items ≡ leaf_spots spots.now leaves.now constants.now) }
{
    let mut found = Vec::new(alloc);
    for number in 0..spots.len() {
        if is_leaf_spot(spots[number], leaves, constants) {
            found.push(number as u32)?;
        }
    }
    found.shrink_to_fit();
    Ok(found)
}

/// Adds the pins of the leaf at a spot.
fn push_leaf(
    terminals: &mut Vec<Terminal>,
    hier: &Hier,
    spots: &[Spot],
    leaf: u32,
) -> Result<(), NoMemory>
    requires bits { (number : ℕ) (cell : CellValue) → IsCell hier.now.cells number cell →
        HasFewBits cell }
    requires leaf { (cell : CellValue) × CellOf hier.now.cells spots.now leaf cell }
    ensures { OnOk result (terminals.new.items ≡ terminals.old.items ++ bits_of_ports (Pin leaf) 0
        (ports_at hier.now.cells spots.now leaf)) }
{
    let cell = spots[leaf as usize].cell;
    push_pins(terminals, leaf, &hier.cells()[cell as usize])?;
    Ok(())
}

/// The top's port bits, then the pins of the leaves other than the top, then the constants.
pub fn terminals_of(
    alloc: Global,
    hier: &Hier,
    spots: &[Spot],
    leaves: &[u32],
) -> Result<Vec<Terminal>, NoMemory>
    requires bits { (number : ℕ) (cell : CellValue) → IsCell hier.now.cells number cell →
        HasFewBits cell }
    requires first { slice_get spots.now 0 ≡ Some (top_spot hier.now.top) }
    requires leaves { All (λ leaf. (cell : CellValue) ×
        CellOf hier.now.cells spots.now leaf cell) leaves.now }
    ensures { IfOk result (λ terminals. terminals.items ≡ all_terminals hier.now.cells spots.now
        leaves.now) }
{
    let mut terminals = Vec::new(alloc);
    push_ports(&mut terminals, &hier.cells()[hier.top() as usize])?;
    for leaf in leaves {
        if *leaf != 0 {
            push_leaf(&mut terminals, hier, spots, *leaf)?;
        }
    }
    terminals.push(Terminal::Zero)?;
    terminals.push(Terminal::One)?;
    terminals.shrink_to_fit();
    Ok(terminals)
}
