// The subcircuits of cells.
ghost use Rattle.std.specs.Prelude.{◌≡◌, ℕ, ◌<◌, ◌≤◌, length, slice_get, Some, codes, IfOk, OnOk};
ghost use Rattle.net_bits.specs.Classes.{AreClasses};
ghost use Rattle.net_bits.specs.Names.{AreUsed};
ghost use Rattle.net_hier.specs.Valid.{Each, IsJoinOf};
ghost use Rattle.net_hier.specs.declared.cells.HInst.{HInst as InstanceValue};
ghost use Rattle.to_spice.specs.Calls.{HasCallsOf, IsSubcktAt};
ghost use Rattle.to_spice.specs.Giving.{GivesCall, GivesCalls};
ghost use Rattle.to_spice_nodes.specs.Table.{HasOwnNodes};

use net_bits::Classes;
use net_hier::{HCell, HInst, Hier};
use nl_base::{NoMemory, Seq, Text};
use spice_text::{Call, Subckt};
use std::alloc::Global;
use to_spice_nodes::{Nodes, pins_of};
use to_spice_rules::words_of;

/// The call of the instance of this number of a cell. The classes are those of the cell.
fn call_of(
    alloc: Global,
    hier: &Hier,
    cell: &HCell,
    classes: &Classes,
    number: u32,
    instance: &HInst,
    nodes: &mut Nodes,
) -> Result<Call, NoMemory>
    requires classes { AreClasses cell.now classes.now }
    requires own { HasOwnNodes cell.now }
    requires there { instance.now.cell < length hier.now.cells }
    requires next { AreUsed nodes.old.used (codes "n") nodes.old.next }
    ensures call { IfOk result (GivesCall hier.now.cells cell.now classes.now number instance.now
        nodes.old nodes.new) }
    ensures next { OnOk result (AreUsed nodes.new.used (codes "n") nodes.new.next) }
{
    let below = &hier.cells()[instance.cell as usize];
    let pins = pins_of(alloc, number, below)?;
    let names = nodes.name_pins(alloc, cell, classes, pins.as_slice())?;
    let name = Text::copy(alloc, instance.name.bytes())?;
    let of = Text::copy(alloc, below.name.bytes())?;
    Ok(Call {
        name,
        nodes: names,
        cell: of,
    })
}

/// The calls of the instances of a cell. The classes are those of the cell.
fn calls_of(
    alloc: Global,
    hier: &Hier,
    cell: &HCell,
    classes: &Classes,
    nodes: &mut Nodes,
) -> Result<Seq<Call>, NoMemory>
    requires classes { AreClasses cell.now classes.now }
    requires own { HasOwnNodes cell.now }
    requires there { (place : ℕ) (instance : InstanceValue)
        → slice_get cell.now.instances place ≡ Some instance
        → instance.cell < length hier.now.cells }
    requires few { length cell.now.instances ≤ 268435456 }
    requires next { AreUsed nodes.old.used (codes "n") nodes.old.next }
    ensures { IfOk result (GivesCalls hier.now.cells cell.now classes.now cell.now.instances
        nodes.old nodes.new) }
{
    let mut calls = Seq::empty(alloc);
    let instances = cell.instances.items();
    for number in 0..instances.len() {
        let call = call_of(
            alloc,
            hier,
            cell,
            classes,
            number as u32,
            &instances[number],
            nodes,
        )?;
        calls.push(call)?;
    }
    Ok(calls)
}

/// The calls of the instances of a cell of the design.
fn calls_of_cell(alloc: Global, hier: &Hier, cell: &HCell) -> Result<Seq<Call>, NoMemory>
    requires joins { Each (IsJoinOf hier.now.cells cell.now) cell.now.joins }
    requires few_joins { length cell.now.joins ≤ 33554432 }
    requires there { (place : ℕ) (instance : InstanceValue)
        → slice_get cell.now.instances place ≡ Some instance
        → instance.cell < length hier.now.cells }
    requires few { length cell.now.instances ≤ 268435456 }
    ensures { IfOk result (HasCallsOf hier.now.cells cell.now) }
{
    let classes = Classes::of_cell_uncounted(alloc, cell)?;
    let mut nodes = Nodes::none(alloc, cell)?;
    let calls = calls_of(alloc, hier, cell, &classes, &mut nodes)?;
    Ok(calls)
}

/// The subcircuit of the cell of this number.
pub fn subckt_of(alloc: Global, hier: &Hier, number: u32) -> Result<Subckt, NoMemory>
    requires { number < length hier.now.cells }
    ensures { IfOk result (IsSubcktAt hier.now number) }
{
    let cell = &hier.cells()[number as usize];
    let calls = calls_of_cell(alloc, hier, cell)?;
    let ports = words_of(alloc, cell)?;
    let name = Text::copy(alloc, cell.name.bytes())?;
    Ok(Subckt { name, ports, calls })
}
