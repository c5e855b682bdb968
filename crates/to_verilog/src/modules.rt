// The module of a cell.
ghost use Rattle.std.specs.Prelude.{◌≡◌, ◌++◌, ◌<◌, ◌≤◌, ◌^◌, length, map, IfOk};
ghost use Rattle.net_hier.specs.Design.{IsCell};
ghost use Rattle.net_hier.specs.Facts.{cell_props};
ghost use Rattle.net_hier.specs.Valid.{Each, count_limit};
ghost use Rattle.net_hier.specs.declared.cells.HCell.{HCell as CellValue};
ghost use Rattle.to_verilog_items.specs.Assigns.{assigns_of};
ghost use Rattle.to_verilog_items.specs.Instances.{below_ports, instances_of};
ghost use Rattle.to_verilog_props.specs.Written.{attrs_of};
ghost use Rattle.to_verilog.specs.Modules.{AreItems, IsModuleOf, IsWritable};
ghost use Rattle.vlog_partners.specs.Partners.{IsWritten};
ghost use Rattle.vlog_written.specs.Written.{assign_item, instance_item};

use net_bits::Names;
use net_hier::{HCell, Hier};
use net_live::add_props;
use nl_base::{BoxedList, NoMemory, Seq, Text};
use std::alloc::Global;
use to_verilog_items::{header_of, push_assigns, push_instances};
use to_verilog_props::attrs_of;
use to_verilog_wires::Wiring;
use vlog_values::{Attr, ItemV, Module};

/// The attributes of the cell of this number: its properties, and behind those of the top the properties of the design.
fn cell_attrs(
    alloc: Global,
    hier: &Hier,
    number: u32,
    cell: &HCell,
) -> Result<BoxedList<Attr>, NoMemory>
    ensures { IfOk result (λ made. made ≡ attrs_of (cell_props hier.now number cell.now)) }
{
    let mut gathered = Vec::new(alloc);
    add_props(cell.props.items(), &mut gathered)?;
    if number == hier.top() {
        add_props(hier.props(), &mut gathered)?;
        let attrs = attrs_of(alloc, gathered.as_slice())?;
        return Ok(attrs);
    }
    let attrs = attrs_of(alloc, gathered.as_slice())?;
    Ok(attrs)
}

/// The items of a cell over its wiring: its wires, whose declarations these are, its assigns, its instances.
fn items_over(
    alloc: Global,
    cells: &[HCell],
    cell: &HCell,
    wiring: &Wiring,
    params: &Names,
    decls: Seq<ItemV>,
) -> Result<Seq<ItemV>, NoMemory>
    requires few { length cell.now.instances ≤ count_limit }
    requires cells { Each (λ instance. instance.cell < length cells.now) cell.now.instances }
    requires ports { Each (λ instance. length (below_ports cells.now instance) ≤ 2 ^ 32)
        cell.now.instances }
    ensures { IfOk result (λ items. items
        ≡ (decls ++ map assign_item (assigns_of cell.now.ports wiring.now))
        ++ map instance_item (instances_of cells.now cell.now wiring.now params.now)) }
{
    let mut items = decls;
    push_assigns(alloc, cell.ports.items(), wiring, &mut items)?;
    push_instances(alloc, cells, cell, wiring, params, &mut items)?;
    Ok(items)
}

/// The items of a cell: its wires, its assigns, its instances.
fn items_of(
    alloc: Global,
    hier: &Hier,
    number: u32,
    cell: &HCell,
    params: &Names,
) -> Result<Seq<ItemV>, NoMemory>
    requires { IsCell hier.now.cells number cell.now }
    ensures { IfOk result (AreItems hier.now params.now number cell.now) }
{
    let cells = hier.cells();
    let (wiring, decls) = Wiring::of_cell(alloc, hier, cell)?;
    items_over(alloc, cells, cell, &wiring, params, decls)
}

/// The module of the cell of this number, where the properties of these names are parameters of instances.
pub fn module_of(
    alloc: Global,
    hier: &Hier,
    number: u32,
    params: &Names,
) -> Result<Module, NoMemory>
    requires is_cell { number < length hier.now.cells }
    requires writable { (cell : CellValue) → IsCell hier.now.cells number cell
        → IsWritable params.now cell }
    ensures plain { IfOk result (IsModuleOf hier.now params.now number) }
    ensures written { IfOk result (IsWritten hier.now number) }
{
    let cell = &hier.cells()[number as usize];
    let items = items_of(alloc, hier, number, cell, params)?;
    let attrs = cell_attrs(alloc, hier, number, cell)?;
    let header = header_of(alloc, cell.ports.items())?;
    let name = Text::copy(alloc, cell.name.bytes())?;
    Ok(Module {
        attrs,
        name,
        implicit: true,
        params: Seq::empty(alloc),
        header,
        items,
    })
}
