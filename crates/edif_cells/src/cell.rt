// A cell of a design, made of a cell of an EDIF file.
ghost use Rattle.std.specs.Prelude.{◌≡◌, ◌≤◌, false, true, ℕ, None, Some, IfOk, get_or, length, map, slice_get};
ghost use Rattle.std.specs.List.{flat_map, list_any};
ghost use Rattle.edif_values.specs.Sizes.{cell_size};
ghost use Rattle.edif_values.specs.declared.cell.Cell.{Cell};
ghost use Rattle.edif_design.specs.CellRules.{has_good_sizes};
ghost use Rattle.edif_design.specs.Design.{cell_value, net_joins, net_value, port_value};
ghost use Rattle.edif_design.specs.Parts.{instances, nets, numbered, ports};
ghost use Rattle.edif_design.specs.References.{file_cells, linked_by};
ghost use Rattle.edif_cells.specs.Values.{instance_at, is_bad_port};

use crate::joins::joins_made;
use crate::parts::{instances_made, nets_made, ports_made};
use crate::properties::all_properties;
use edif_design::FileTables;
use edif_rules::parts::{contents_of, instances_in, instances_of, nets_in, ports_of};
use edif_rules::{CellScope, InstanceTable, PortTable};
use edif_values::{Cell, original};
use net_hier::{HCell, HInst, HNet, HPort, Join};
use nl_base::{NoMemory, Seq, Text};
use std::alloc::Global;

/// The ports of a cell, of which none has a size outside 1 to 65,536.
fn cell_ports(alloc: Global, cell: &Cell) -> Result<Seq<HPort>, NoMemory>
    requires { has_good_sizes cell.now ≡ true }
    ensures { IfOk result (λ made. made ≡ map port_value (ports cell.now)) }
{
    let ports = ports_of(alloc, cell)?;
    let made = ports_made(alloc, ports.as_slice())?;
    Ok(made)
}

/// The instances of a cell.
fn cell_instances(
    alloc: Global,
    numbers: &[u32],
    cells: usize,
    cell: &Cell,
    below: &[Option<u32>],
) -> Result<Seq<HInst>, NoMemory>
    ensures { IfOk result (λ made. made
        ≡ map (instance_at numbers.now below.now cells) (numbered (instances cell.now))) }
{
    let instances = instances_of(alloc, cell)?;
    let made = instances_made(alloc, numbers, below, cells, instances.as_slice())?;
    Ok(made)
}

/// The nets of a cell.
fn cell_nets(alloc: Global, cell: &Cell) -> Result<Seq<HNet>, NoMemory>
    ensures { IfOk result (λ made. made ≡ map net_value (nets cell.now)) }
{
    let items = contents_of(alloc, cell)?;
    let nets = nets_in(alloc, items.as_slice())?;
    let made = nets_made(alloc, nets.as_slice())?;
    Ok(made)
}

/// The joins of a cell.
fn cell_joins(
    alloc: Global,
    tables: &FileTables<'_>,
    port_tables: &[PortTable<'_>],
    cell: &Cell,
    below: &[Option<u32>],
) -> Result<Seq<Join>, NoMemory>
    requires port_tables { port_tables.now ≡ map ports (file_cells tables.now) }
    requires few { cell_size cell.now ≤ 268435456 }
    requires own { has_good_sizes cell.now ≡ true }
    requires inner { (place number : ℕ) (inner : Cell)
        → slice_get below.now place ≡ Some (Some number)
        → slice_get (file_cells tables.now) number ≡ Some inner → has_good_sizes inner ≡ true }
    ensures { IfOk result (λ made. made
        ≡ flat_map (net_joins (linked_by (file_cells tables.now) cell.now below.now))
        (numbered (nets cell.now))) }
{
    let items = contents_of(alloc, cell)?;
    let nets = nets_in(alloc, items.as_slice())?;
    let own = PortTable::of(alloc, cell)?;
    let instances = InstanceTable::of(alloc, instances_in(alloc, items.as_slice())?)?;
    let scope = CellScope {
        own: &own,
        instances: &instances,
        below,
        port_tables,
    };
    let made = joins_made(alloc, &scope, nets.as_slice())?;
    Ok(made)
}

/// The value of a cell, by the ports of each cell of the file, the numbers of these cells in the design, and the numbers in the file of
/// the cells that the cell's instances are of. No array port of the cell or of these has a size outside 1 to 65,536.
pub fn cell_of(
    alloc: Global,
    tables: &FileTables<'_>,
    port_tables: &[PortTable<'_>],
    numbers: &[u32],
    cell: &Cell,
    below: &[Option<u32>],
) -> Result<HCell, NoMemory>
    requires port_tables { port_tables.now ≡ map ports (file_cells tables.now) }
    requires few { cell_size cell.now ≤ 268435456 }
    requires own { has_good_sizes cell.now ≡ true }
    requires inner { (place number : ℕ) (inner : Cell)
        → slice_get below.now place ≡ Some (Some number)
        → slice_get (file_cells tables.now) number ≡ Some inner → has_good_sizes inner ≡ true }
    ensures { IfOk result (λ made. made
        ≡ cell_value numbers.now (linked_by (file_cells tables.now) cell.now below.now)) }
{
    let joins = cell_joins(alloc, tables, port_tables, cell, below)?;
    let ports = cell_ports(alloc, cell)?;
    let instances = cell_instances(alloc, numbers, port_tables.len(), cell, below)?;
    let nets = cell_nets(alloc, cell)?;
    let props = all_properties(alloc, cell)?;
    let name = Text::copy(alloc, original(&cell.name))?;
    Ok(HCell {
        name,
        ports,
        instances,
        nets,
        joins,
        props,
    })
}
