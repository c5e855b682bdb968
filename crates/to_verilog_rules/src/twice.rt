// Names that two objects have.
ghost use Rattle.std.specs.Prelude.{◌≡◌, [], bytes_eq, filter, find, map, option_copied, IfOk};
ghost use Rattle.vlog_design.specs.Names.{clashing, has_name};
ghost use Rattle.vlog_design.specs.Rules.{first_of};
ghost use Rattle.vlog_design.specs.Tables.{names_of};

use net_hier::{HCell, HInst, HPort};
use nl_base::NoMemory;
use std::alloc::Global;
use vlog_design::names::NameSet;
use vlog_rules::lists::name_set;
use vlog_rules::repeats::first_repeated;

/// The names of cells.
fn names_of_cells<'a>(alloc: Global, cells: &'a [HCell]) -> Result<Vec<&'a [u8]>, NoMemory>
    ensures { IfOk result (λ names. names_of names.items ≡ map (λ cell. cell.name) cells.now) }
{
    let mut names = Vec::new(alloc);
    for cell in cells {
        names.push(cell.name.bytes())?;
    }
    Ok(names)
}

/// The names of instances.
fn names_of_instances<'a>(alloc: Global, instances: &'a [HInst]) -> Result<Vec<&'a [u8]>, NoMemory>
    ensures { IfOk result
        (λ names. names_of names.items ≡ map (λ instance. instance.name) instances.now) }
{
    let mut names = Vec::new(alloc);
    for instance in instances {
        names.push(instance.name.bytes())?;
    }
    Ok(names)
}

/// The first name that a cell before has.
pub fn cell_twice<'a>(alloc: Global, cells: &'a [HCell]) -> Result<Option<&'a [u8]>, NoMemory>
    ensures { IfOk result
        (λ found. option_copied found
        ≡ first_of (clashing bytes_eq [] (map (λ cell. cell.name) cells.now))) }
{
    let names = names_of_cells(alloc, cells)?;
    let found = first_repeated(alloc, &names)?;
    Ok(found)
}

/// The first port whose name is one of these.
fn port_named<'a>(ports: &'a [HPort], names: &NameSet) -> Option<&'a [u8]>
    ensures { option_copied result ≡ find (has_name names.now) (map (λ port. port.name) ports.now) }
{
    for port in ports {
        if names.has(port.name.bytes()) {
            return Some(port.name.bytes());
        }
    }
    None
}

/// The first port of a cell that has the name of one of its instances.
pub fn port_and_instance<'a>(alloc: Global, cell: &'a HCell) -> Result<Option<&'a [u8]>, NoMemory>
    ensures { IfOk result
        (λ found. option_copied found
        ≡ first_of
        (filter (has_name (map (λ instance. instance.name) cell.now.instances))
        (map (λ port. port.name) cell.now.ports))) }
{
    let names = names_of_instances(alloc, cell.instances.items())?;
    let set = name_set(alloc, &names)?;
    let found = port_named(cell.ports.items(), &set);
    Ok(found)
}
