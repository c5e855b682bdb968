// The cells that the instances of each cell are of.
ghost use Rattle.std.specs.Prelude.{◌≡◌, ◌++◌, option_to_list, map, IfOk, OnOk};
ghost use Rattle.std.specs.Option.{option_copied};
ghost use Rattle.edif_design.specs.Reach.{cells_below, those_meant};
ghost use Rattle.edif_design.specs.References.{numbers_meant, place_in};

use edif_design::links::linked_number;
use edif_design::tables::FileTables;
use edif_rules::parts::instances_of;
use edif_values::{Cell, Instance};
use nl_base::{NoMemory, Seq};
use std::alloc::Global;

// The spelling of an instance's libraryRef.
fn library_named(instance: &Instance) -> Option<&[u8]>
    ensures { option_copied result ≡ instance.now.library }
{
    instance.library.bytes()
}

/// The numbers of the cells that the instances of a cell in this library are of.
pub(crate) fn numbers_meant(
    alloc: Global,
    tables: &FileTables<'_>,
    library: u32,
    cell: &Cell,
) -> Result<Vec<Option<u32>>, NoMemory>
    ensures { IfOk result (λ numbers. numbers.items
        ≡ numbers_meant tables.now (place_in library cell.now)) }
{
    let instances = instances_of(alloc, cell)?;
    let mut numbers = Vec::with_capacity(alloc, instances.len())?;
    for instance in instances.as_slice() {
        let named = library_named(instance);
        let linked = tables.link(alloc, library, b"", named, instance.cell.bytes())?;
        numbers.push(linked_number(&linked))?;
    }
    Ok(numbers)
}

// Adds the number, where there is one.
fn push_number(list: &mut Seq<u32>, number: Option<u32>) -> Result<(), NoMemory>
    ensures { OnOk result (list.new ≡ list.old ++ option_to_list number) }
{
    match number {
        Some(number) => {
            list.push(number)?;
            Ok(())
        }
        None => Ok(()),
    }
}

// The numbers that are there.
fn those_meant(alloc: Global, numbers: &[Option<u32>]) -> Result<Seq<u32>, NoMemory>
    ensures { IfOk result (λ list. list ≡ those_meant numbers.now) }
{
    let mut list = Seq::empty(alloc);
    for number in numbers {
        push_number(&mut list, *number)?;
    }
    Ok(list)
}

/// For each cell of a file the numbers of the cells that its instances are of.
pub(crate) fn graph_of(alloc: Global, tables: &FileTables<'_>) -> Result<Vec<Seq<u32>>, NoMemory>
    ensures { IfOk result (λ graph. graph.items ≡ cells_below tables.now) }
{
    let mut graph = Vec::with_capacity(alloc, tables.places().len())?;
    for place in tables.places() {
        let numbers = numbers_meant(alloc, tables, place.library, place.cell)?;
        graph.push(those_meant(alloc, numbers.as_slice())?)?;
    }
    Ok(graph)
}
