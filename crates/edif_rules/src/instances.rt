// What the instances of a cell break.
ghost use Rattle.std.specs.Prelude.{◌≡◌, ◌∷◌, [], IfOk, slice_get};
ghost use Rattle.std.specs.Option.{option_and_then, option_copied};
ghost use Rattle.edif_lookup.specs.Refusals.{broken, lowest};
ghost use Rattle.edif_design.specs.CellRules.{view_refusals};
ghost use Rattle.edif_design.specs.References.{file_cells};
ghost use Rattle.edif_rules.specs.Walks.{instance_refusals_by};

use crate::references::{refused, unbroken};
use edif_design::FileTables;
use edif_design::links::{linked_number, linked_refusal};
use edif_lookup::{lower, one_name, two_names};
use edif_values::{Instance, original};
use nl_base::{Ident, NoMemory, Refusal, Rule};
use std::alloc::Global;

/// The refusal by this rule of a second thing of this kind and name, where the name is taken.
pub fn second_refusal(
    alloc: Global,
    taken: bool,
    rule: Rule,
    cell: &[u8],
    kind: &[u8],
    name: &[u8],
) -> Result<Option<Refusal>, NoMemory>
    ensures { IfOk result (λ found. found
        ≡ lowest (broken taken rule cell.now (kind.now ∷ (name.now ∷ [])))) }
{
    if taken {
        let told = two_names(alloc, kind, name)?;
        let found = refused(alloc, rule, cell, told)?;
        return Ok(found);
    }
    Ok(unbroken())
}

/// The refusal of a viewRef to a view of the cell of this number, where that is one.
fn view_refusal(
    alloc: Global,
    tables: &FileTables<'_>,
    cell: &[u8],
    number: Option<u32>,
    spelling: &Ident,
) -> Result<Option<Refusal>, NoMemory>
    ensures { IfOk result (λ found. found
        ≡ lowest (view_refusals cell.now spelling.now
        (option_and_then (slice_get (file_cells tables.now)) number))) }
{
    let Some(number) = number else {
        return Ok(unbroken());
    };
    let Some(means) = tables.means_view(alloc, number, spelling.bytes())? else {
        return Ok(unbroken());
    };
    if means {
        return Ok(unbroken());
    }
    let told = one_name(alloc, spelling.bytes())?;
    let found = refused(alloc, Rule::E4, cell, told)?;
    Ok(found)
}

/// The spelling of the libraryRef of an instance, where it has one.
fn library_of(instance: &Instance) -> Option<&[u8]>
    ensures { option_copied result ≡ instance.now.library }
{
    instance.library.bytes()
}

/// The refusal of an instance in the cell of this name and in the library of this number, by whether an earlier instance has its identifier,
/// and whether one has its original name.
pub fn instance_refusal(
    alloc: Global,
    tables: &FileTables<'_>,
    home: u32,
    cell: &[u8],
    instance: &Instance,
    ident_taken: bool,
    name_taken: bool,
) -> Result<Option<Refusal>, NoMemory>
    ensures { IfOk result (λ found. found
        ≡ lowest
        (instance_refusals_by tables.now home cell.now ident_taken name_taken instance.now)) }
{
    let ident = second_refusal(
        alloc,
        ident_taken,
        Rule::E5,
        cell,
        b"instance",
        instance.name.ident.bytes(),
    )?;
    let linked = tables.link(
        alloc,
        home,
        cell,
        library_of(instance),
        instance.cell.bytes(),
    )?;
    let view = view_refusal(alloc, tables, cell, linked_number(&linked), &instance.view)?;
    let name = second_refusal(
        alloc,
        name_taken,
        Rule::E12,
        cell,
        b"instance",
        original(&instance.name),
    )?;
    let link = linked_refusal(linked);
    Ok(lower(lower(lower(ident, link), view), name))
}
