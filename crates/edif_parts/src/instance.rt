// One instance of a cell.
ghost use Rattle.std.specs.Prelude.{◌≡◌, map, IfOk};
ghost use Rattle.std.specs.List.{AllByRecursion};
ghost use Rattle.edif_values.specs.Values.{IsString, IsWord, IsProperty, IsInstance};
ghost use Rattle.edif_values.specs.declared.instance.InstanceItem.TheVariants as instance_items;
ghost use Rattle.edif_written.specs.Naming.{value_of};
ghost use Rattle.edif_written.specs.Written.{netlist, work};
ghost use Rattle.edif_plans.specs.Summaries.{summary_with, instance_summary, instance_ident};
ghost use Rattle.edif_plans.specs.NetNames.{HasNoSpareText};
ghost use Rattle.edif_parts.specs.Instances.{instance_for};

use edif_naming::{copied, named};
use edif_values::{Instance, InstanceItem, Property};
use nl_base::{Ident, NoMemory, OptionalIdent, Seq, Text};
use std::alloc::Global;

/// The parts of an instance: its properties.
fn instance_items(alloc: Global, properties: Vec<Property>) -> Result<Seq<InstanceItem>, NoMemory>
    ensures { IfOk result (λ items. items ≡ map instance_items.Property properties.items) }
{
    let mut items = Vec::with_capacity(alloc, properties.len())?;
    for property in properties {
        items.push(InstanceItem::Property(property))?;
    }
    Ok(Seq::of(items))
}

/// The identifier of the library.
pub fn library_ident(alloc: Global) -> Result<Ident, NoMemory>
    ensures { IfOk result (λ ident. ident ≡ work) }
{
    let text = Text::copy(alloc, b"work")?;
    Ok(Ident::of(text))
}

/// The identifier of the views.
pub fn view_ident(alloc: Global) -> Result<Ident, NoMemory>
    ensures { IfOk result (λ ident. ident ≡ netlist) }
{
    let text = Text::copy(alloc, b"netlist")?;
    Ok(Ident::of(text))
}

/// The instance of this identifier and this name, of the cell of this identifier, with these properties.
fn instance_with(
    alloc: Global,
    ident: &Ident,
    name: &[u8],
    cell: &Ident,
    properties: Vec<Property>,
) -> Result<Instance, NoMemory>
    ensures made { IfOk result
        (λ made. made ≡ instance_for ident.now name.now cell.now properties.items) }
    ensures sound { IsString name.now → AllByRecursion IsProperty properties.items
        → IfOk result IsInstance }
{
    let name = named(alloc, ident, name)?;
    let view = view_ident(alloc)?;
    let cell = copied(alloc, cell)?;
    let library = library_ident(alloc)?;
    let items = instance_items(alloc, properties)?;
    Ok(Instance {
        name,
        view,
        cell,
        library: OptionalIdent::some(library),
        items,
    })
}

/// The instance of this identifier and this name, of the cell of this identifier, with these properties.
pub fn instance_of(
    alloc: Global,
    ident: &Ident,
    name: &[u8],
    cell: &Ident,
    properties: Vec<Property>,
) -> Result<Instance, NoMemory>
    ensures ident { IfOk result (λ made. instance_ident made ≡ ident.now) }
    ensures summary { IfOk result
        (λ made. instance_summary made
        ≡ summary_with name.now cell.now (map value_of properties.items)) }
    ensures sound { IsString name.now → AllByRecursion IsProperty properties.items
        → IfOk result IsInstance }
    ensures no_spare_text { IfOk result (λ made. HasNoSpareText made.name) }
{
    let made = instance_with(alloc, ident, name, cell, properties)?;
    Ok(made)
}
