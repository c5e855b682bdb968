// A cell of the file.
ghost use Rattle.std.specs.Prelude.{◌≡◌, ◌++◌, ◌∷◌, ◌<◌, List, [], None, get_or, length, map, IfOk};
ghost use Rattle.std.specs.List.{AllByRecursion};
ghost use Rattle.edif_values.specs.Values.{IsWord, IsProperty};
ghost use Rattle.edif_values.specs.declared.cell.CellItem.TheVariants as cell_items;
ghost use Rattle.edif_values.specs.declared.instance.Instance.{Instance as InstanceValue};
ghost use Rattle.edif_values.specs.declared.net.Net.{Net as NetValue};
ghost use Rattle.edif_written.specs.Written.{cell_of as cell_for, contents_items_of, contents_of as contents_for, netlist};
ghost use Rattle.edif_written.specs.Naming.{name_for, seen, value_of};
ghost use Rattle.edif_written.specs.Sound.{AreSoundProps};
ghost use Rattle.net_live.specs.Last.{last_of};
ghost use Rattle.edif_plans.specs.Made.{new_cell_for, output_for};

use edif_naming::{named, properties_of};
use edif_parts::{interface_of, output_port, view_ident};
use edif_plans::Head;
use edif_values::{
    Cell, CellItem, CellKind, ContentsItem, InterfaceItem, NameDef, Port, PortName, Property, View,
    ViewItem,
};
use net_hier::{ConstName, HCell, HProp};
use net_live::{add_props, last_values};
use nl_base::{Ident, InlineList, NoMemory, OptionalText, Seq};
use std::alloc::Global;

/// The parts of a view: its contents, where there are any.
fn view_items(contents: Seq<ContentsItem>) -> InlineList<ViewItem>
    ensures { result ≡ contents_items_of contents }
{
    if contents.is_empty() {
        return InlineList::empty();
    }
    InlineList::one(ViewItem::Contents(contents))
}

/// The view with this interface and these contents.
fn view_of(
    alloc: Global,
    interface: Seq<InterfaceItem>,
    contents: Seq<ContentsItem>,
) -> Result<View, NoMemory>
    ensures { IfOk result (λ view. view
        ≡ record {
          name = record { ident = netlist; text = None };
          interface = interface;
          items = contents_items_of contents;
        }) }
{
    let ident = view_ident(alloc)?;
    let items = view_items(contents);
    Ok(View {
        name: NameDef {
            ident,
            text: OptionalText::none(),
        },
        interface,
        items,
    })
}

/// The parts of a cell: its view and its properties.
fn cell_items(
    alloc: Global,
    view: View,
    properties: Vec<Property>,
) -> Result<Seq<CellItem>, NoMemory>
    ensures { IfOk result (λ items. items
        ≡ cell_items.View view ∷ map cell_items.Property properties.items) }
{
    let mut items = Vec::with_capacity(alloc, properties.len().saturating_add(1))?;
    items.push(CellItem::View(view))?;
    for property in properties {
        items.push(CellItem::Property(property))?;
    }
    Ok(Seq::of(items))
}

/// The properties of the cell, and then those of the design.
fn cell_props<'a>(
    alloc: Global,
    cell: &'a HCell,
    design_props: &'a [HProp],
) -> Result<Vec<&'a HProp>, NoMemory>
    ensures { IfOk result (λ found. seen found.items ≡ cell.now.props ++ design_props.now) }
{
    let mut found = Vec::new(alloc);
    add_props(cell.props.items(), &mut found)?;
    add_props(design_props, &mut found)?;
    Ok(found)
}

/// The properties of the cell that is written, the last value of each name.
pub(crate) fn cell_properties(
    alloc: Global,
    cell: &HCell,
    design_props: &[HProp],
) -> Result<Vec<Property>, NoMemory>
    ensures values { IfOk result
        (λ made. map value_of made.items ≡ last_of (cell.now.props ++ design_props.now)) }
    ensures sound { AreSoundProps (cell.now.props ++ design_props.now)
        → IfOk result (λ made. AllByRecursion IsProperty made.items) }
{
    let props = cell_props(alloc, cell, design_props)?;
    let found = props.as_slice();
    let kept = last_values(alloc, found)?;
    let last = kept.as_slice();
    let properties = properties_of(alloc, last)?;
    Ok(properties)
}

/// The identifier is a word.
pub(crate) fn word_of(ident: &Ident)
    ensures { IsWord ident.now }
{
    let _bytes = ident.bytes();
}

/// The cell with these parts.
#[tactic(auto, unfolding(edif_written::specs::Written::cell_of))]
pub(crate) fn cell_with(
    alloc: Global,
    head: &Head,
    name: &[u8],
    ports: Vec<Port>,
    contents: Vec<ContentsItem>,
    properties: Vec<Property>,
) -> Result<Cell, NoMemory>
    ensures { (instances : List InstanceValue) (nets : List NetValue)
        → contents.items ≡ contents_for instances nets
        → IfOk result (λ made. made
        ≡ cell_for (name_for head.now.cell name.now) ports.items instances nets properties.items) }
{
    let contents = Seq::of(contents);
    let interface = interface_of(alloc, ports)?;
    let view = view_of(alloc, interface, contents)?;
    let items = cell_items(alloc, view, properties)?;
    let name = named(alloc, &head.cell, name)?;
    Ok(Cell {
        name,
        kind: CellKind::Generic,
        items,
    })
}

/// The port of the cell that is written for a constant.
fn constant_port(alloc: Global, head: &Head, constant: &ConstName) -> Result<Vec<Port>, NoMemory>
    requires { 0 < length head.now.ports }
    ensures { IfOk result (λ made. made.items
        ≡ output_for (get_or head.now.ports 0 []) constant.now.port ∷ []) }
{
    let idents = head.ports.items();
    let name = named(alloc, &idents[0], constant.port.bytes())?;
    let port = output_port(alloc, PortName::Single(name))?;
    let mut ports = Vec::new(alloc);
    ports.push(port)?;
    Ok(ports)
}

/// The cell that is written for a constant of which the design has no cell.
pub fn new_cell(alloc: Global, head: &Head, constant: &ConstName) -> Result<Cell, NoMemory>
    requires { 0 < length head.now.ports }
    ensures { IfOk result (λ made. made ≡ new_cell_for head.now constant.now) }
{
    let ports = constant_port(alloc, head, constant)?;
    let name = constant.cell.bytes();
    let made = cell_with(alloc, head, name, ports, Vec::new(alloc), Vec::new(alloc))?;
    Ok(made)
}
