// The ports of a cell.
ghost use Rattle.std.specs.Prelude.{◌≡◌, ◌∷◌, [], length, map, IfOk};
ghost use Rattle.std.specs.List.{AllByRecursion};
ghost use Rattle.nl_base.specs.declared.value.Dir.TheVariants as dirs;
ghost use Rattle.edif_values.specs.Values.{IsProperty, IsPort};
ghost use Rattle.edif_values.specs.declared.port.PortItem.TheVariants as port_items;
ghost use Rattle.edif_values.specs.declared.view.InterfaceItem.TheVariants as interface_items;
ghost use Rattle.edif_design.specs.CellRules.{port_ident};
ghost use Rattle.net_live.specs.Last.{last_of as last_values_of};
ghost use Rattle.edif_written.specs.Naming.{value_of};
ghost use Rattle.edif_written.specs.Sound.{AreSoundProps};
ghost use Rattle.edif_plans.specs.Summaries.{summary_for, summary_of};
ghost use Rattle.edif_plans.specs.PortNames.{HasPlainText};
ghost use Rattle.edif_plans.specs.Sound.{IsSoundPort};

use edif_naming::{last_properties, port_named};
use edif_values::{InterfaceItem, Port, PortItem, PortName, Property};
use net_hier::HPort;
use nl_base::{Boxed, Dir, Ident, InlineList, NoMemory, Seq};
use std::alloc::Global;

/// The parts of a port: its direction and its properties.
fn port_items(
    alloc: Global,
    dir: Dir,
    properties: Vec<Property>,
) -> Result<InlineList<PortItem>, NoMemory>
    ensures { IfOk result (λ items. items
        ≡ port_items.Direction dir ∷ map port_items.Property properties.items) }
{
    let mut items = InlineList::one(PortItem::Direction(dir));
    for property in properties {
        items.push(alloc, PortItem::Property(Boxed::new(alloc, property)?))?;
    }
    Ok(items)
}

/// The properties of a port, the last value of each name.
fn port_properties(alloc: Global, port: &HPort) -> Result<Vec<Property>, NoMemory>
    ensures values { IfOk result (λ made. map value_of made.items ≡ last_values_of port.now.props) }
    ensures sound { AreSoundProps port.now.props
        → IfOk result (λ made. AllByRecursion IsProperty made.items) }
{
    let properties = last_properties(alloc, port.props.items())?;
    Ok(properties)
}

/// The port with this identifier.
fn port_of(alloc: Global, ident: &Ident, port: &HPort) -> Result<Port, NoMemory>
    ensures ident { IfOk result (λ made. port_ident made ≡ ident.now) }
    ensures summary { IfOk result (λ made. summary_of made ≡ summary_for port.now) }
    ensures sound { IsSoundPort port.now → IfOk result IsPort }
    ensures text { IfOk result (λ made. HasPlainText made.name) }
{
    let name = port_named(alloc, ident, port)?;
    let properties = port_properties(alloc, port)?;
    let items = port_items(alloc, port.dir, properties)?;
    Ok(Port { name, items })
}

/// The ports of a cell, which have these identifiers; the text of an array is its name and its range in square brackets.
pub fn ports_of(alloc: Global, idents: &[Ident], ports: &[HPort]) -> Result<Vec<Port>, NoMemory>
    requires { length idents.now ≡ length ports.now }
    ensures idents { IfOk result (λ made. map port_ident made.items ≡ idents.now) }
    ensures summaries { IfOk result
        (λ made. map summary_of made.items ≡ map summary_for ports.now) }
    ensures sound { AllByRecursion IsSoundPort ports.now
        → IfOk result (λ made. AllByRecursion IsPort made.items) }
    ensures texts { IfOk result (λ made.
        AllByRecursion (λ port. HasPlainText port.name) made.items) }
{
    let mut made = Vec::with_capacity(alloc, ports.len())?;
    for place in 0..ports.len() {
        let port = port_of(alloc, &idents[place], &ports[place])?;
        made.push(port)?;
    }
    Ok(made)
}

/// The interface of these ports.
pub fn interface_of(alloc: Global, ports: Vec<Port>) -> Result<Seq<InterfaceItem>, NoMemory>
    ensures { IfOk result (λ items. items ≡ map interface_items.Port ports.items) }
{
    let mut items = Vec::with_capacity(alloc, ports.len())?;
    for port in ports {
        items.push(InterfaceItem::Port(port))?;
    }
    Ok(Seq::of(items))
}

/// The port of this name, a scalar output without properties.
pub fn output_port(alloc: Global, name: PortName) -> Result<Port, NoMemory>
    ensures { IfOk result (λ made. made
        ≡ record { name = name; items = port_items.Direction dirs.Output ∷ [] }) }
{
    let items = port_items(alloc, Dir::Output, Vec::new(alloc))?;
    Ok(Port { name, items })
}
