// The properties of objects under their original names.
ghost use Rattle.std.specs.Prelude.{◌≡◌, ◌++◌, option_to_list, Some, IfOk, OnOk};
ghost use Rattle.std.specs.List.{filter_map, flat_map};
ghost use Rattle.edif_design.specs.Design.{cell_properties, design_properties, design_property, instance_property, interface_property, net_property, port_property, property_value, view_property};

use edif_values::{
    Cell, CellItem, Design, DesignItem, InstanceItem, InterfaceItem, NetItem, PortItem, Property,
    ViewItem, original,
};
use net_hier::HProp;
use nl_base::{NoMemory, PropValue, Seq, Text};
use std::alloc::Global;

/// A value like this one.
fn copy_value(alloc: Global, value: &PropValue) -> Result<PropValue, NoMemory>
    ensures { IfOk result (λ made. made ≡ value.now) }
{
    match value {
        PropValue::Str(text) => {
            let text = Text::copy(alloc, text.bytes())?;
            Ok(PropValue::Str(text))
        }
        PropValue::Int(int) => Ok(PropValue::Int(*int)),
        PropValue::Flag(flag) => Ok(PropValue::Flag(*flag)),
        PropValue::Scaled(scaled) => Ok(PropValue::Scaled(*scaled)),
    }
}

/// A property under its original name.
fn property_of(alloc: Global, property: &Property) -> Result<HProp, NoMemory>
    ensures { IfOk result (λ made. made ≡ property_value property.now) }
{
    let name = Text::copy(alloc, original(&property.name))?;
    let value = copy_value(alloc, &property.value)?;
    Ok(HProp { name, value })
}

/// Adds the property.
fn push_property(alloc: Global, props: &mut Seq<HProp>, property: &Property) -> Result<(), NoMemory>
    ensures { OnOk result (props.new
        ≡ props.old ++ option_to_list (Some (property_value property.now))) }
{
    let made = property_of(alloc, property)?;
    props.push(made)?;
    Ok(())
}

/// Adds the property that the item is, where it is one.
fn push_of_port(alloc: Global, props: &mut Seq<HProp>, item: &PortItem) -> Result<(), NoMemory>
    ensures { OnOk result (props.new ≡ props.old ++ option_to_list (port_property item.now)) }
{
    match item {
        PortItem::Property(property) => {
            push_property(alloc, props, property.get())?;
            Ok(())
        }
        _ => Ok(()),
    }
}

/// The properties of a port.
pub fn port_properties(alloc: Global, items: &[PortItem]) -> Result<Seq<HProp>, NoMemory>
    ensures { IfOk result (λ made. made ≡ filter_map port_property items.now) }
{
    let mut made = Seq::empty(alloc);
    for item in items {
        push_of_port(alloc, &mut made, item)?;
    }
    Ok(made)
}

/// Adds the property that the item is, where it is one.
fn push_of_instance(
    alloc: Global,
    props: &mut Seq<HProp>,
    item: &InstanceItem,
) -> Result<(), NoMemory>
    ensures { OnOk result (props.new ≡ props.old ++ option_to_list (instance_property item.now)) }
{
    match item {
        InstanceItem::Property(property) => {
            push_property(alloc, props, property)?;
            Ok(())
        }
        _ => Ok(()),
    }
}

/// The properties of an instance.
pub fn instance_properties(alloc: Global, items: &[InstanceItem]) -> Result<Seq<HProp>, NoMemory>
    ensures { IfOk result (λ made. made ≡ filter_map instance_property items.now) }
{
    let mut made = Seq::empty(alloc);
    for item in items {
        push_of_instance(alloc, &mut made, item)?;
    }
    Ok(made)
}

/// Adds the property that the item is, where it is one.
fn push_of_net(alloc: Global, props: &mut Seq<HProp>, item: &NetItem) -> Result<(), NoMemory>
    ensures { OnOk result (props.new ≡ props.old ++ option_to_list (net_property item.now)) }
{
    match item {
        NetItem::Property(property) => {
            push_property(alloc, props, property)?;
            Ok(())
        }
        _ => Ok(()),
    }
}

/// The properties of a net.
pub fn net_properties(alloc: Global, items: &[NetItem]) -> Result<Seq<HProp>, NoMemory>
    ensures { IfOk result (λ made. made ≡ filter_map net_property items.now) }
{
    let mut made = Seq::empty(alloc);
    for item in items {
        push_of_net(alloc, &mut made, item)?;
    }
    Ok(made)
}

/// Adds the property that the item is, where it is one.
fn push_of_interface(
    alloc: Global,
    props: &mut Seq<HProp>,
    item: &InterfaceItem,
) -> Result<(), NoMemory>
    ensures { OnOk result (props.new ≡ props.old ++ option_to_list (interface_property item.now)) }
{
    match item {
        InterfaceItem::Property(property) => {
            push_property(alloc, props, property)?;
            Ok(())
        }
        _ => Ok(()),
    }
}

/// Adds the properties of an interface.
fn push_interface(
    alloc: Global,
    props: &mut Seq<HProp>,
    items: &[InterfaceItem],
) -> Result<(), NoMemory>
    ensures { OnOk result (props.new ≡ props.old ++ filter_map interface_property items.now) }
{
    for item in items {
        push_of_interface(alloc, props, item)?;
    }
    Ok(())
}

/// Adds the property that the item is, where it is one.
fn push_of_view(alloc: Global, props: &mut Seq<HProp>, item: &ViewItem) -> Result<(), NoMemory>
    ensures { OnOk result (props.new ≡ props.old ++ option_to_list (view_property item.now)) }
{
    match item {
        ViewItem::Property(property) => {
            push_property(alloc, props, property.get())?;
            Ok(())
        }
        _ => Ok(()),
    }
}

/// Adds the properties of a view, but for those of its interface.
fn push_view(alloc: Global, props: &mut Seq<HProp>, items: &[ViewItem]) -> Result<(), NoMemory>
    ensures { OnOk result (props.new ≡ props.old ++ filter_map view_property items.now) }
{
    for item in items {
        push_of_view(alloc, props, item)?;
    }
    Ok(())
}

/// Adds the properties of a part of a cell.
fn push_of_cell(alloc: Global, props: &mut Seq<HProp>, item: &CellItem) -> Result<(), NoMemory>
    ensures { OnOk result (props.new ≡ props.old ++ cell_properties item.now) }
{
    match item {
        CellItem::View(view) => {
            push_interface(alloc, props, view.interface.items())?;
            push_view(alloc, props, view.items.items())?;
            Ok(())
        }
        CellItem::Property(property) => {
            push_property(alloc, props, property)?;
            Ok(())
        }
        _ => Ok(()),
    }
}

/// The properties of a cell.
pub fn all_properties(alloc: Global, cell: &Cell) -> Result<Seq<HProp>, NoMemory>
    ensures { IfOk result (λ made. made ≡ flat_map cell_properties cell.now.items) }
{
    let mut made = Seq::empty(alloc);
    for item in cell.items.items() {
        push_of_cell(alloc, &mut made, item)?;
    }
    Ok(made)
}

/// Adds the property that the item is, where it is one.
fn push_of_design(alloc: Global, props: &mut Seq<HProp>, item: &DesignItem) -> Result<(), NoMemory>
    ensures { OnOk result (props.new ≡ props.old ++ option_to_list (design_property item.now)) }
{
    match item {
        DesignItem::Property(property) => {
            push_property(alloc, props, property)?;
            Ok(())
        }
        _ => Ok(()),
    }
}

/// Adds the properties of a design.
pub fn push_properties(
    alloc: Global,
    props: &mut Seq<HProp>,
    design: &Design,
) -> Result<(), NoMemory>
    ensures { OnOk result (props.new ≡ props.old ++ design_properties design.now) }
{
    for item in design.items.items() {
        push_of_design(alloc, props, item)?;
    }
    Ok(())
}
