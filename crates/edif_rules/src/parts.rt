// The ports, instances and nets of a cell, in the order of the text.
ghost use Rattle.std.specs.Prelude.{◌≡◌, ◌++◌, option_to_list, IfOk, OnOk};
ghost use Rattle.std.specs.List.{filter_map, flat_map};
ghost use Rattle.edif_design.specs.Parts.{cell_contents, contents, contents_in, instance_in, instances, net_in, port_in, ports, view_in};
ghost use Rattle.edif_rules.specs.Lists.{interface_ports, seen};

use edif_values::{
    Cell, CellItem, ContentsItem, Instance, InterfaceItem, Net, Port, View, ViewItem,
};
use nl_base::NoMemory;
use std::alloc::Global;

/// Adds the port that the item is, where it is one.
fn push_port<'a>(ports: &mut Vec<&'a Port>, item: &'a InterfaceItem) -> Result<(), NoMemory>
    ensures { OnOk result (seen ports.new.items
        ≡ seen ports.old.items ++ option_to_list (port_in item.now)) }
{
    match item {
        InterfaceItem::Port(port) => {
            ports.push(port)?;
            Ok(())
        }
        _ => Ok(()),
    }
}

/// Adds the ports of an interface.
fn push_interface<'a>(ports: &mut Vec<&'a Port>, items: &'a [InterfaceItem]) -> Result<(), NoMemory>
    ensures { OnOk result (seen ports.new.items
        ≡ seen ports.old.items ++ filter_map port_in items.now) }
{
    for item in items {
        push_port(ports, item)?;
    }
    Ok(())
}

/// Adds the ports of the view that the item is, where it is one.
fn push_view_ports<'a>(ports: &mut Vec<&'a Port>, item: &'a CellItem) -> Result<(), NoMemory>
    ensures { OnOk result (seen ports.new.items
        ≡ seen ports.old.items ++ flat_map interface_ports (option_to_list (view_in item.now))) }
{
    match item {
        CellItem::View(view) => {
            push_interface(ports, view.interface.items())?;
            Ok(())
        }
        _ => Ok(()),
    }
}

/// The ports of a cell.
pub fn ports_of<'a>(alloc: Global, cell: &'a Cell) -> Result<Vec<&'a Port>, NoMemory>
    ensures { IfOk result (λ made. seen made.items ≡ ports cell.now) }
{
    let mut made = Vec::new(alloc);
    for item in cell.items.items() {
        push_view_ports(&mut made, item)?;
    }
    Ok(made)
}

/// Adds the items.
fn push_items<'a>(
    list: &mut Vec<&'a ContentsItem>,
    items: &'a [ContentsItem],
) -> Result<(), NoMemory>
    ensures { OnOk result (seen list.new.items ≡ seen list.old.items ++ items.now) }
{
    for item in items {
        list.push(item)?;
    }
    Ok(())
}

/// Adds the contents that the item is, where it is some.
fn push_contents<'a>(list: &mut Vec<&'a ContentsItem>, item: &'a ViewItem) -> Result<(), NoMemory>
    ensures { OnOk result (seen list.new.items ≡ seen list.old.items ++ contents_in item.now) }
{
    match item {
        ViewItem::Contents(items) => {
            push_items(list, items.items())?;
            Ok(())
        }
        _ => Ok(()),
    }
}

/// Adds the contents of a view.
fn push_view_contents<'a>(list: &mut Vec<&'a ContentsItem>, view: &'a View) -> Result<(), NoMemory>
    ensures { OnOk result (seen list.new.items ≡ seen list.old.items ++ contents view.now) }
{
    for item in view.items.items() {
        push_contents(list, item)?;
    }
    Ok(())
}

/// Adds the contents of the view that the item is, where it is one.
fn push_cell_contents<'a>(
    list: &mut Vec<&'a ContentsItem>,
    item: &'a CellItem,
) -> Result<(), NoMemory>
    ensures { OnOk result (seen list.new.items
        ≡ seen list.old.items ++ flat_map contents (option_to_list (view_in item.now))) }
{
    match item {
        CellItem::View(view) => {
            push_view_contents(list, view)?;
            Ok(())
        }
        _ => Ok(()),
    }
}

/// The parts of a cell's contents.
pub fn contents_of<'a>(alloc: Global, cell: &'a Cell) -> Result<Vec<&'a ContentsItem>, NoMemory>
    ensures { IfOk result (λ made. seen made.items ≡ cell_contents cell.now) }
{
    let mut made = Vec::new(alloc);
    for item in cell.items.items() {
        push_cell_contents(&mut made, item)?;
    }
    Ok(made)
}

/// Adds the instance that the item is, where it is one.
fn push_instance<'a>(
    instances: &mut Vec<&'a Instance>,
    item: &'a ContentsItem,
) -> Result<(), NoMemory>
    ensures { OnOk result (seen instances.new.items
        ≡ seen instances.old.items ++ option_to_list (instance_in item.now)) }
{
    match item {
        ContentsItem::Instance(instance) => {
            instances.push(instance)?;
            Ok(())
        }
        _ => Ok(()),
    }
}

/// Adds the instances among the items.
fn push_instances<'a>(
    list: &mut Vec<&'a Instance>,
    items: &'a [ContentsItem],
) -> Result<(), NoMemory>
    ensures { OnOk result (seen list.new.items
        ≡ seen list.old.items ++ filter_map instance_in items.now) }
{
    for item in items {
        push_instance(list, item)?;
    }
    Ok(())
}

/// Adds the instances in the contents that the item is, where it is some.
fn push_contents_instances<'a>(
    list: &mut Vec<&'a Instance>,
    item: &'a ViewItem,
) -> Result<(), NoMemory>
    ensures { OnOk result (seen list.new.items
        ≡ seen list.old.items ++ filter_map instance_in (contents_in item.now)) }
{
    match item {
        ViewItem::Contents(items) => {
            push_instances(list, items.items())?;
            Ok(())
        }
        _ => Ok(()),
    }
}

/// Adds the instances of a view.
fn push_view_instances<'a>(list: &mut Vec<&'a Instance>, view: &'a View) -> Result<(), NoMemory>
    ensures { OnOk result (seen list.new.items
        ≡ seen list.old.items ++ filter_map instance_in (contents view.now)) }
{
    for item in view.items.items() {
        push_contents_instances(list, item)?;
    }
    Ok(())
}

/// Adds the instances of the view that the item is, where it is one.
fn push_cell_instances<'a>(list: &mut Vec<&'a Instance>, item: &'a CellItem) -> Result<(), NoMemory>
    ensures { OnOk result (seen list.new.items ≡ seen list.old.items
        ++ filter_map instance_in (flat_map contents (option_to_list (view_in item.now)))) }
{
    match item {
        CellItem::View(view) => {
            push_view_instances(list, view)?;
            Ok(())
        }
        _ => Ok(()),
    }
}

/// The instances of a cell, with no list of all parts of its contents.
pub fn instances_of<'a>(alloc: Global, cell: &'a Cell) -> Result<Vec<&'a Instance>, NoMemory>
    ensures { IfOk result (λ made. seen made.items ≡ instances cell.now) }
{
    let mut made = Vec::new(alloc);
    for item in cell.items.items() {
        push_cell_instances(&mut made, item)?;
    }
    Ok(made)
}

/// The instances among the parts of contents.
pub fn instances_in<'a>(
    alloc: Global,
    items: &[&'a ContentsItem],
) -> Result<Vec<&'a Instance>, NoMemory>
    ensures { IfOk result (λ made. seen made.items ≡ filter_map instance_in (seen items.now)) }
{
    let mut made = Vec::new(alloc);
    for item in items {
        push_instance(&mut made, item)?;
    }
    Ok(made)
}

/// Adds the net that the item is, where it is one.
fn push_net<'a>(nets: &mut Vec<&'a Net>, item: &'a ContentsItem) -> Result<(), NoMemory>
    ensures { OnOk result (seen nets.new.items
        ≡ seen nets.old.items ++ option_to_list (net_in item.now)) }
{
    match item {
        ContentsItem::Net(net) => {
            nets.push(net)?;
            Ok(())
        }
        _ => Ok(()),
    }
}

/// The nets among the parts of contents.
pub fn nets_in<'a>(alloc: Global, items: &[&'a ContentsItem]) -> Result<Vec<&'a Net>, NoMemory>
    ensures { IfOk result (λ made. seen made.items ≡ filter_map net_in (seen items.now)) }
{
    let mut made = Vec::new(alloc);
    for item in items {
        push_net(&mut made, item)?;
    }
    Ok(made)
}
