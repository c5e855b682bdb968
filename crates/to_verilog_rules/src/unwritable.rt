// Names that cannot be written.
ghost use Rattle.std.specs.Prelude.{◌++◌, codes};
ghost use Rattle.to_verilog_rules.specs.Found.{IsFirst};
ghost use Rattle.to_verilog_rules.specs.Rules.{unwritable, unwritable_instances, unwritable_names, unwritable_nets, unwritable_object, unwritable_ports, unwritable_props};

use crate::names::is_name;
use net_hier::{HCell, HInst, HNet, HPort, HProp};

/// A name that cannot be written, and the word for its object.
#[derive(Clone, Copy)]
pub struct Unwritable<'a> {
    pub kind: &'static [u8],
    pub name: &'a [u8],
}

/// The name of an object, where it cannot be written.
fn in_name<'a>(kind: &'static [u8], name: &'a [u8]) -> Option<Unwritable<'a>>
    ensures { IsFirst (unwritable kind.now name.now) result }
{
    if is_name(name) {
        return None;
    }
    Some(Unwritable { kind, name })
}

/// The first name among properties that cannot be written.
pub fn in_props(props: &[HProp]) -> Option<Unwritable<'_>>
    ensures { IsFirst (unwritable_props props.now) result }
{
    for prop in props {
        if let Some(found) = in_name(b"property", prop.name.bytes()) {
            return Some(found);
        }
    }
    None
}

/// That of an object with properties.
fn in_object<'a>(kind: &'static [u8], name: &'a [u8], props: &'a [HProp]) -> Option<Unwritable<'a>>
    ensures { IsFirst (unwritable_object kind.now name.now props.now) result }
{
    if let Some(found) = in_name(kind, name) {
        return Some(found);
    }
    in_props(props)
}

/// That of ports and their properties.
fn in_ports(ports: &[HPort]) -> Option<Unwritable<'_>>
    ensures { IsFirst (unwritable_ports ports.now) result }
{
    for port in ports {
        if let Some(found) = in_object(b"port", port.name.bytes(), port.props.items()) {
            return Some(found);
        }
    }
    None
}

/// That of instances and their properties.
fn in_instances(instances: &[HInst]) -> Option<Unwritable<'_>>
    ensures { IsFirst (unwritable_instances instances.now) result }
{
    for instance in instances {
        if let Some(found) = in_object(b"instance", instance.name.bytes(), instance.props.items()) {
            return Some(found);
        }
    }
    None
}

/// That of the properties of nets.
fn in_nets(nets: &[HNet]) -> Option<Unwritable<'_>>
    ensures { IsFirst (unwritable_nets nets.now) result }
{
    for net in nets {
        if let Some(found) = in_props(net.props.items()) {
            return Some(found);
        }
    }
    None
}

/// That of a cell with its properties, and of its ports.
fn in_outside(cell: &HCell) -> Option<Unwritable<'_>>
    ensures { IsFirst
        (unwritable_object (codes "cell") cell.now.name cell.now.props
        ++ unwritable_ports cell.now.ports) result }
{
    if let Some(found) = in_object(b"cell", cell.name.bytes(), cell.props.items()) {
        return Some(found);
    }
    in_ports(cell.ports.items())
}

/// That of the instances of a cell, and of its nets.
fn in_inside(cell: &HCell) -> Option<Unwritable<'_>>
    ensures { IsFirst
        (unwritable_instances cell.now.instances ++ unwritable_nets cell.now.nets) result }
{
    if let Some(found) = in_instances(cell.instances.items()) {
        return Some(found);
    }
    in_nets(cell.nets.items())
}

/// The first name of a cell that cannot be written: the cell, its properties, each port with its properties, each instance with its
/// properties, the properties of its nets.
#[tactic(auto, unfolding(crate::specs::Rules::unwritable_names))]
pub fn in_cell(cell: &HCell) -> Option<Unwritable<'_>>
    ensures { IsFirst (unwritable_names cell.now) result }
{
    if let Some(found) = in_outside(cell) {
        return Some(found);
    }
    in_inside(cell)
}
