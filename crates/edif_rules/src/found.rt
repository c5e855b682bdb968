// Where the references in the nets of a cell lead.
ghost use Rattle.std.specs.Prelude.{◌≡◌, None, Some, option_map, IfOk, MatchOption};
ghost use Rattle.edif_design.specs.CellRules.{bit_of, size_of};
ghost use Rattle.edif_rules.specs.Idents.{instances_meaning};
ghost use Rattle.edif_rules.specs.Scopes.{found_by, found_in, found_inner, found_of, inner_ports, instance_names, lists_of, node_found, port_at, present};
ghost use Rattle.edif_rules.specs.Spots.{node_at, node_of_bit};

use crate::bits::BitSpot;
use crate::port_names::port_size;
use crate::sizes::bit_of;
use crate::tables::{InstanceTable, PortTable};
use edif_lookup::Meaning;
use edif_values::{Port, PortRef, original};
use nl_base::{Ident, NoMemory};
use std::alloc::Global;

/// What the references in a cell's nets are looked up in: the cell's own ports, its instances, for each of these the number of its cell
/// where that is meant, and the ports of each cell of the file.
#[derive(Clone, Copy)]
pub struct CellScope<'a, 's> {
    pub own: &'s PortTable<'a>,
    pub instances: &'s InstanceTable<'a>,
    pub below: &'s [Option<u32>],
    pub port_tables: &'s [PortTable<'a>],
}

/// Where a reference leads: to a port of the cell or of the instance of this number, or nowhere, and why.
#[derive(Clone, Copy)]
pub enum Target {
    Port(Option<u32>, u32),
    NoInstance,
    SeveralInstances,
    NoCell,
    NoPort(Option<u32>),
    SeveralPorts,
}

/// The ports of the cell that the instance of this number is of.
fn inner_ports<'a, 's>(scope: &CellScope<'a, 's>, instance: u32) -> Option<&'s PortTable<'a>>
    ensures { MatchOption result (inner_ports (lists_of scope.now) instance
        ≡ None) (λ table. inner_ports (lists_of scope.now) instance ≡ Some table.now) }
{
    match scope.below.get(instance as usize) {
        Some(Some(cell)) => scope.port_tables.get(*cell as usize),
        _ => None,
    }
}

/// The port of these that is meant.
fn find_in(
    alloc: Global,
    ports: &PortTable<'_>,
    instance: Option<u32>,
    spelling: &Ident,
) -> Result<Target, NoMemory>
    ensures { IfOk result (λ found. found ≡ found_in instance ports.now spelling.now) }
{
    match ports.find(alloc, spelling.bytes())? {
        Meaning::Nothing => Ok(Target::NoPort(instance)),
        Meaning::One(port) => Ok(Target::Port(instance, port)),
        Meaning::Several => Ok(Target::SeveralPorts),
    }
}

/// The port of the instance of this number that is meant.
fn find_inner(
    alloc: Global,
    scope: &CellScope<'_, '_>,
    instance: u32,
    spelling: &Ident,
) -> Result<Target, NoMemory>
    ensures { IfOk result (λ found. found
        ≡ found_inner (lists_of scope.now) instance spelling.now) }
{
    match inner_ports(scope, instance) {
        None => Ok(Target::NoCell),
        Some(ports) => {
            let found = find_in(alloc, ports, Some(instance), spelling)?;
            Ok(found)
        }
    }
}

/// The port of an instance that is meant.
fn find_by_instance(
    alloc: Global,
    scope: &CellScope<'_, '_>,
    instance: &[u8],
    spelling: &Ident,
) -> Result<Target, NoMemory>
    ensures { IfOk result (λ found. found
        ≡ found_by (lists_of scope.now) spelling.now
        (instances_meaning (lists_of scope.now).instances instance.now)) }
{
    match scope.instances.find(alloc, instance)? {
        Meaning::Nothing => Ok(Target::NoInstance),
        Meaning::Several => Ok(Target::SeveralInstances),
        Meaning::One(number) => {
            let found = find_inner(alloc, scope, number, spelling)?;
            Ok(found)
        }
    }
}

/// Where a reference leads.
pub fn find_port(
    alloc: Global,
    scope: &CellScope<'_, '_>,
    reference: &PortRef,
) -> Result<Target, NoMemory>
    ensures { IfOk result (λ found. found ≡ found_of (lists_of scope.now) reference.now) }
{
    match reference.instance.bytes() {
        None => {
            let found = find_in(alloc, scope.own, None, &reference.port)?;
            Ok(found)
        }
        Some(instance) => {
            let found = find_by_instance(alloc, scope, instance, &reference.port)?;
            Ok(found)
        }
    }
}

/// The port of this number, of the cell or of the instance.
pub fn port_at<'a>(scope: &CellScope<'a, '_>, instance: Option<u32>, port: u32) -> Option<&'a Port>
    ensures { MatchOption result (port_at (lists_of scope.now) instance port
        ≡ None) (λ meant. port_at (lists_of scope.now) instance port ≡ Some meant.now) }
{
    match instance {
        None => scope.own.get(port),
        Some(instance) => match inner_ports(scope, instance) {
            None => None,
            Some(ports) => ports.get(port),
        },
    }
}

/// The original name of the instance of this number.
pub fn instance_name<'a>(scope: &CellScope<'a, '_>, instance: Option<u32>) -> Option<&'a [u8]>
    ensures { present result ≡ instance_names (lists_of scope.now).instances instance }
{
    match scope.instances.get(instance?) {
        None => None,
        Some(instance) => Some(original(&instance.name)),
    }
}

/// The member of a reference.
pub fn member_of(reference: &PortRef) -> Option<i64>
    ensures { result ≡ reference.now.member }
{
    match reference.member.get() {
        None => None,
        Some(member) => Some(member.value()),
    }
}

/// The bit of this port that is meant.
fn spot_in(meant: &Port, instance: Option<u32>, port: u32, member: Option<i64>) -> Option<BitSpot>
    ensures { option_map node_at result
        ≡ option_map (node_of_bit instance port) (bit_of (size_of meant.now.name) member) }
{
    let bit = bit_of(port_size(meant), member)?;
    Some(BitSpot {
        instance,
        port,
        bit,
    })
}

/// The bit that a reference means, where it leads to one.
pub fn spot_of(scope: &CellScope<'_, '_>, found: Target, member: Option<i64>) -> Option<BitSpot>
    ensures { option_map node_at result ≡ node_found (lists_of scope.now) found member }
{
    match found {
        Target::Port(instance, port) => match port_at(scope, instance, port) {
            None => None,
            Some(meant) => spot_in(meant, instance, port, member),
        },
        _ => None,
    }
}
