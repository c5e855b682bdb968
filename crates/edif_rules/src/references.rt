// What the references in the nets of a cell break.
ghost use Rattle.std.specs.Prelude.{◌≡◌, ◌∷◌, ◌++◌, true, [], None, IfOk, OnOk};
ghost use Rattle.edif_lookup.specs.Refusals.{broken, if_some, lowest};
ghost use Rattle.edif_design.specs.CellRules.{bit_of, index_names, is_wide, member_refusals, port_name, size_of};
ghost use Rattle.edif_rules.specs.RefRefusals.{bit_refusals_by, found_refusals, names_of, port_refusals_at, taken_refusals};
ghost use Rattle.edif_rules.specs.Scopes.{lists_of, port_at};
ghost use Rattle.edif_rules.specs.Spots.{node_of_bit};

use crate::bits::{BitSpot, TakenBits};
use crate::found::{CellScope, Target, instance_name, member_of, port_at};
use crate::indexes::{Indexes, index_text, member_text};
use crate::naming::port_names;
use crate::port_names::{name_and_indexes, port_name, port_size};
use crate::sizes::bit_of;
use edif_lookup::{one_name, refusal, two_names};
use edif_values::{Port, PortRef};
use nl_base::{Ident, NoMemory, OptionalIdent, Refusal, Rule, Seq, Text};
use std::alloc::Global;

/// The original names of a net and of its cell.
#[derive(Clone, Copy)]
pub struct NetNames<'s> {
    pub cell: &'s [u8],
    pub net: &'s [u8],
}

/// The refusal by this rule, with these names.
#[tactic(auto, unfolding(edif_lookup::specs::Refusals::lowest, edif_lookup::specs::Refusals::lower))]
pub(crate) fn refused(
    alloc: Global,
    rule: Rule,
    cell: &[u8],
    names: Seq<Text>,
) -> Result<Option<Refusal>, NoMemory>
    ensures { IfOk result (λ made. made ≡ lowest (broken true rule cell.now names)) }
{
    let made = refusal(alloc, rule, cell, names)?;
    Ok(Some(made))
}

/// Nothing is broken.
#[tactic(auto, unfolding(edif_lookup::specs::Refusals::lowest))]
pub(crate) fn unbroken() -> Option<Refusal>
    ensures { result ≡ lowest [] }
{
    None
}

/// The refusal of an instanceRef that means no instance.
fn no_instance(
    alloc: Global,
    names: &NetNames<'_>,
    spelling: &OptionalIdent,
) -> Result<Option<Refusal>, NoMemory>
    ensures { IfOk result (λ found. found
        ≡ lowest (if_some spelling.now
        (λ s. broken true Rule.E7 names.now.cell.now (names.now.net.now ∷ (s ∷ []))))) }
{
    match spelling.bytes() {
        None => Ok(unbroken()),
        Some(spelling) => {
            let told = two_names(alloc, names.net, spelling)?;
            let found = refused(alloc, Rule::E7, names.cell, told)?;
            Ok(found)
        }
    }
}

/// The refusal of an instanceRef that may mean several instances.
fn several_instances(
    alloc: Global,
    names: &NetNames<'_>,
    spelling: &OptionalIdent,
) -> Result<Option<Refusal>, NoMemory>
    ensures { IfOk result (λ found. found
        ≡ lowest (if_some spelling.now (λ s. broken true Rule.E6 names.now.cell.now (s ∷ [])))) }
{
    match spelling.bytes() {
        None => Ok(unbroken()),
        Some(spelling) => {
            let told = one_name(alloc, spelling)?;
            let found = refused(alloc, Rule::E6, names.cell, told)?;
            Ok(found)
        }
    }
}

/// The refusal of a portRef that means no port.
fn no_port(
    alloc: Global,
    scope: &CellScope<'_, '_>,
    names: &NetNames<'_>,
    instance: Option<u32>,
    spelling: &Ident,
) -> Result<Option<Refusal>, NoMemory>
    ensures { IfOk result (λ found. found
        ≡ lowest (broken true Rule.E8 names.now.cell.now
        (names_of (lists_of scope.now) names.now.net.now instance spelling.now))) }
{
    let told = port_names(
        alloc,
        names.net,
        instance_name(scope, instance),
        spelling.bytes(),
    )?;
    let found = refused(alloc, Rule::E8, names.cell, told)?;
    Ok(found)
}

/// The refusal of a portRef that may mean several ports.
fn several_ports(
    alloc: Global,
    names: &NetNames<'_>,
    spelling: &Ident,
) -> Result<Option<Refusal>, NoMemory>
    ensures { IfOk result (λ found. found
        ≡ lowest (broken true Rule.E6 names.now.cell.now (spelling.now ∷ []))) }
{
    let told = one_name(alloc, spelling.bytes())?;
    let found = refused(alloc, Rule::E6, names.cell, told)?;
    Ok(found)
}

/// Whether a port of this size has two or more bits.
fn is_wide(size: Option<i64>) -> bool
    ensures { result ≡ is_wide size }
{
    match size {
        None => false,
        Some(size) => size > 1,
    }
}

/// The refusal of a reference that means no bit of its port, with these names.
fn no_bit(
    alloc: Global,
    cell: &[u8],
    told: Seq<Text>,
    size: Option<i64>,
    member: Option<i64>,
) -> Result<Option<Refusal>, NoMemory>
    requires { bit_of size member ≡ None }
    ensures { IfOk result (λ found. found ≡ lowest (member_refusals cell.now told size member)) }
{
    match member {
        None => {
            if is_wide(size) {
                let found = refused(alloc, Rule::E10, cell, told)?;
                return Ok(found);
            }
            Ok(unbroken())
        }
        Some(index) => {
            let mut told = told;
            told.push(member_text(alloc, index)?)?;
            let found = refused(alloc, Rule::E9, cell, told)?;
            Ok(found)
        }
    }
}

/// Adds the index of the bit, where its port has a range.
fn push_index(
    alloc: Global,
    told: &mut Seq<Text>,
    indexes: Option<Indexes>,
    bit: u64,
) -> Result<(), NoMemory>
    ensures { OnOk result (told.new ≡ told.old ++ index_names indexes bit) }
{
    match indexes {
        None => Ok(()),
        Some(indexes) => {
            told.push(index_text(alloc, indexes, bit)?)?;
            Ok(())
        }
    }
}

/// The names of a reference to this port of the cell or of the instance of this number.
fn told_names(
    alloc: Global,
    scope: &CellScope<'_, '_>,
    names: &NetNames<'_>,
    instance: Option<u32>,
    meant: &Port,
) -> Result<Seq<Text>, NoMemory>
    ensures { IfOk result (λ told. told
        ≡ names_of (lists_of scope.now) names.now.net.now instance (port_name meant.now)) }
{
    let told = port_names(
        alloc,
        names.net,
        instance_name(scope, instance),
        port_name(meant),
    )?;
    Ok(told)
}

/// The refusal of a bit that an earlier net has.
fn taken_bit(
    alloc: Global,
    scope: &CellScope<'_, '_>,
    names: &NetNames<'_>,
    meant: &Port,
    taken: &TakenBits,
    spot: BitSpot,
) -> Result<Option<Refusal>, NoMemory>
    ensures { IfOk result (λ found. found
        ≡ lowest (taken_refusals names.now.cell.now
        (names_of (lists_of scope.now) names.now.net.now spot.instance
        (port_name meant.now)) meant.now taken.now
        (node_of_bit spot.instance spot.port) spot.bit)) }
{
    if !taken.has(spot) {
        return Ok(unbroken());
    }
    let mut told = told_names(alloc, scope, names, spot.instance, meant)?;
    let (_, indexes) = name_and_indexes(meant);
    push_index(alloc, &mut told, indexes, spot.bit)?;
    let found = refused(alloc, Rule::E11, names.cell, told)?;
    Ok(found)
}

/// The refusal of a reference with this member to the port. The names of what is referred to are made only for a refusal.
fn bit_refusal(
    alloc: Global,
    scope: &CellScope<'_, '_>,
    names: &NetNames<'_>,
    meant: &Port,
    taken: &TakenBits,
    instance: Option<u32>,
    port: u32,
    member: Option<i64>,
) -> Result<Option<Refusal>, NoMemory>
    ensures { IfOk result (λ found. found
        ≡ lowest (bit_refusals_by names.now.cell.now
        (names_of (lists_of scope.now) names.now.net.now instance
        (port_name meant.now)) meant.now taken.now (node_of_bit instance port) member)) }
{
    match bit_of(port_size(meant), member) {
        None => {
            let told = told_names(alloc, scope, names, instance, meant)?;
            let found = no_bit(alloc, names.cell, told, port_size(meant), member)?;
            Ok(found)
        }
        Some(bit) => {
            let spot = BitSpot {
                instance,
                port,
                bit,
            };
            let found = taken_bit(alloc, scope, names, meant, taken, spot)?;
            Ok(found)
        }
    }
}

/// The refusal of a reference to the port of this number.
fn port_refusal(
    alloc: Global,
    scope: &CellScope<'_, '_>,
    names: &NetNames<'_>,
    taken: &TakenBits,
    instance: Option<u32>,
    port: u32,
    member: Option<i64>,
) -> Result<Option<Refusal>, NoMemory>
    ensures { IfOk result (λ found. found
        ≡ lowest (port_refusals_at
        (lists_of scope.now) names.now.cell.now names.now.net.now taken.now instance port member
        (port_at (lists_of scope.now) instance port))) }
{
    match port_at(scope, instance, port) {
        None => Ok(unbroken()),
        Some(meant) => {
            let found = bit_refusal(alloc, scope, names, meant, taken, instance, port, member)?;
            Ok(found)
        }
    }
}

/// The refusal of a reference that leads here.
#[tactic(auto, unfolding(crate::specs::RefRefusals::found_refusals))]
pub(crate) fn found_refusal(
    alloc: Global,
    scope: &CellScope<'_, '_>,
    names: &NetNames<'_>,
    taken: &TakenBits,
    reference: &PortRef,
    found: Target,
) -> Result<Option<Refusal>, NoMemory>
    ensures { IfOk result (λ made. made
        ≡ lowest (found_refusals
        (lists_of scope.now) names.now.cell.now names.now.net.now taken.now reference.now found)) }
{
    match found {
        Target::Port(instance, port) => {
            let made = port_refusal(
                alloc,
                scope,
                names,
                taken,
                instance,
                port,
                member_of(reference),
            )?;
            Ok(made)
        }
        Target::NoInstance => {
            let made = no_instance(alloc, names, &reference.instance)?;
            Ok(made)
        }
        Target::SeveralInstances => {
            let made = several_instances(alloc, names, &reference.instance)?;
            Ok(made)
        }
        Target::NoCell => Ok(unbroken()),
        Target::NoPort(instance) => {
            let made = no_port(alloc, scope, names, instance, &reference.port)?;
            Ok(made)
        }
        Target::SeveralPorts => {
            let made = several_ports(alloc, names, &reference.port)?;
            Ok(made)
        }
    }
}
