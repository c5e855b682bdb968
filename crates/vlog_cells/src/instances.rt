// The instances of a cell.
ghost use Rattle.std.specs.Prelude.{◌≡◌, ◌<◌, ◌^◌, ◌++◌, [], List, ℕ, bytes_eq, flat_map, length, map, IfOk, OnOk};
ghost use Rattle.std.specs.List.{position_or_len};
ghost use Rattle.vlog_design.specs.Design.{def_sets};
ghost use Rattle.vlog_design.specs.Names.{defparam_statement, instance_statement};
ghost use Rattle.vlog_cells.specs.Instances.{instance_by, instances_by, props_by, sets_for, sets_of, sets_under};

use crate::groups::Groups;
use crate::properties::{add_attrs, add_params, add_sets};
use net_hier::{HInst, HProp};
use nl_base::{NoMemory, Seq, Text};
use std::alloc::Global;
use vlog_design::names::NameSet;
use vlog_values::{DefSet, Instances, ItemV, Module, VInst};

/// Adds values by `defparam` under the names of their instances.
fn note_sets<'a>(
    alloc: Global,
    sets: &'a [DefSet],
    found: &mut Groups<'a, &'a DefSet>,
) -> Result<(), NoMemory>
    ensures added { OnOk result ((key : List ℕ)
        → sets_under found.new key ≡ sets_under found.old key ++ sets_for key sets.now) }
{
    for set in sets {
        found.add(alloc, set.instance.bytes(), set)?;
    }
    Ok(())
}

/// Adds the values that an item gives.
fn note_item<'a>(
    alloc: Global,
    item: &'a ItemV,
    found: &mut Groups<'a, &'a DefSet>,
) -> Result<(), NoMemory>
    ensures added { OnOk result ((key : List ℕ)
        → sets_under found.new key ≡ sets_under found.old key
        ++ sets_for key (flat_map (λ statement. statement.sets) (defparam_statement item.now))) }
{
    match item {
        ItemV::Defparam(statement) => {
            note_sets(alloc, statement.sets.items(), found)?;
            Ok(())
        }
        ItemV::Port(_) => Ok(()),
        ItemV::Net(_) => Ok(()),
        ItemV::Param(_) => Ok(()),
        ItemV::Assign(_) => Ok(()),
        ItemV::Instances(_) => Ok(()),
    }
}

/// The values by `defparam` of a module under the names of their instances, in the order of the text.
pub(crate) fn sets_in<'a>(alloc: Global, m: &'a Module) -> Result<Groups<'a, &'a DefSet>, NoMemory>
    ensures { IfOk result (λ found. (key : List ℕ)
        → sets_under found key ≡ sets_for key (def_sets m.now)) }
{
    let mut found = Groups::empty(alloc);
    for item in m.items.items() {
        note_item(alloc, item, &mut found)?;
    }
    Ok(found)
}

/// The number of the name, or how many names there are where it is none of them.
fn number_of(names: &NameSet, name: &[u8]) -> u32
    requires { length names.now < 2 ^ 32 }
    ensures { result ≡ position_or_len (bytes_eq name.now) names.now }
{
    match names.place(name) {
        None => names.len() as u32,
        Some(place) => place as u32,
    }
}

/// The properties of an instance: the attributes and parameters of its statement, and then the values by `defparam`. Literals are spelled in
/// `spelling`, whatever stands there.
fn instance_props(
    alloc: Global,
    statement: &Instances,
    sets: &[&DefSet],
    spelling: &mut Vec<u8>,
) -> Result<Seq<HProp>, NoMemory>
    ensures { IfOk result (λ made. made ≡ props_by statement.now (sets_of sets.now)) }
{
    let count = statement.attrs.len().saturating_add(statement.params.len());
    let mut props = Vec::with_capacity(alloc, count.saturating_add(sets.len()))?;
    add_attrs(alloc, &mut props, statement.attrs.items(), spelling)?;
    add_params(alloc, &mut props, statement.params.items(), spelling)?;
    add_sets(alloc, &mut props, sets, spelling)?;
    Ok(Seq::of(props))
}

/// The instance, of the cell of this number.
#[tactic(auto, unfolding(crate::specs::Instances::sets_under))]
fn instance_of(
    alloc: Global,
    cell: u32,
    statement: &Instances,
    found: &Groups<'_, &DefSet>,
    instance: &VInst,
    spelling: &mut Vec<u8>,
) -> Result<HInst, NoMemory>
    ensures { IfOk result (λ made. made ≡ instance_by cell statement.now found.now instance.now) }
{
    let sets = found.of(instance.name.bytes());
    let props = instance_props(alloc, statement, sets, spelling)?;
    let name = Text::copy(alloc, instance.name.bytes())?;
    Ok(HInst { name, cell, props })
}

/// Adds the instances of a statement.
fn add_statement(
    alloc: Global,
    cell: u32,
    statement: &Instances,
    found: &Groups<'_, &DefSet>,
    made: &mut Vec<HInst>,
    spelling: &mut Vec<u8>,
) -> Result<(), NoMemory>
    ensures added { OnOk result (made.new.items
        ≡ made.old.items ++ map (instance_by cell statement.now found.now) statement.now.insts) }
{
    for instance in statement.insts.items() {
        let value = instance_of(alloc, cell, statement, found, instance, spelling)?;
        made.push(value)?;
    }
    Ok(())
}

/// Adds the instances of an item.
pub(crate) fn add_item(
    alloc: Global,
    names: &NameSet,
    found: &Groups<'_, &DefSet>,
    item: &ItemV,
    made: &mut Vec<HInst>,
    spelling: &mut Vec<u8>,
) -> Result<(), NoMemory>
    requires { length names.now < 2 ^ 32 }
    ensures added { OnOk result (made.new.items
        ≡ made.old.items
        ++ flat_map (instances_by names.now found.now) (instance_statement item.now)) }
{
    match item {
        ItemV::Instances(statement) => {
            let cell = number_of(names, statement.module.bytes());
            add_statement(alloc, cell, statement, found, made, spelling)?;
            Ok(())
        }
        ItemV::Port(_) => Ok(()),
        ItemV::Net(_) => Ok(()),
        ItemV::Param(_) => Ok(()),
        ItemV::Assign(_) => Ok(()),
        ItemV::Defparam(_) => Ok(()),
    }
}

/// How many instances an item has.
fn count_in(item: &ItemV) -> usize {
    match item {
        ItemV::Instances(statement) => statement.insts.len(),
        ItemV::Port(_) => 0,
        ItemV::Net(_) => 0,
        ItemV::Param(_) => 0,
        ItemV::Assign(_) => 0,
        ItemV::Defparam(_) => 0,
    }
}

/// How many instances items have.
pub(crate) fn instance_count_of(items: &[ItemV]) -> usize {
    let mut count: usize = 0;
    for item in items {
        count = count.saturating_add(count_in(item));
    }
    count
}
