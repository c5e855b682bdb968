// Lists of the names of a module, and which of them stand in another list.
ghost use Rattle.std.specs.Prelude.{◌≡◌, ◌++◌, List, ℕ, filter, find, flat_map, map, not, option_copied, IfOk, OnOk};
ghost use Rattle.vlog_design.specs.Names.{has_name, instance_names, instance_statement, port_decl};
ghost use Rattle.vlog_design.specs.Rules.{first_of, inner_directions};
ghost use Rattle.vlog_design.specs.Tables.{names_of};

use nl_base::{NoMemory, Text};
use std::alloc::Global;
use vlog_design::names::NameSet;
use vlog_values::{ItemV, Module, VInst};

/// Adds the names.
pub fn push_texts<'a>(names: &'a [Text], out: &mut Vec<&'a [u8]>) -> Result<(), NoMemory>
    ensures added { OnOk result (names_of out.new.items ≡ names_of out.old.items ++ names.now) }
{
    for name in names {
        out.push(name.bytes())?;
    }
    Ok(())
}

fn push_directions<'a>(item: &'a ItemV, out: &mut Vec<&'a [u8]>) -> Result<(), NoMemory>
    ensures added { OnOk result (names_of out.new.items
        ≡ names_of out.old.items ++ flat_map (λ decl. decl.names) (port_decl item.now)) }
{
    match item {
        ItemV::Port(decl) => push_texts(decl.names.items(), out),
        ItemV::Net(_) => Ok(()),
        ItemV::Param(_) => Ok(()),
        ItemV::Assign(_) => Ok(()),
        ItemV::Instances(_) => Ok(()),
        ItemV::Defparam(_) => Ok(()),
    }
}

/// The names to which items of the module give a direction.
pub fn inner_directions<'a>(alloc: Global, m: &'a Module) -> Result<Vec<&'a [u8]>, NoMemory>
    ensures { IfOk result (λ names. names_of names.items ≡ inner_directions m.now) }
{
    let mut names = Vec::new(alloc);
    for item in m.items.items() {
        push_directions(item, &mut names)?;
    }
    Ok(names)
}

fn push_instances<'a>(insts: &'a [VInst], out: &mut Vec<&'a [u8]>) -> Result<(), NoMemory>
    ensures added { OnOk result (names_of out.new.items
        ≡ names_of out.old.items ++ map (λ instance. instance.name) insts.now) }
{
    for instance in insts {
        out.push(instance.name.bytes())?;
    }
    Ok(())
}

fn push_item_instances<'a>(item: &'a ItemV, out: &mut Vec<&'a [u8]>) -> Result<(), NoMemory>
    ensures added { OnOk result (names_of out.new.items
        ≡ names_of out.old.items
        ++ map (λ instance. instance.name)
        (flat_map (λ statement. statement.insts) (instance_statement item.now))) }
{
    match item {
        ItemV::Instances(statement) => push_instances(statement.insts.items(), out),
        ItemV::Port(_) => Ok(()),
        ItemV::Net(_) => Ok(()),
        ItemV::Param(_) => Ok(()),
        ItemV::Assign(_) => Ok(()),
        ItemV::Defparam(_) => Ok(()),
    }
}

/// The names of the module's instances.
#[tactic(auto, unfolding(vlog_design::specs::Names::instances, vlog_design::specs::Names::instance_statements))]
pub fn instance_names<'a>(alloc: Global, m: &'a Module) -> Result<Vec<&'a [u8]>, NoMemory>
    ensures { IfOk result (λ names. names_of names.items ≡ instance_names m.now) }
{
    let mut names = Vec::new(alloc);
    for item in m.items.items() {
        push_item_instances(item, &mut names)?;
    }
    Ok(names)
}

/// The set of the names in a list.
pub fn name_set<'a>(alloc: Global, names: &[&'a [u8]]) -> Result<NameSet<'a>, NoMemory>
    ensures { IfOk result (λ set. (name : List ℕ)
        → has_name set name ≡ has_name (names_of names.now) name) }
{
    let mut set = NameSet::empty(alloc);
    for name in names {
        set.add(*name)?;
    }
    Ok(set)
}

fn first_not_in<'a>(set: &NameSet, names: &[&'a [u8]]) -> Option<&'a [u8]>
    ensures { option_copied result
        ≡ find (λ name. not (has_name set.now name)) (names_of names.now) }
{
    for name in names {
        if !set.has(*name) {
            return Some(*name);
        }
    }
    None
}

/// The first of the names that is none of the others.
pub fn first_outside<'a>(
    alloc: Global,
    names: &[&'a [u8]],
    others: &[&'a [u8]],
) -> Result<Option<&'a [u8]>, NoMemory>
    ensures { IfOk result (λ found. option_copied found
        ≡ first_of (filter (λ name. not (has_name (names_of others.now) name))
        (names_of names.now))) }
{
    let set = name_set(alloc, others)?;
    let found = first_not_in(&set, names);
    Ok(found)
}
