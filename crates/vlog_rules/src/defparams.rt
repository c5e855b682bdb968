// Values for parameters of instances.
ghost use Rattle.std.specs.Prelude.{◌≡◌, find, flat_map, map, not, option_copied, IfOk};
ghost use Rattle.nl_base.specs.declared.rule.Rule.TheVariants.{G17};
ghost use Rattle.vlog_design.specs.Design.{def_sets};
ghost use Rattle.vlog_design.specs.Names.{defparam_statement, has_name};
ghost use Rattle.vlog_design.specs.Rules.{first_of, refused, unknown_instances};
ghost use Rattle.std.specs.List.{list_any};
ghost use Rattle.vlog_rules.specs.Defparams.{is_defparam};

use crate::lists::{instance_names, name_set};
use crate::refusals::refuse_two;
use nl_base::{NoMemory, Refusal, Rule};
use std::alloc::Global;
use vlog_design::names::NameSet;
use vlog_values::{DefSet, ItemV, Module};

fn first_in_sets<'a>(names: &NameSet, sets: &'a [DefSet]) -> Option<&'a DefSet>
    ensures { option_copied result ≡ find (λ set. not (has_name names.now set.instance)) sets.now }
{
    for set in sets {
        if !names.has(set.instance.bytes()) {
            return Some(set);
        }
    }
    None
}

fn first_in_item<'a>(names: &NameSet, item: &'a ItemV) -> Option<&'a DefSet>
    ensures { option_copied result
        ≡ find (λ set. not (has_name names.now set.instance))
        (flat_map (λ statement. statement.sets) (defparam_statement item.now)) }
{
    match item {
        ItemV::Defparam(statement) => first_in_sets(names, statement.sets.items()),
        ItemV::Port(_) => None,
        ItemV::Net(_) => None,
        ItemV::Param(_) => None,
        ItemV::Assign(_) => None,
        ItemV::Instances(_) => None,
    }
}

fn first_in_items<'a>(names: &NameSet, items: &'a [ItemV]) -> Option<&'a DefSet>
    ensures { option_copied result
        ≡ find (λ set. not (has_name names.now set.instance))
        (flat_map (λ item. flat_map (λ statement. statement.sets)
        (defparam_statement item)) items.now) }
{
    for item in items {
        if let Some(set) = first_in_item(names, item) {
            return Some(set);
        }
    }
    None
}

fn is_defparam(item: &ItemV) -> bool
    ensures { result ≡ is_defparam item.now }
{
    match item {
        ItemV::Defparam(_) => true,
        ItemV::Port(_) => false,
        ItemV::Net(_) => false,
        ItemV::Param(_) => false,
        ItemV::Assign(_) => false,
        ItemV::Instances(_) => false,
    }
}

/// Whether one of the items gives values for parameters of instances.
fn has_defparams(items: &[ItemV]) -> bool
    ensures { result ≡ list_any is_defparam items.now }
{
    for item in items {
        if is_defparam(item) {
            return true;
        }
    }
    false
}

/// The first value of the module for a parameter of no instance, by the set of its instances.
fn first_unknown(alloc: Global, m: &Module) -> Result<Option<Refusal>, NoMemory>
    ensures { IfOk result (λ found. found
        ≡ first_of (map (refused G17 m.now.name) (unknown_instances m.now))) }
{
    let listed = instance_names(alloc, m)?;
    let names = name_set(alloc, &listed)?;
    match first_in_items(&names, m.items.items()) {
        None => Ok(None),
        Some(set) => {
            let (instance, name) = (set.instance.bytes(), set.name.bytes());
            Ok(Some(refuse_two(alloc, Rule::G17, m.name.bytes(), instance, name)?))
        }
    }
}

/// The first value of the module for a parameter of an instance that the module has not. A set of the instances is made only where
/// such values are given.
pub fn unknown_instance(alloc: Global, m: &Module) -> Result<Option<Refusal>, NoMemory>
    ensures { IfOk result (λ found. found
        ≡ first_of (map (refused G17 m.now.name) (unknown_instances m.now))) }
{
    if !has_defparams(m.items.items()) {
        return Ok(None);
    }
    first_unknown(alloc, m)
}
