// The instances through which modules reach themselves.
ghost use Rattle.std.specs.Prelude.{ℕ, ◌≡◌, ◌<◌, ◌≤◌, ◌^◌, ◌++◌, Some, flat_map, length, map, IfOk, IfSome, OnOk, MatchOption};
ghost use Rattle.net_graph.specs.Graph.{IsFirstRecursion, ReachesItself};
ghost use Rattle.nl_base.specs.declared.rule.Rule.TheVariants.{G16};
ghost use Rattle.vlog_design.specs.Names.{instance_statement};
ghost use Rattle.vlog_design.specs.Reach.{modules_below};
ghost use Rattle.vlog_design.specs.Rules.{first_of, in_modules, recursions, statement_names};
ghost use Rattle.vlog_design.specs.Tables.{modules_of};
ghost use Rattle.vlog_scopes.specs.Distinct.{Distinct, module_names};
ghost use Rattle.vlog_scopes.specs.Instances.{instance_pairs, linked, links_in, links_of, numbers_in};

use crate::lists::USUAL;
use net_graph::recursion::{Recursion, first_recursion as first_in_graph};
use nl_base::{NoMemory, Refusal, Rule, Seq};
use std::alloc::Global;
use vlog_design::names::NameSet;
use vlog_rules::refusals::refuse;
use vlog_values::{Instances, ItemV, Module};

fn push_link<'a>(
    instance: &'a [u8],
    place: Option<usize>,
    out: &mut Vec<(&'a [u8], u32)>,
) -> Result<(), NoMemory>
    requires { IfSome place (λ number. number < 2 ^ 32) }
    ensures added { OnOk result (links_of out.new.items
        ≡ links_of out.old.items ++ linked instance.now place) }
{
    match place {
        None => Ok(()),
        Some(number) => {
            out.push((instance, number as u32))?;
            Ok(())
        }
    }
}

fn push_statement<'a>(
    names: &NameSet,
    statement: &'a Instances,
    out: &mut Vec<(&'a [u8], u32)>,
) -> Result<(), NoMemory>
    requires { length names.now ≤ 2 ^ 32 }
    ensures added { OnOk result (links_of out.new.items
        ≡ links_of out.old.items ++ links_in names.now (statement_names statement.now)) }
{
    let place = names.place(statement.module.bytes());
    for instance in statement.insts.items() {
        push_link(instance.name.bytes(), place, out)?;
    }
    Ok(())
}

fn push_item<'a>(
    names: &NameSet,
    item: &'a ItemV,
    out: &mut Vec<(&'a [u8], u32)>,
) -> Result<(), NoMemory>
    requires { length names.now ≤ 2 ^ 32 }
    ensures added { OnOk result (links_of out.new.items
        ≡ links_of out.old.items
        ++ links_in names.now (flat_map statement_names (instance_statement item.now))) }
{
    match item {
        ItemV::Instances(statement) => push_statement(names, statement, out),
        ItemV::Port(_) => Ok(()),
        ItemV::Net(_) => Ok(()),
        ItemV::Param(_) => Ok(()),
        ItemV::Assign(_) => Ok(()),
        ItemV::Defparam(_) => Ok(()),
    }
}

/// The instances of a module whose modules are there, with their numbers.
#[tactic(auto, unfolding(crate::specs::Instances::instance_pairs, vlog_design::specs::Names::instance_statements))]
fn links<'a>(
    alloc: Global,
    names: &NameSet,
    m: &'a Module,
) -> Result<Vec<(&'a [u8], u32)>, NoMemory>
    requires { length names.now ≤ 2 ^ 32 }
    ensures { IfOk result (λ found. links_of found.items
        ≡ links_in names.now (instance_pairs m.now)) }
{
    let mut found = Vec::with_capacity(alloc, USUAL)?;
    for item in m.items.items() {
        push_item(names, item, &mut found)?;
    }
    Ok(found)
}

fn numbers_of(alloc: Global, links: &[(&[u8], u32)]) -> Result<Seq<u32>, NoMemory>
    ensures { IfOk result (λ numbers. numbers ≡ map (λ link. link.1) (links_of links.now)) }
{
    let mut numbers = Vec::with_capacity(alloc, links.len())?;
    for link in links {
        numbers.push(link.1)?;
    }
    Ok(Seq::of(numbers))
}

fn below(alloc: Global, names: &NameSet, m: &Module) -> Result<Seq<u32>, NoMemory>
    requires { length names.now ≤ 2 ^ 32 }
    ensures { IfOk result (λ numbers. numbers ≡ numbers_in names.now m.now) }
{
    let found = links(alloc, names, m)?;
    let numbers = numbers_of(alloc, &found)?;
    Ok(numbers)
}

fn graph_by(alloc: Global, names: &NameSet, modules: &[&Module]) -> Result<Vec<Seq<u32>>, NoMemory>
    requires { length names.now ≤ 2 ^ 32 }
    ensures { IfOk result (λ graph. graph.items
        ≡ map (numbers_in names.now) (modules_of modules.now)) }
{
    let mut graph = Vec::new(alloc);
    for m in modules {
        graph.push(below(alloc, names, *m)?)?;
    }
    Ok(graph)
}

/// The first module that reaches itself, and the place of the instance through which it does, among those whose modules are there.
fn recursion_in(
    alloc: Global,
    names: &NameSet,
    modules: &[&Module],
    top: u32,
) -> Result<Option<Recursion>, NoMemory>
    requires are_named { names.now ≡ module_names (modules_of modules.now) }
    requires few { length modules.now < 2 ^ 32 }
    requires within { top < length modules.now }
    ensures { IfOk result (λ found. MatchOption found ((number : ℕ)
        → ¬ ReachesItself (modules_below (modules_of modules.now)) number)
        (λ recursion. IsFirstRecursion
        (modules_below (modules_of modules.now)) recursion.number recursion.place)) }
{
    let graph = graph_by(alloc, names, modules)?;
    let found = first_in_graph(alloc, &graph, top)?;
    Ok(found)
}

/// The refusal of the instance through which a module reaches itself.
fn refuse_recursion(
    alloc: Global,
    names: &NameSet,
    modules: &[&Module],
    number: u32,
    place: usize,
) -> Result<Refusal, NoMemory>
    requires are_named { names.now ≡ module_names (modules_of modules.now) }
    requires differ { Distinct (module_names (modules_of modules.now)) }
    requires few { length modules.now < 2 ^ 32 }
    requires first { IsFirstRecursion (modules_below (modules_of modules.now)) number place }
    ensures { IfOk result (λ refusal. Some refusal
        ≡ first_of (in_modules G16 (recursions (modules_of modules.now))
        (modules_of modules.now))) }
{
    let m = modules[number as usize];
    let found = links(alloc, names, m)?;
    let instance = found[place].0;
    let refusal = refuse(alloc, Rule::G16, m.name.bytes(), instance)?;
    Ok(refusal)
}

/// The first instance through which a module reaches itself, by the names of the modules. Where all modules are reached from the top,
/// it takes time in proportion to the modules.
pub fn first_recursion(
    alloc: Global,
    names: &NameSet,
    modules: &[&Module],
    top: u32,
) -> Result<Option<Refusal>, NoMemory>
    requires are_named { names.now ≡ module_names (modules_of modules.now) }
    requires differ { Distinct (module_names (modules_of modules.now)) }
    requires few { length modules.now < 2 ^ 32 }
    requires within { top < length modules.now }
    ensures { IfOk result (λ found. found
        ≡ first_of (in_modules G16 (recursions (modules_of modules.now))
        (modules_of modules.now))) }
{
    let found = recursion_in(alloc, names, modules, top)?;
    match found {
        None => Ok(None),
        Some(recursion) => {
            let (number, place) = (recursion.number, recursion.place);
            Ok(Some(refuse_recursion(alloc, names, modules, number, place)?))
        }
    }
}
