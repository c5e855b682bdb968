// The graph of modules, and what is reached in it.
ghost use Rattle.std.specs.Prelude.{◌≡◌, ◌<◌, ◌≤◌, ◌^◌, ◌++◌, flat_map, length, map, option_to_list, IfOk, IfSome, OnOk};
ghost use Rattle.net_graph.specs.Marks.{marks_of};
ghost use Rattle.vlog_design.specs.Names.{instance_statement};
ghost use Rattle.vlog_design.specs.Reach.{instance_modules, marked, modules_below, statement_modules};
ghost use Rattle.vlog_reach.specs.Places.{marked_one, places_in};
ghost use Rattle.vlog_design.specs.Tables.{modules_of};

use net_graph::reach::reached_from;
use nl_base::{NoMemory, Seq};
use std::alloc::Global;
use vlog_design::names::NameSet;
use vlog_values::{Instances, ItemV, Module};

fn push_place(place: Option<usize>, numbers: &mut Seq<u32>) -> Result<(), NoMemory>
    requires { IfSome place (λ number. number < 2 ^ 32) }
    ensures added { OnOk result (numbers.new ≡ numbers.old ++ option_to_list place) }
{
    match place {
        None => Ok(()),
        Some(number) => {
            numbers.push(number as u32)?;
            Ok(())
        }
    }
}

fn push_statement(
    names: &NameSet,
    statement: &Instances,
    numbers: &mut Seq<u32>,
) -> Result<(), NoMemory>
    requires { length names.now ≤ 2 ^ 32 }
    ensures added { OnOk result (numbers.new
        ≡ numbers.old ++ places_in names.now (statement_modules statement.now)) }
{
    let place = names.place(statement.module.bytes());
    for _instance in statement.insts.items() {
        push_place(place, numbers)?;
    }
    Ok(())
}

fn push_item(names: &NameSet, item: &ItemV, numbers: &mut Seq<u32>) -> Result<(), NoMemory>
    requires { length names.now ≤ 2 ^ 32 }
    ensures added { OnOk result (numbers.new
        ≡ numbers.old ++ places_in names.now
        (flat_map statement_modules (instance_statement item.now))) }
{
    match item {
        ItemV::Instances(statement) => push_statement(names, statement, numbers),
        ItemV::Port(_) => Ok(()),
        ItemV::Net(_) => Ok(()),
        ItemV::Param(_) => Ok(()),
        ItemV::Assign(_) => Ok(()),
        ItemV::Defparam(_) => Ok(()),
    }
}

/// The numbers of the modules of a module's instances, by the names of all modules.
#[tactic(auto, unfolding(vlog_design::specs::Reach::instance_modules, vlog_design::specs::Names::instance_statements))]
fn below(alloc: Global, names: &NameSet, m: &Module) -> Result<Seq<u32>, NoMemory>
    requires { length names.now ≤ 2 ^ 32 }
    ensures { IfOk result (λ numbers. numbers ≡ places_in names.now (instance_modules m.now)) }
{
    let mut numbers = Seq::empty(alloc);
    for item in m.items.items() {
        push_item(names, item, &mut numbers)?;
    }
    Ok(numbers)
}

fn graph_by(alloc: Global, names: &NameSet, modules: &[Module]) -> Result<Vec<Seq<u32>>, NoMemory>
    requires { length names.now ≤ 2 ^ 32 }
    ensures { IfOk result (λ graph. graph.items
        ≡ map (λ m. places_in names.now (instance_modules m)) modules.now) }
{
    let mut graph = Vec::new(alloc);
    for m in modules {
        graph.push(below(alloc, names, m)?)?;
    }
    Ok(graph)
}

/// For each module the numbers of the modules of its instances, one for each instance whose module is there.
pub fn graph_of(
    alloc: Global,
    names: &NameSet,
    modules: &[Module],
) -> Result<Vec<Seq<u32>>, NoMemory>
    requires are_named { names.now ≡ map (λ m. m.name) modules.now }
    requires few { length modules.now ≤ 2 ^ 32 }
    ensures { IfOk result (λ graph. graph.items ≡ modules_below modules.now) }
{
    let graph = graph_by(alloc, names, modules)?;
    Ok(graph)
}

fn push_marked<'a>(mark: bool, m: &'a Module, out: &mut Vec<&'a Module>) -> Result<(), NoMemory>
    ensures added { OnOk result (modules_of out.new.items
        ≡ modules_of out.old.items ++ marked_one mark m.now) }
{
    if mark {
        out.push(m)?;
        return Ok(());
    }
    Ok(())
}

/// The modules that are marked.
fn marked_modules<'a>(
    alloc: Global,
    marks: &[bool],
    modules: &'a [Module],
) -> Result<Vec<&'a Module>, NoMemory>
    requires { length marks.now ≡ length modules.now }
    ensures { IfOk result (λ found. modules_of found.items ≡ marked marks.now modules.now) }
{
    let mut found = Vec::new(alloc);
    for number in 0..modules.len() {
        push_marked(marks[number], &modules[number], &mut found)?;
    }
    Ok(found)
}

/// The top and all modules that instances lead to from it, in file order.
pub fn reached_modules<'a>(
    alloc: Global,
    names: &NameSet,
    modules: &'a [Module],
    top: u32,
) -> Result<Vec<&'a Module>, NoMemory>
    requires are_named { names.now ≡ map (λ m. m.name) modules.now }
    requires few { length modules.now ≤ 2 ^ 32 }
    requires within { top < length modules.now }
    ensures { IfOk result (λ found. modules_of found.items
        ≡ marked (marks_of (modules_below modules.now) top) modules.now) }
{
    let graph = graph_of(alloc, names, modules)?;
    let marks = reached_from(alloc, &graph, top)?;
    let found = marked_modules(alloc, &marks, modules)?;
    Ok(found)
}
