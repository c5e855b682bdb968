// What a module ties.
ghost use Rattle.std.specs.Prelude.{◌≡◌, ◌++◌, ◌+◌, ◌≤◌, None, Some, flat_map, map, sum_by, IfOk, MatchOption, OnOk};
ghost use Rattle.vlog_design.specs.Design.{instance_count, module_joins, pairings, supply_node};
ghost use Rattle.vlog_design.specs.Names.{signals};
ghost use Rattle.vlog_design.specs.Reach.{module_named};
ghost use Rattle.vlog_values.specs.Sizes.{module_size};
ghost use Rattle.vlog_ties.specs.Ties.{Assign, Supply, all_tied, item_ties, module_ties, modules_in, tie_joins, tie_pairings, ties_from};

use crate::connections::push_instances;
use crate::tie::Tie;
use net_hier::Node;
use nl_base::{NoMemory, Text};
use std::alloc::Global;
use vlog_design::names::NameSet;
use vlog_rules::passes::ModuleScope;
use vlog_values::{Assignment, Instances, ItemV, Module, NetDecl, NetKind};

fn push_assigns<'a>(sets: &'a [Assignment], out: &mut Vec<Tie<'a>>) -> Result<(), NoMemory>
    ensures added { OnOk result (all_tied out.new.items
        ≡ all_tied out.old.items ++ map (λ set. Assign set.left set.right) sets.now) }
{
    for set in sets {
        out.push(Tie::Assign {
            left: &set.left,
            right: &set.right,
        })?;
    }
    Ok(())
}

fn push_supplies<'a>(
    names: &'a [Text],
    constant: Node,
    out: &mut Vec<Tie<'a>>,
) -> Result<(), NoMemory>
    ensures added { OnOk result (all_tied out.new.items
        ≡ all_tied out.old.items ++ map (λ name. Supply name constant) names.now) }
{
    for name in names {
        out.push(Tie::Supply {
            name: name.bytes(),
            constant,
        })?;
    }
    Ok(())
}

fn push_net<'a>(decl: &'a NetDecl, out: &mut Vec<Tie<'a>>) -> Result<(), NoMemory>
    ensures added { OnOk result (all_tied out.new.items
        ≡ all_tied out.old.items ++ flat_map
        (λ constant. map (λ name. Supply name constant) decl.now.names)
        (supply_node decl.now.kind)) }
{
    match decl.kind {
        NetKind::Wire => Ok(()),
        NetKind::Tri => Ok(()),
        NetKind::Supply0 => push_supplies(decl.names.items(), Node::Zero, out),
        NetKind::Supply1 => push_supplies(decl.names.items(), Node::One, out),
    }
}

/// The scope of the module of this name, where it is there.
pub fn scope_named<'s, 'a>(
    names: &NameSet,
    scopes: &'s [ModuleScope<'a>],
    name: &[u8],
) -> Option<&'s ModuleScope<'a>>
    requires { names.now ≡ map (λ m. m.name) (modules_in scopes.now) }
    ensures { MatchOption result (module_named (modules_in scopes.now) name.now
        ≡ None) (λ scope. module_named (modules_in scopes.now) name.now
        ≡ Some scope.now.module.now) }
{
    match names.place(name) {
        None => None,
        Some(place) => Some(&scopes[place]),
    }
}

/// How many instances an item has.
pub fn instance_count(item: &ItemV) -> u32
    requires { instance_count item.now ≤ 268435456 }
    ensures { result ≡ instance_count item.now }
{
    match item {
        ItemV::Instances(statement) => statement.insts.len() as u32,
        ItemV::Port(_) => 0,
        ItemV::Net(_) => 0,
        ItemV::Param(_) => 0,
        ItemV::Assign(_) => 0,
        ItemV::Defparam(_) => 0,
    }
}

/// Adds what an item ties whose first instance has this number.
#[tactic(auto, unfolding(crate::specs::Ties::item_ties))]
pub(crate) fn push_item_ties<'a>(
    names: &NameSet,
    scopes: &[ModuleScope<'a>],
    number: u32,
    item: &'a ItemV,
    out: &mut Vec<Tie<'a>>,
) -> Result<(), NoMemory>
    requires named { names.now ≡ map (λ m. m.name) (modules_in scopes.now) }
    requires few { number + instance_count item.now ≤ 268435456 }
    ensures added { OnOk result (all_tied out.new.items
        ≡ all_tied out.old.items ++ item_ties (modules_in scopes.now) number item.now) }
{
    match item {
        ItemV::Assign(statement) => push_assigns(statement.sets.items(), out),
        ItemV::Instances(statement) => {
            match scope_named(names, scopes, statement.module.bytes()) {
                None => Ok(()),
                Some(below) => push_instances(below, number, statement.insts.items(), out),
            }
        }
        ItemV::Net(decl) => push_net(decl, out),
        ItemV::Port(_) => Ok(()),
        ItemV::Param(_) => Ok(()),
        ItemV::Defparam(_) => Ok(()),
    }
}

fn push_items<'a>(
    names: &NameSet,
    scopes: &[ModuleScope<'a>],
    items: &'a [ItemV],
    out: &mut Vec<Tie<'a>>,
) -> Result<(), NoMemory>
    requires named { names.now ≡ map (λ m. m.name) (modules_in scopes.now) }
    requires few { sum_by instance_count items.now ≤ 268435456 }
    ensures added { OnOk result (all_tied out.new.items
        ≡ all_tied out.old.items ++ ties_from (modules_in scopes.now) 0 items.now) }
{
    let mut number: u32 = 0;
    for item in items {
        push_item_ties(names, scopes, number, item, out)?;
        number += instance_count(item);
    }
    Ok(())
}

/// What a module ties, in the order of the text, where `scopes` are the modules below it and `names` their names.
#[tactic(auto, unfolding(crate::specs::Ties::module_ties))]
pub fn ties_of<'a>(
    alloc: Global,
    names: &NameSet,
    scopes: &[ModuleScope<'a>],
    m: &'a Module,
) -> Result<Vec<Tie<'a>>, NoMemory>
    requires named { names.now ≡ map (λ m. m.name) (modules_in scopes.now) }
    requires small { module_size m.now ≤ 268435456 }
    ensures value { IfOk result (λ ties. all_tied ties.items
        ≡ module_ties (modules_in scopes.now) m.now) }
    ensures pairings { IfOk result (λ ties. flat_map (tie_pairings (signals m.now)) ties.items
        ≡ pairings (modules_in scopes.now) m.now) }
    ensures joins { IfOk result (λ ties. flat_map (tie_joins (signals m.now)) ties.items
        ≡ module_joins (modules_in scopes.now) m.now) }
{
    let mut ties = Vec::with_capacity(alloc, m.items.len())?;
    push_items(names, scopes, m.items.items(), &mut ties)?;
    Ok(ties)
}
