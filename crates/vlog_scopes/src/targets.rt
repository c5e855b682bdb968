// The names that stand where a net may be without a declaration.
ghost use Rattle.std.specs.Prelude.{◌≡◌, ◌++◌, flat_map, map, option_to_list, OnOk, IfOk};
ghost use Rattle.vlog_design.specs.Names.{item_targets, target_uses, uses};
ghost use Rattle.vlog_design.specs.Uses.{uses_of};

use crate::lists::USUAL;
use nl_base::NoMemory;
use std::alloc::Global;
use vlog_design::uses::{UseOf, push_instances_uses, push_uses};
use vlog_values::{Assignment, ItemV, Module};

fn push_lefts<'a>(sets: &'a [Assignment], out: &mut Vec<UseOf<'a>>) -> Result<(), NoMemory>
    ensures added { OnOk result (uses_of out.new.items
        ≡ uses_of out.old.items ++ flat_map uses (map (λ set. set.left) sets.now)) }
{
    for set in sets {
        push_uses(&set.left, out)?;
    }
    Ok(())
}

/// Adds the names in the connections or on the left of the assignments of an item, in the order of the text.
pub(crate) fn push_item_targets<'a>(
    item: &'a ItemV,
    out: &mut Vec<UseOf<'a>>,
) -> Result<(), NoMemory>
    ensures added { OnOk result (uses_of out.new.items
        ≡ uses_of out.old.items ++ flat_map uses (item_targets item.now)) }
{
    match item {
        ItemV::Assign(statement) => push_lefts(statement.sets.items(), out),
        ItemV::Instances(statement) => push_instances_uses(statement.insts.items(), out),
        ItemV::Port(_) => Ok(()),
        ItemV::Net(_) => Ok(()),
        ItemV::Param(_) => Ok(()),
        ItemV::Defparam(_) => Ok(()),
    }
}

fn push_items<'a>(items: &'a [ItemV], out: &mut Vec<UseOf<'a>>) -> Result<(), NoMemory>
    ensures added { OnOk result (uses_of out.new.items
        ≡ uses_of out.old.items ++ flat_map uses (flat_map item_targets items.now)) }
{
    for item in items {
        push_item_targets(item, out)?;
    }
    Ok(())
}

/// The names in the connections of a module and on the left of its assignments, in the order of the text.
#[tactic(auto, unfolding(vlog_design::specs::Names::target_uses))]
pub fn targets_in<'a>(alloc: Global, m: &'a Module) -> Result<Vec<UseOf<'a>>, NoMemory>
    ensures { IfOk result (λ found. uses_of found.items ≡ target_uses m.now) }
{
    let mut found = Vec::with_capacity(alloc, USUAL)?;
    push_items(m.items.items(), &mut found)?;
    Ok(found)
}
