// The names in the expressions of a module.
ghost use Rattle.std.specs.Prelude.{◌≡◌, ◌++◌, ◌∷◌, [], flat_map, option_to_list, OnOk, IfOk};
ghost use Rattle.vlog_design.specs.Names.{conn_exprs, item_exprs, module_uses, uses};
ghost use Rattle.vlog_design.specs.Uses.{uses_of};

use nl_base::NoMemory;
use std::alloc::Global;
use vlog_values::{Assignment, Conns, Expr, ItemV, Module, NamedConn, Select, VInst};

/// A name in an expression.
#[derive(Clone, Copy)]
pub struct UseOf<'a> {
    pub name: &'a [u8],
    pub select: Select,
}

/// Adds the names in an expression, in the order of the text.
#[cycle(uses)]
pub fn push_uses<'a>(expr: &'a Expr, out: &mut Vec<UseOf<'a>>) -> Result<(), NoMemory>
    ensures added { OnOk result (uses_of out.new.items ≡ uses_of out.old.items ++ uses expr.now) }
{
    match expr {
        Expr::Ref { select, name } => {
            out.push(UseOf {
                name: name.bytes(),
                select: *select,
            })?;
            Ok(())
        }
        Expr::Lit(_) => Ok(()),
        Expr::LooseNumber(_) => Ok(()),
        Expr::Loose(_) => Ok(()),
        Expr::Cat(parts) => push_all_uses(parts.items(), out),
        Expr::Rep(_, parts) => push_all_uses(parts.get().items(), out),
    }
}

#[cycle(uses)]
fn push_all_uses<'a>(parts: &'a [Expr], out: &mut Vec<UseOf<'a>>) -> Result<(), NoMemory>
    ensures added { OnOk result (uses_of out.new.items
        ≡ uses_of out.old.items ++ flat_map uses parts.now) }
{
    for part in parts {
        push_uses(part, out)?;
    }
    Ok(())
}

fn push_value_uses<'a>(value: &'a Option<Expr>, out: &mut Vec<UseOf<'a>>) -> Result<(), NoMemory>
    ensures added { OnOk result (uses_of out.new.items
        ≡ uses_of out.old.items ++ flat_map uses (option_to_list value.now)) }
{
    match value {
        None => Ok(()),
        Some(value) => push_uses(value, out),
    }
}

fn push_named_uses<'a>(conns: &'a [NamedConn], out: &mut Vec<UseOf<'a>>) -> Result<(), NoMemory>
    ensures added { OnOk result (uses_of out.new.items
        ≡ uses_of out.old.items
        ++ flat_map uses (flat_map (λ conn. option_to_list conn.value) conns.now)) }
{
    for conn in conns {
        push_value_uses(&conn.value, out)?;
    }
    Ok(())
}

fn push_ordered_uses<'a>(
    values: &'a [Option<Expr>],
    out: &mut Vec<UseOf<'a>>,
) -> Result<(), NoMemory>
    ensures added { OnOk result (uses_of out.new.items
        ≡ uses_of out.old.items ++ flat_map uses (flat_map option_to_list values.now)) }
{
    for value in values {
        push_value_uses(value, out)?;
    }
    Ok(())
}

fn push_instance_uses<'a>(instance: &'a VInst, out: &mut Vec<UseOf<'a>>) -> Result<(), NoMemory>
    ensures added { OnOk result (uses_of out.new.items
        ≡ uses_of out.old.items ++ flat_map uses (conn_exprs instance.now.conns)) }
{
    match &instance.conns {
        Conns::Named(conns) => push_named_uses(conns.items(), out),
        Conns::Order(values) => push_ordered_uses(values.items(), out),
    }
}

/// Adds the names in the connections of instances, in the order of the text.
pub fn push_instances_uses<'a>(
    instances: &'a [VInst],
    out: &mut Vec<UseOf<'a>>,
) -> Result<(), NoMemory>
    ensures added { OnOk result (uses_of out.new.items
        ≡ uses_of out.old.items
        ++ flat_map uses (flat_map (λ instance. conn_exprs instance.conns) instances.now)) }
{
    for instance in instances {
        push_instance_uses(instance, out)?;
    }
    Ok(())
}

fn push_assign_uses<'a>(sets: &'a [Assignment], out: &mut Vec<UseOf<'a>>) -> Result<(), NoMemory>
    ensures added { OnOk result (uses_of out.new.items
        ≡ uses_of out.old.items
        ++ flat_map uses (flat_map (λ set. set.left ∷ set.right ∷ []) sets.now)) }
{
    for set in sets {
        push_uses(&set.left, out)?;
        push_uses(&set.right, out)?;
    }
    Ok(())
}

/// Adds the names in the expressions of an item, in the order of the text.
pub fn push_item_uses<'a>(item: &'a ItemV, out: &mut Vec<UseOf<'a>>) -> Result<(), NoMemory>
    ensures added { OnOk result (uses_of out.new.items
        ≡ uses_of out.old.items ++ flat_map uses (item_exprs item.now)) }
{
    match item {
        ItemV::Assign(statement) => push_assign_uses(statement.sets.items(), out),
        ItemV::Instances(statement) => push_instances_uses(statement.insts.items(), out),
        ItemV::Port(_) => Ok(()),
        ItemV::Net(_) => Ok(()),
        ItemV::Param(_) => Ok(()),
        ItemV::Defparam(_) => Ok(()),
    }
}

fn push_items_uses<'a>(items: &'a [ItemV], out: &mut Vec<UseOf<'a>>) -> Result<(), NoMemory>
    ensures added { OnOk result (uses_of out.new.items
        ≡ uses_of out.old.items ++ flat_map uses (flat_map item_exprs items.now)) }
{
    for item in items {
        push_item_uses(item, out)?;
    }
    Ok(())
}

/// The names in the expressions of a module, in the order of the text.
#[tactic(auto, unfolding(crate::specs::Names::module_uses))]
pub fn uses_in<'a>(alloc: Global, m: &'a Module) -> Result<Vec<UseOf<'a>>, NoMemory>
    ensures { IfOk result (λ found. uses_of found.items ≡ module_uses m.now) }
{
    let mut found = Vec::new(alloc);
    push_items_uses(m.items.items(), &mut found)?;
    Ok(found)
}
