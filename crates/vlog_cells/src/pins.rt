// The instances and the joins of a cell, made while the statements that give them are left.
ghost use Rattle.std.specs.Prelude.{◌≡◌, ◌≤◌, ◌<◌, ◌+◌, ◌++◌, ◌^◌, [], All, flat_map, length, map, reverse, IfOk, OnOk};
ghost use Rattle.std.specs.List.{AllByRecursion};
ghost use Rattle.vlog_design.specs.Design.{instance_count, item_joins, joins_from};
ghost use Rattle.vlog_design.specs.Names.{instance_statement};
ghost use Rattle.vlog_design.specs.Numbers.{HasNumbers};
ghost use Rattle.vlog_values.specs.Sizes.{item_size, list_size};
ghost use Rattle.vlog_values.specs.Values.{IsItem};
ghost use Rattle.vlog_ties.specs.Ties.{modules_in};
ghost use Rattle.vlog_cells.specs.Instances.{instances_by};

use crate::groups::Groups;
use crate::instances::{add_item, instance_count_of};
use crate::parts::{give_back, leave};
use crate::pieces::Pieces;
use net_hier::{HInst, Join};
use nl_base::NoMemory;
use std::alloc::Global;
use vlog_design::names::NameSet;
use vlog_design::table::Table;
use vlog_rules::passes::ModuleScope;
use vlog_ties::joins::push_item_joins;
use vlog_ties::ties::instance_count;
use vlog_values::{DefSet, ItemV};

/// The instances and the joins of a cell.
#[derive(Drop)]
pub(crate) struct Pins {
    pub instances: Pieces<HInst>,
    pub joins: Pieces<Join>,
}

/// No instances and no joins, with room for those of these items.
fn room_for(alloc: Global, items: &[ItemV]) -> Result<Pins, NoMemory>
    ensures joins { IfOk result (λ pins. pins.joins ≡ []) }
    ensures instances { IfOk result (λ pins. pins.instances ≡ []) }
{
    let instances = Pieces::with_room(alloc, instance_count_of(items))?;
    let joins = Pieces::with_room(alloc, items.len())?;
    Ok(Pins { instances, joins })
}

/// Adds the joins of an item whose first instance has this number.
fn add_joins(
    alloc: Global,
    names: &NameSet,
    scopes: &[ModuleScope],
    table: &Table,
    near: &mut usize,
    number: u32,
    item: &ItemV,
    joins: &mut Pieces<Join>,
) -> Result<(), NoMemory>
    requires named { names.now ≡ map (λ m. m.name) (modules_in scopes.now) }
    requires few { number + instance_count item.now ≤ 268435456 }
    requires valid { IsItem item.now }
    requires small { item_size item.now ≤ 268435456 }
    requires numbers { All (λ signal. HasNumbers signal.slot) table.now }
    ensures added { OnOk result (joins.new
        ≡ joins.old ++ item_joins (modules_in scopes.now) table.now number item.now) }
{
    push_item_joins(
        alloc,
        names,
        scopes,
        table,
        near,
        number,
        item,
        &mut joins.last,
    )?;
    joins.turn()?;
    Ok(())
}

/// Adds the instances of an item. Literals are spelled in `spelling`, whatever stands there.
fn add_instances(
    alloc: Global,
    names: &NameSet,
    found: &Groups<'_, &DefSet>,
    item: &ItemV,
    spelling: &mut Vec<u8>,
    instances: &mut Pieces<HInst>,
) -> Result<(), NoMemory>
    requires { length names.now < 2 ^ 32 }
    ensures added { OnOk result (instances.new
        ≡ instances.old
        ++ flat_map (instances_by names.now found.now) (instance_statement item.now)) }
{
    add_item(alloc, names, found, item, &mut instances.last, spelling)?;
    instances.turn()?;
    Ok(())
}

/// Adds the joins and the instances of an item whose first instance has this number.
fn add_item_pins(
    alloc: Global,
    names: &NameSet,
    scopes: &[ModuleScope],
    table: &Table,
    near: &mut usize,
    found: &Groups<'_, &DefSet>,
    number: u32,
    item: &ItemV,
    spelling: &mut Vec<u8>,
    pins: &mut Pins,
) -> Result<(), NoMemory>
    requires named { names.now ≡ map (λ m. m.name) (modules_in scopes.now) }
    requires modules { length (modules_in scopes.now) < 2 ^ 32 }
    requires few { number + instance_count item.now ≤ 268435456 }
    requires valid { IsItem item.now }
    requires small { item_size item.now ≤ 268435456 }
    requires numbers { All (λ signal. HasNumbers signal.slot) table.now }
    ensures joins { OnOk result (pins.new.joins
        ≡ pins.old.joins ++ item_joins (modules_in scopes.now) table.now number item.now) }
    ensures instances { OnOk result (pins.new.instances
        ≡ pins.old.instances
        ++ flat_map (instances_by names.now found.now) (instance_statement item.now)) }
{
    add_joins(
        alloc,
        names,
        scopes,
        table,
        near,
        number,
        item,
        &mut pins.joins,
    )?;
    add_instances(alloc, names, found, item, spelling, &mut pins.instances)?;
    Ok(())
}

/// Adds the joins and the instances of an item whose first instance has this number, and leaves the item, or keeps it in `left` where there is
/// room for it. It is left in one place, whether there was memory or not: each exit that drops an item is slow to prove.
fn add_pins(
    alloc: Global,
    names: &NameSet,
    scopes: &[ModuleScope],
    table: &Table,
    near: &mut usize,
    found: &Groups<'_, &DefSet>,
    number: u32,
    item: ItemV,
    left: &mut Vec<ItemV>,
    spelling: &mut Vec<u8>,
    pins: &mut Pins,
) -> Result<(), NoMemory>
    requires named { names.now ≡ map (λ m. m.name) (modules_in scopes.now) }
    requires modules { length (modules_in scopes.now) < 2 ^ 32 }
    requires few { number + instance_count item ≤ 268435456 }
    requires valid { IsItem item }
    requires small { item_size item ≤ 268435456 }
    requires numbers { All (λ signal. HasNumbers signal.slot) table.now }
    ensures joins { OnOk result (pins.new.joins
        ≡ pins.old.joins ++ item_joins (modules_in scopes.now) table.now number item) }
    ensures instances { OnOk result (pins.new.instances
        ≡ pins.old.instances
        ++ flat_map (instances_by names.now found.now) (instance_statement item)) }
{
    let added = add_item_pins(
        alloc, names, scopes, table, near, found, number, &item, spelling, pins,
    );
    leave(item, left);
    added
}

/// The instances and the joins of these items, of which the last comes first, where `scopes` are the modules below, `names` their names,
/// `table` what the names of the module stand for, and `found` the values by `defparam`. An item that is done is left, or kept in `left`
/// where there is room for it.
pub(crate) fn pins_made(
    alloc: Global,
    names: &NameSet,
    scopes: &[ModuleScope],
    table: &Table,
    found: &Groups<'_, &DefSet>,
    mut items: Vec<ItemV>,
    left: &mut Vec<ItemV>,
) -> Result<Pins, NoMemory>
    requires named { names.now ≡ map (λ m. m.name) (modules_in scopes.now) }
    requires few { length (modules_in scopes.now) < 2 ^ 32 }
    requires valid { AllByRecursion IsItem (reverse items.items) }
    requires small { list_size item_size (reverse items.items) ≤ 268435456 }
    requires numbers { All (λ signal. HasNumbers signal.slot) table.now }
    ensures joins { IfOk result (λ pins. pins.joins
        ≡ joins_from (modules_in scopes.now) table.now 0 (reverse items.items)) }
    ensures instances { IfOk result (λ pins. pins.instances
        ≡ flat_map (instances_by names.now found.now)
        (flat_map instance_statement (reverse items.items))) }
{
    let mut pins = room_for(alloc, items.as_slice())?;
    let mut spelling = Vec::new(alloc);
    let mut number: u32 = 0;
    let mut near: usize = 0;
    while let Some(item) = items.pop() {
        let count = instance_count(&item);
        add_pins(
            alloc,
            names,
            scopes,
            table,
            &mut near,
            found,
            number,
            item,
            left,
            &mut spelling,
            &mut pins,
        )?;
        number += count;
        give_back(&mut items);
    }
    Ok(pins)
}
