// A module in two parts, so that its statements can be left while its cell is made.
ghost use Rattle.std.specs.Prelude.{◌≡◌, ◌++◌, ◌∷◌, [], flat_map, reverse, IfOk, OnOk};
ghost use Rattle.vlog_values.specs.declared.module.ItemV.TheVariants as item_values;
ghost use Rattle.vlog_cells.specs.Parts.{bare_net, declared_item, declared_part, tying_item, tying_items};

use nl_base::{BoxedList, InlineList, NoMemory, Seq, Text};
use std::alloc::Global;
use vlog_values::{ItemV, Module, NetDecl, NetKind};

/// What a module declares, and its items that tie nodes: assignments, instances and supplies.
#[derive(Drop)]
pub(crate) struct Parts {
    /// The module without its assignments and instances.
    pub declared: Module,
    /// The items that tie nodes, the last one first.
    pub tying: Vec<ItemV>,
    /// The list from which the items were taken, which is empty and has room for those of a small module.
    pub left: Vec<ItemV>,
}

/// Copies of names.
fn names_copied(alloc: Global, names: &[Text]) -> Result<InlineList<Text>, NoMemory>
    ensures { IfOk result (λ made. made ≡ names.now) }
{
    let mut made = InlineList::empty();
    for name in names {
        made.push(alloc, Text::copy(alloc, name.bytes())?)?;
    }
    Ok(made)
}

/// The declaration without its attributes.
fn net_copied(alloc: Global, decl: &NetDecl) -> Result<NetDecl, NoMemory>
    ensures { IfOk result (λ made. made ≡ bare_net decl.now) }
{
    let names = names_copied(alloc, decl.names.items())?;
    Ok(NetDecl {
        attrs: BoxedList::empty(),
        kind: decl.kind,
        signed: decl.signed,
        range: decl.range,
        names,
    })
}

/// Adds a declaration of supplies to what ties nodes; other nets tie nothing.
fn add_supply(alloc: Global, decl: &NetDecl, tying: &mut Vec<ItemV>) -> Result<(), NoMemory>
    ensures added { OnOk result (tying.new.items
        ≡ tying.old.items ++ tying_item (item_values.Net decl.now)) }
{
    match decl.kind {
        NetKind::Wire => Ok(()),
        NetKind::Tri => Ok(()),
        NetKind::Supply0 | NetKind::Supply1 => {
            let supply = net_copied(alloc, decl)?;
            tying.push(ItemV::Net(supply))?;
            Ok(())
        }
    }
}

/// Adds the item to the part to which it belongs; supplies belong to both.
fn part_item(
    alloc: Global,
    item: ItemV,
    declared: &mut Vec<ItemV>,
    tying: &mut Vec<ItemV>,
) -> Result<(), NoMemory>
    ensures declared { OnOk result (declared.new.items
        ≡ declared.old.items ++ declared_item item) }
    ensures tying { OnOk result (tying.new.items ≡ tying.old.items ++ tying_item item) }
{
    match item {
        ItemV::Net(decl) => {
            add_supply(alloc, &decl, tying)?;
            declared.push(ItemV::Net(decl))?;
        }
        ItemV::Assign(_) | ItemV::Instances(_) => tying.push(item)?,
        ItemV::Port(_) | ItemV::Param(_) | ItemV::Defparam(_) => declared.push(item)?,
    }
    Ok(())
}

/// Room for so many items is not given back, and items for which there is room stay until the cell is made: what single items of a small module
/// leave are small places between the parts of its cell, of which the next cell can use few.
const FEW: usize = 4096;

/// Gives room for many items back where at least a quarter of it is spare.
pub(crate) fn give_back(items: &mut Vec<ItemV>)
    ensures { items.new.items ≡ items.old.items }
{
    if items.capacity() > FEW && items.len() <= items.capacity() / 4 * 3 {
        items.shrink_to_fit();
    }
}

/// Leaves the item, or keeps it where there is room for it.
pub(crate) fn leave(item: ItemV, left: &mut Vec<ItemV>) {
    if left.len() < left.capacity() {
        left.push_reserved(item);
    }
}

/// Whether the item is an assignment or a statement of instances.
fn is_statement(item: &ItemV) -> bool {
    match item {
        ItemV::Assign(_) | ItemV::Instances(_) => true,
        ItemV::Port(_) | ItemV::Net(_) | ItemV::Param(_) | ItemV::Defparam(_) => false,
    }
}

/// How many assignments and statements of instances there are.
fn statement_count(items: &[ItemV]) -> usize {
    let mut count: usize = 0;
    for item in items {
        count = count.saturating_add(is_statement(item) as usize);
    }
    count
}

/// Takes the items from the end of their list: those that are no assignments and no instances, and those that tie nodes, the last one first.
fn items_parted(alloc: Global, left: &mut Vec<ItemV>) -> Result<(Vec<ItemV>, Vec<ItemV>), NoMemory>
    ensures declared { IfOk result (λ parts. parts.0.items
        ≡ flat_map declared_item left.old.items) }
    ensures tying { IfOk result (λ parts. reverse parts.1.items
        ≡ flat_map tying_item left.old.items) }
{
    let statements = statement_count(left.as_slice());
    let mut declared = Vec::with_capacity(alloc, left.len().saturating_sub(statements))?;
    let mut tying = Vec::with_capacity(alloc, statements)?;
    while let Some(item) = left.pop() {
        part_item(alloc, item, &mut declared, &mut tying)?;
        give_back(left);
    }
    declared.reverse();
    Ok((declared, tying))
}

/// A module in two parts.
pub(crate) fn parted(alloc: Global, m: Module) -> Result<Parts, NoMemory>
    ensures declared { IfOk result (λ parts. parts.declared ≡ declared_part m) }
    ensures tying { IfOk result (λ parts. reverse parts.tying.items ≡ tying_items m) }
{
    let Module {
        attrs,
        name,
        implicit,
        params,
        header,
        items,
    } = m;
    let mut left = items.into_vec();
    let (declared, tying) = items_parted(alloc, &mut left)?;
    Ok(Parts {
        declared: Module {
            attrs,
            name,
            implicit,
            params,
            header,
            items: Seq::of(declared),
        },
        tying,
        left,
    })
}
