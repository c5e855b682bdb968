// The joins of what is tied.
ghost use Rattle.std.specs.Prelude.{◌≡◌, ◌++◌, ◌+◌, ◌≤◌, All, flat_map, map, OnOk};
ghost use Rattle.vlog_design.specs.Design.{instance_count, item_joins, pairing_of_assign, slot_joins};
ghost use Rattle.vlog_design.specs.Exprs.{literals};
ghost use Rattle.vlog_design.specs.Numbers.{HasDigits, HasNumbers};
ghost use Rattle.vlog_values.specs.Sizes.{item_size};
ghost use Rattle.vlog_values.specs.Values.{IsItem};
ghost use Rattle.vlog_ties.specs.Ties.{modules_in, pairing_joins, tie_joins, tie_literals};

use crate::tie::Tie;
use crate::ties::push_item_ties;
use net_hier::{Join, Node};
use nl_base::NoMemory;
use std::alloc::Global;
use vlog_design::bits::{node, push_bits};
use vlog_design::joins::push_joins;
use vlog_design::names::NameSet;
use vlog_design::node_joins::push_node_joins;
use vlog_design::runs::Runs;
use vlog_design::signals::Slot;
use vlog_design::table::Table;
use vlog_design::widths::range_width;
use vlog_rules::passes::ModuleScope;
use vlog_values::{Expr, ItemV};

/// Adds the joins of each bit of a port or net to a constant.
fn push_supply(slot: Slot, constant: Node, out: &mut Vec<Join>) -> Result<(), NoMemory>
    requires { HasNumbers slot }
    ensures added { OnOk result (out.new.items ≡ out.old.items ++ slot_joins constant slot) }
{
    let width = range_width(slot.range) as u32;
    for bit in 0..width {
        out.push(Join {
            a: node(slot.place, bit),
            b: constant,
        })?;
    }
    Ok(())
}

/// Adds the joins of an assignment.
fn push_assign(
    alloc: Global,
    table: &Table,
    left: &Expr,
    right: &Expr,
    out: &mut Vec<Join>,
) -> Result<(), NoMemory>
    requires digits { All HasDigits (literals left.now ++ literals right.now) }
    requires numbers { All (λ signal. HasNumbers signal.slot) table.now }
    ensures added { OnOk result (out.new.items
        ≡ out.old.items ++ pairing_joins (pairing_of_assign table.now left.now right.now)) }
{
    let mut left_bits = Runs::empty(alloc);
    push_bits(alloc, table, left, &mut left_bits)?;
    let mut right_bits = Runs::empty(alloc);
    push_bits(alloc, table, right, &mut right_bits)?;
    push_joins(&left_bits, &right_bits, out)
}

/// Adds the joins of what is tied.
fn push_tie(
    alloc: Global,
    table: &Table,
    near: &mut usize,
    tie: &Tie,
    out: &mut Vec<Join>,
) -> Result<(), NoMemory>
    requires digits { All HasDigits (tie_literals tie.now) }
    requires numbers { All (λ signal. HasNumbers signal.slot) table.now }
    ensures added { OnOk result (out.new.items ≡ out.old.items ++ tie_joins table.now tie.now) }
{
    match *tie {
        Tie::Pin {
            instance: _,
            number,
            port: _,
            port_number,
            width,
            value,
        } => {
            let first = Node::Pin {
                instance: number,
                port: port_number,
                bit: 0,
            };
            push_node_joins(alloc, table, near, first, width, value, out)
        }
        Tie::Assign { left, right } => push_assign(alloc, table, left, right, out),
        Tie::Supply { name, constant } => match table.find(name) {
            None => Ok(()),
            Some(slot) => push_supply(slot, constant, out),
        },
    }
}

/// Adds the joins of ties.
pub fn push_ties(
    alloc: Global,
    table: &Table,
    near: &mut usize,
    ties: &[Tie],
    out: &mut Vec<Join>,
) -> Result<(), NoMemory>
    requires digits { All HasDigits (flat_map tie_literals ties.now) }
    requires numbers { All (λ signal. HasNumbers signal.slot) table.now }
    ensures added { OnOk result (out.new.items
        ≡ out.old.items ++ flat_map (tie_joins table.now) ties.now) }
{
    for tie in ties {
        push_tie(alloc, table, near, tie, out)?;
    }
    Ok(())
}

/// Adds the joins of an item whose first instance has this number, where `scopes` are the modules below and `names` their names.
pub fn push_item_joins<'a>(
    alloc: Global,
    names: &NameSet,
    scopes: &[ModuleScope<'a>],
    table: &Table,
    near: &mut usize,
    number: u32,
    item: &'a ItemV,
    out: &mut Vec<Join>,
) -> Result<(), NoMemory>
    requires named { names.now ≡ map (λ m. m.name) (modules_in scopes.now) }
    requires few { number + instance_count item.now ≤ 268435456 }
    requires valid { IsItem item.now }
    requires small { item_size item.now ≤ 268435456 }
    requires numbers { All (λ signal. HasNumbers signal.slot) table.now }
    ensures added { OnOk result (out.new.items
        ≡ out.old.items ++ item_joins (modules_in scopes.now) table.now number item.now) }
{
    let mut ties = Vec::new(alloc);
    push_item_ties(names, scopes, number, item, &mut ties)?;
    push_ties(alloc, table, near, ties.as_slice(), out)
}
