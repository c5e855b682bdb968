// Joins of nodes in a row with an expression: no list is made of the bits of a name.
ghost use Rattle.std.specs.Prelude.{◌≡◌, ◌+◌, ◌≤◌, ◌^◌, ◌++◌, All, drop, flat_map, length, IfOk, OnOk, Some};
ghost use Rattle.vlog_design.specs.Design.{joins_between};
ghost use Rattle.vlog_design.specs.Exprs.{bits, literals, signal_bits};
ghost use Rattle.vlog_design.specs.Numbers.{HasDigits, HasNumbers};
ghost use Rattle.vlog_design.specs.Runs.{node_number, nodes_from};

use crate::bits::{node, push_bits, select_span};
use crate::joins::{behind, push_side_joins};
use crate::rows::{Row, push_row_joins};
use crate::runs::{Run, Runs};
use crate::signals::Slot;
use crate::table::Table;
use crate::widths::expr_width;
use net_hier::{Join, Node};
use nl_base::NoMemory;
use std::alloc::Global;
use vlog_values::{Expr, Select};

/// Adds the joins of what is left of a side with a selected part of a port or net, and answers what is left then.
fn push_selected_joins(
    left: Row,
    slot: Slot,
    select: Select,
    out: &mut Vec<Join>,
) -> Result<Row, NoMemory>
    requires { HasNumbers slot }
    ensures added { OnOk result (out.new.items
        ≡ out.old.items ++ joins_between left (signal_bits (Some slot) select)) }
    ensures left { IfOk result
        (λ rest. rest ≡ drop (length (signal_bits (Some slot) select)) left) }
{
    match select_span(slot.range, select) {
        None => Ok(left),
        Some(span) => push_row_joins(left, node(slot.place, span.first), span.count, out),
    }
}

/// Adds the joins of what is left of a side with the bits of an expression, which are made first.
fn push_made_joins(
    alloc: Global,
    table: &Table,
    left: Row,
    expr: &Expr,
    out: &mut Vec<Join>,
) -> Result<Row, NoMemory>
    requires digits { All HasDigits (literals expr.now) }
    requires numbers { All (λ signal. HasNumbers signal.slot) table.now }
    ensures added { OnOk result (out.new.items
        ≡ out.old.items ++ joins_between left (bits table.now expr.now)) }
    ensures left { IfOk result (λ rest. rest ≡ drop (length (bits table.now expr.now)) left) }
{
    let mut made = Runs::empty(alloc);
    push_bits(alloc, table, expr, &mut made)?;
    let run = [Run {
        gap: 0,
        first: left.first,
        count: left.count,
    }];
    let _rest = push_side_joins(behind(0, &run), &made, out)?;
    Ok(left.behind(expr_width(table, expr)))
}

/// Adds the joins of what is left of a side with a part of a concatenation, and answers what is left then.
fn push_part_joins(
    alloc: Global,
    table: &Table,
    near: &mut usize,
    left: Row,
    expr: &Expr,
    out: &mut Vec<Join>,
) -> Result<Row, NoMemory>
    requires digits { All HasDigits (literals expr.now) }
    requires numbers { All (λ signal. HasNumbers signal.slot) table.now }
    ensures added { OnOk result (out.new.items
        ≡ out.old.items ++ joins_between left (bits table.now expr.now)) }
    ensures left { IfOk result (λ rest. rest ≡ drop (length (bits table.now expr.now)) left) }
{
    if let Expr::Ref { select, name } = expr {
        return match table.find_near(near, name.bytes()) {
            None => Ok(left),
            Some(slot) => push_selected_joins(left, slot, *select, out),
        };
    }
    push_made_joins(alloc, table, left, expr, out)
}

/// Adds the joins of what is left of a side with the parts of a concatenation, and answers what is left then.
fn push_parts_joins(
    alloc: Global,
    table: &Table,
    near: &mut usize,
    left: Row,
    parts: &[Expr],
    out: &mut Vec<Join>,
) -> Result<Row, NoMemory>
    requires digits { All HasDigits (flat_map literals parts.now) }
    requires numbers { All (λ signal. HasNumbers signal.slot) table.now }
    ensures added { OnOk result (out.new.items
        ≡ out.old.items ++ joins_between left (flat_map (bits table.now) parts.now)) }
    ensures left { IfOk result
        (λ rest. rest ≡ drop (length (flat_map (bits table.now) parts.now)) left) }
{
    let mut rest = left;
    for part in parts {
        rest = push_part_joins(alloc, table, near, rest, part, out)?;
    }
    Ok(rest)
}

/// Adds the joins of what is left of a side with an expression, and answers what is left then.
fn push_expr_joins(
    alloc: Global,
    table: &Table,
    near: &mut usize,
    left: Row,
    expr: &Expr,
    out: &mut Vec<Join>,
) -> Result<Row, NoMemory>
    requires digits { All HasDigits (literals expr.now) }
    requires numbers { All (λ signal. HasNumbers signal.slot) table.now }
    ensures added { OnOk result (out.new.items
        ≡ out.old.items ++ joins_between left (bits table.now expr.now)) }
    ensures left { IfOk result (λ rest. rest ≡ drop (length (bits table.now expr.now)) left) }
{
    if let Expr::Cat(parts) = expr {
        return push_parts_joins(alloc, table, near, left, parts.items(), out);
    }
    push_part_joins(alloc, table, near, left, expr, out)
}

/// Adds the joins of so many nodes, from the first on, with the bits of an expression. Its names are looked for near the last one.
pub fn push_node_joins(
    alloc: Global,
    table: &Table,
    near: &mut usize,
    first: Node,
    count: u32,
    expr: &Expr,
    out: &mut Vec<Join>,
) -> Result<(), NoMemory>
    requires fits { node_number first + count ≤ 2 ^ 32 }
    requires digits { All HasDigits (literals expr.now) }
    requires numbers { All (λ signal. HasNumbers signal.slot) table.now }
    ensures added { OnOk result (out.new.items
        ≡ out.old.items ++ joins_between (nodes_from first count) (bits table.now expr.now)) }
{
    let row = Row { first, count };
    let _rest = push_expr_joins(alloc, table, near, row, expr, out)?;
    Ok(())
}
