// The width of an expression.
ghost use Rattle.std.specs.Prelude.{◌≡◌, ◌<◌, IfSome, ◌-◌, ◌*◌, ◌^◌, min, sum, map, option_map, Option, Some, None, List};
ghost use Rattle.vlog_design.specs.Exprs.{span_count, span_of, times, width};
ghost use Rattle.vlog_design.specs.Names.{signal_named};
ghost use Rattle.net_hier.specs.Cells.{width_of};
ghost use Rattle.vlog_design.specs.Ranges.{position_of, selected};

use crate::table::Table;
use nl_base::{Int, Range};
use vlog_values::{Expr, Select};

/// How many bits a port or net has.
pub fn range_width(range: Option<Range>) -> u64
    ensures { result ≡ width_of range }
{
    match range {
        None => 1,
        Some(range) => range.bits(),
    }
}

/// The position of an index from the left, where the range holds the index.
#[tactic(auto, using(crate::proofs::Positions::position_within), unfolding(crate::specs::Ranges::position_of))]
pub fn position(range: Range, index: i32) -> Option<u32>
    ensures position { result ≡ position_of range index }
    ensures within { IfSome result (λ p. p < width_of (Some range)) }
{
    if (range.right <= index && index <= range.left)
        || (range.left <= index && index <= range.right)
    {
        Some(range.left.abs_diff(index))
    } else {
        None
    }
}

/// The number of bits that a select means, or 0 where it means none.
#[tactic(auto, unfolding(crate::specs::Ranges::selected))]
pub fn selected_width(range: Option<Range>, select: Select) -> u64
    ensures { result ≡ span_count (selected range select) }
{
    match select {
        Select::All => range_width(range),
        Select::One(index) => match range {
            None => 0,
            Some(range) => match position(range, index) {
                None => 0,
                Some(_) => 1,
            },
        },
        Select::Slice(from, to) => match range {
            None => 0,
            Some(range) => match (position(range, from), position(range, to)) {
                (Some(p), Some(q)) => { if p <= q { u64::from(q - p) + 1 } else { 0 } }
                _ => 0,
            },
        },
    }
}

/// How many bits an expression has, or 2^64-1 where there are more. Its names are looked for near the last one.
#[cycle(width)]
pub fn width_near(table: &Table, near: &mut usize, expr: &Expr) -> u64
    ensures { result ≡ min (2 ^ 64 - 1) (width table.now expr.now) }
{
    match expr {
        Expr::Ref { select, name } => match table.find_near(near, name.bytes()) {
            None => 0,
            Some(slot) => selected_width(slot.range, *select),
        },
        Expr::Lit(literal) => u64::from(literal.get().size),
        Expr::LooseNumber(_) => 0,
        Expr::Loose(_) => 0,
        Expr::Cat(parts) => parts_width(table, near, parts.items()),
        Expr::Rep(count, parts) => {
            times(count).saturating_mul(parts_width(table, near, parts.get().items()))
        }
    }
}

#[cycle(width)]
fn parts_width(table: &Table, near: &mut usize, parts: &[Expr]) -> u64
    ensures { result ≡ min (2 ^ 64 - 1) (sum (map (width table.now) parts.now)) }
{
    let mut total: u64 = 0;
    for part in parts {
        total = total.saturating_add(width_near(table, near, part));
    }
    total
}

/// How many bits an expression has, or 2^64-1 where there are more.
pub fn expr_width(table: &Table, expr: &Expr) -> u64
    ensures { result ≡ min (2 ^ 64 - 1) (width table.now expr.now) }
{
    let mut near: usize = 0;
    width_near(table, &mut near, expr)
}

// How often a replication repeats its parts.
pub fn times(count: &Int) -> u64
    ensures { result ≡ times count.now }
{
    let count = count.value();
    if count < 0 { 0 } else { count.unsigned_abs() }
}
