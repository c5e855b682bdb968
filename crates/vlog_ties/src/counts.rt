// The number of joins of a module before any is made, and how many there are at most.
ghost use Rattle.std.specs.Prelude.{◌≡◌, ◌≤◌, ◌-◌, ◌^◌, [], All, count_by, flat_map, length, map, min, replicate, slice_get, sum, sum_by, IfOk};
ghost use Rattle.std.specs.Option.{option_map_or};
ghost use Rattle.vlog_design.specs.Design.{module_joins};
ghost use Rattle.vlog_design.specs.Exprs.{is_live, literals, live_width};
ghost use Rattle.vlog_design.specs.Numbers.{HasDigits};
ghost use Rattle.vlog_design.specs.Rules.{unequal_widths, unsized};
ghost use Rattle.vlog_values.specs.Sizes.{module_size};
ghost use Rattle.vlog_values.specs.Values.{IsModule};
ghost use Rattle.vlog_ties.specs.Ties.{all_tied, modules_in, signal_width, tie_literals, tied, tied_count, tied_most};

use crate::tie::Tie;
use crate::ties::ties_of;
use nl_base::NoMemory;
use std::alloc::Global;
use vlog_design::names::NameSet;
use vlog_design::table::Table;
use vlog_design::widths::{expr_width, range_width, selected_width, times};
use vlog_rules::passes::ModuleScope;
use vlog_values::{Bit, Expr, filled_bits_of};

fn is_live(bit: Bit) -> bool
    ensures { result ≡ is_live bit }
{
    match bit {
        Bit::Zero => true,
        Bit::One => true,
        Bit::X => false,
        Bit::Z => false,
    }
}

/// How many of so many bits of one kind are 0 or 1.
fn live_copies(bit: Bit, count: u32) -> u64
    ensures { result ≡ count_by is_live (replicate count bit) }
{
    if is_live(bit) { u64::from(count) } else { 0 }
}

/// How many of the bits are 0 or 1.
fn live_bits(bits: &[Bit]) -> u64
    ensures { result ≡ count_by is_live bits.now }
{
    let mut count: u64 = 0;
    for bit in bits {
        if is_live(*bit) {
            count += 1;
        }
    }
    count
}

/// How many bits of an expression are something, or 2^64-1 where there are more.
#[cycle(live)]
fn live_width(alloc: Global, table: &Table, expr: &Expr) -> Result<u64, NoMemory>
    requires { All HasDigits (literals expr.now) }
    ensures { IfOk result (λ count. count ≡ min (2 ^ 64 - 1) (live_width table.now expr.now)) }
{
    match expr {
        Expr::Ref { select, name } => match table.find(name.bytes()) {
            None => Ok(0),
            Some(slot) => Ok(selected_width(slot.range, *select)),
        },
        Expr::Lit(literal) => {
            let bits = filled_bits_of(alloc, literal.get())?;
            Ok(live_copies(bits.fill, bits.filled).saturating_add(live_bits(&bits.own)))
        }
        Expr::LooseNumber(_) => Ok(0),
        Expr::Loose(_) => Ok(0),
        Expr::Cat(parts) => live_width_in(alloc, table, parts.items()),
        Expr::Rep(count, parts) => {
            let once = live_width_in(alloc, table, parts.get().items())?;
            Ok(times(count).saturating_mul(once))
        }
    }
}

#[cycle(live)]
fn live_width_in(alloc: Global, table: &Table, parts: &[Expr]) -> Result<u64, NoMemory>
    requires { All HasDigits (flat_map literals parts.now) }
    ensures { IfOk result (λ count. count
        ≡ min (2 ^ 64 - 1) (sum (map (live_width table.now) parts.now))) }
{
    let mut total: u64 = 0;
    for part in parts {
        total = total.saturating_add(live_width(alloc, table, part)?);
    }
    Ok(total)
}

/// How many joins a tie has, or 2^64-1 where there are more.
fn tie_count(alloc: Global, table: &Table, tie: &Tie) -> Result<u64, NoMemory>
    requires { All HasDigits (tie_literals tie.now) }
    ensures { IfOk result (λ count. count
        ≡ min (2 ^ 64 - 1) (tied_count table.now (tied tie.now))) }
{
    match *tie {
        Tie::Pin { value, .. } => live_width(alloc, table, value),
        Tie::Assign { right, .. } => live_width(alloc, table, right),
        Tie::Supply { name, .. } => match table.find(name) {
            None => Ok(0),
            Some(slot) => Ok(range_width(slot.range)),
        },
    }
}

/// How many joins ties have, or 2^64-1 where there are more.
fn ties_count(alloc: Global, table: &Table, ties: &[Tie]) -> Result<u64, NoMemory>
    requires { All HasDigits (flat_map tie_literals ties.now) }
    ensures { IfOk result (λ count. count
        ≡ min (2 ^ 64 - 1) (sum (map (tied_count table.now) (all_tied ties.now)))) }
{
    let mut total: u64 = 0;
    for tie in ties {
        total = total.saturating_add(tie_count(alloc, table, tie)?);
    }
    Ok(total)
}

/// How many joins a module has, or 2^64-1 where there are more; `scopes` are the modules below it and `names` their names. The two sides
/// of each connection and assignment have one width, and no unsized literal.
pub fn join_count(
    alloc: Global,
    names: &NameSet,
    scopes: &[ModuleScope],
    scope: &ModuleScope,
) -> Result<u64, NoMemory>
    requires named { names.now ≡ map (λ m. m.name) (modules_in scopes.now) }
    requires valid { IsModule scope.now.module.now }
    requires small { module_size scope.now.module.now ≤ 268435456 }
    requires equal { unequal_widths (modules_in scopes.now) scope.now.module.now ≡ [] }
    requires sized { unsized (modules_in scopes.now) scope.now.module.now ≡ [] }
    ensures { IfOk result (λ count. count
        ≡ min (2 ^ 64 - 1) (length (module_joins (modules_in scopes.now) scope.now.module.now))) }
{
    let ties = ties_of(alloc, names, scopes, scope.module)?;
    let count = ties_count(alloc, &scope.table, &ties)?;
    Ok(count)
}

/// How many bits the left side of a tie has, or 2^64-1 where there are more: it has no more joins.
fn left_bits(table: &Table, tie: &Tie) -> u64
    ensures { result ≡ min (2 ^ 64 - 1) (tied_most table.now (tied tie.now)) }
{
    match *tie {
        Tie::Pin { width, .. } => u64::from(width),
        Tie::Assign { left, .. } => expr_width(table, left),
        Tie::Supply { name, .. } => match table.find(name) {
            None => 0,
            Some(slot) => range_width(slot.range),
        },
    }
}

/// How many joins ties have at most, or 2^64-1 where there are more.
pub(crate) fn most_joins(table: &Table, ties: &[Tie]) -> u64
    ensures { result ≡ min (2 ^ 64 - 1) (sum_by (tied_most table.now) (all_tied ties.now)) }
{
    let mut most: u64 = 0;
    for tie in ties {
        most = most.saturating_add(left_bits(table, tie));
    }
    most
}

/// How many bits the port or net of this number has.
fn entry_bits(table: &Table, number: usize) -> u64
    ensures { result ≡ option_map_or signal_width (slice_get table.now number) 0 }
{
    match table.entry(number) {
        None => 0,
        Some((_name, slot)) => range_width(slot.range),
    }
}

/// How many bits the ports and nets have, or 2^64-1 where there are more.
pub fn table_bits(table: &Table) -> u64
    ensures { result ≡ min (2 ^ 64 - 1) (sum_by signal_width table.now) }
{
    let mut bits: u64 = 0;
    for number in 0..table.len() {
        bits = bits.saturating_add(entry_bits(table, number));
    }
    bits
}
