// The bits of an expression.
ghost use Rattle.std.specs.Prelude.{◌≡◌, ◌+◌, ◌≤◌, ◌<◌, ◌^◌, ◌++◌, All, flat_map, map, replicate, OnOk, IfOk, OnSome, IfSome, Some, None};
ghost use Rattle.vlog_design.specs.Exprs.{bits, constant_bit, literals, node_at, repeated, signal_bits, span_bits};
ghost use Rattle.vlog_design.specs.Names.{signal_named};
ghost use Rattle.vlog_design.specs.Ranges.{selected};
ghost use Rattle.net_hier.specs.Cells.{width_of};
ghost use Rattle.vlog_design.specs.Numbers.{HasDigits, HasNumbers, first_number};

use crate::runs::Runs;
use crate::signals::{SignalAt, Slot, Span};
use crate::table::Table;
use crate::widths::{position, times};
use net_hier::Node;
use nl_base::{NoMemory, Range};
use std::alloc::Global;
use vlog_values::{Bit, Expr, FilledBits, Select, filled_bits_of};

/// The positions that a select means.
#[tactic(auto, unfolding(crate::specs::Ranges::selected))]
pub fn select_span(range: Option<Range>, select: Select) -> Option<Span>
    requires { width_of range ≤ 65536 }
    ensures value { result ≡ selected range select }
    ensures within { IfSome result (λ span. span.first + span.count ≤ width_of range) }
    ensures some { IfSome result (λ span. 1 ≤ span.count) }
{
    match select {
        Select::All => match range {
            None => Some(Span { first: 0, count: 1 }),
            Some(range) => Some(Span {
                first: 0,
                count: range.left.abs_diff(range.right) + 1,
            }),
        },
        Select::One(index) => match range {
            None => None,
            Some(range) => match position(range, index) {
                None => None,
                Some(p) => Some(Span { first: p, count: 1 }),
            },
        },
        Select::Slice(from, to) => match range {
            None => None,
            Some(range) => match (position(range, from), position(range, to)) {
                (Some(p), Some(q)) => {
                    if p <= q {
                        Some(Span {
                            first: p,
                            count: q - p + 1,
                        })
                    } else {
                        None
                    }
                }
                _ => None,
            },
        },
    }
}

/// The node of a bit of a port or net, by its position from the left.
pub fn node(place: SignalAt, bit: u32) -> Node
    requires { first_number place + bit < 2 ^ 32 }
    ensures { result ≡ node_at place bit }
{
    match place {
        SignalAt::AtPort(number) => Node::Port { port: number, bit },
        SignalAt::AtNet(first) => Node::Net(first as u32 + bit),
    }
}

fn push_span(place: SignalAt, span: Span, out: &mut Runs) -> Result<(), NoMemory>
    requires some { 1 ≤ span.count }
    requires fits { first_number place + (span.first + span.count) ≤ 2 ^ 32 }
    ensures added { OnOk result (out.new ≡ out.old ++ span_bits place span) }
{
    out.push_nodes(node(place, span.first), span.count)
}

/// Adds so many bits of one kind.
fn push_constants(bit: Bit, count: u32, out: &mut Runs) -> Result<(), NoMemory>
    ensures added { OnOk result (out.new ≡ out.old ++ replicate count (constant_bit bit)) }
{
    match bit {
        Bit::Zero => out.push_nodes(Node::Zero, count),
        Bit::One => out.push_nodes(Node::One, count),
        Bit::X => out.push_nothing(u64::from(count)),
        Bit::Z => out.push_nothing(u64::from(count)),
    }
}

/// Adds the bits of a literal.
fn push_literal(bits: &FilledBits, out: &mut Runs) -> Result<(), NoMemory>
    ensures added { OnOk result (out.new
        ≡ out.old ++ map constant_bit (replicate bits.now.filled bits.now.fill
        ++ bits.now.own.items)) }
{
    push_constants(bits.fill, bits.filled, out)?;
    for bit in &bits.own {
        push_constants(*bit, 1, out)?;
    }
    Ok(())
}

/// Adds the bits of an expression, from the left.
#[cycle(bits)]
pub fn push_bits(alloc: Global, table: &Table, expr: &Expr, out: &mut Runs) -> Result<(), NoMemory>
    requires digits { All HasDigits (literals expr.now) }
    requires numbers { All (λ signal. HasNumbers signal.slot) table.now }
    ensures added { OnOk result (out.new ≡ out.old ++ bits table.now expr.now) }
{
    match expr {
        Expr::Ref { select, name } => match table.find(name.bytes()) {
            None => Ok(()),
            Some(slot) => push_selected(slot, *select, out),
        },
        Expr::Lit(literal) => {
            let literal_bits = filled_bits_of(alloc, literal.get())?;
            push_literal(&literal_bits, out)
        }
        Expr::LooseNumber(_) => Ok(()),
        Expr::Loose(_) => Ok(()),
        Expr::Cat(parts) => push_parts(alloc, table, parts.items(), out),
        Expr::Rep(count, parts) => {
            push_replication(alloc, table, times(count), parts.get().items(), out)
        }
    }
}

/// Adds the bits of parts so many times. Parts that stand no times are not made, and parts that stand once are not copied.
#[cycle(bits)]
fn push_replication(
    alloc: Global,
    table: &Table,
    count: u64,
    parts: &[Expr],
    out: &mut Runs,
) -> Result<(), NoMemory>
    requires digits { All HasDigits (flat_map literals parts.now) }
    requires numbers { All (λ signal. HasNumbers signal.slot) table.now }
    ensures added { OnOk result (out.new
        ≡ out.old ++ repeated count (flat_map (bits table.now) parts.now)) }
{
    if count == 0 {
        return Ok(());
    }
    if count == 1 {
        return push_parts(alloc, table, parts, out);
    }
    let mut once = Runs::empty(alloc);
    push_parts(alloc, table, parts, &mut once)?;
    out.push_repeated(&once, count)
}

#[cycle(bits)]
fn push_parts(alloc: Global, table: &Table, parts: &[Expr], out: &mut Runs) -> Result<(), NoMemory>
    requires digits { All HasDigits (flat_map literals parts.now) }
    requires numbers { All (λ signal. HasNumbers signal.slot) table.now }
    ensures added { OnOk result (out.new ≡ out.old ++ flat_map (bits table.now) parts.now) }
{
    for part in parts {
        push_bits(alloc, table, part, out)?;
    }
    Ok(())
}

fn push_selected(slot: Slot, select: Select, out: &mut Runs) -> Result<(), NoMemory>
    requires { HasNumbers slot }
    ensures added { OnOk result (out.new ≡ out.old ++ signal_bits (Some slot) select) }
{
    match select_span(slot.range, select) {
        None => Ok(()),
        Some(span) => push_span(slot.place, span, out),
    }
}
