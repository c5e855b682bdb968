// The connections of an instance.
ghost use Rattle.std.specs.Prelude.{◌≡◌, ◌+◌, ◌<◌, ◌≤◌, ◌∷◌, [], IfOk, IfSome};
ghost use Rattle.readers.specs.Readers.{same, room, Reads, Boxes};
ghost use Rattle.vlog_values.specs.Values.{AreSome, IsExpr, IsNamedConn, IsConns};
ghost use Rattle.vlog_values.specs.Sizes.{list_size, maybe_size, conn_size, conns_size};
ghost use Rattle.vlog_tokens.specs.Language.{vlog};
ghost use Rattle.vlog_exprs.specs.Grammar.{mark, commas, list, maybe_expr};
ghost use Rattle.vlog_items.specs.Grammar.{named_rest, named, order_of, named_conns, ordered_conns, conns};

use nl_base::{NoMemory, ReadError, Seq};
use nl_io::Source;
use std::alloc::Global;
use vlog_exprs::{VCursor, fitted, read_expr_if_any, seq_with_room};
use vlog_values::{Conns, Expr, NamedConn};

/// For how many connections by name an instance has room from the first: those of an inverter.
const FEW: usize = 2;

/// For how many connections by name there is room where there are more than few. The list is left for one that has just its room: what a
/// list gives back behind its end stays empty, as the instance is mostly larger.
const MANY: usize = 8;

/// Reads on behind the point of a connection by name.
#[inline(always)]
#[tactic(auto, using(readers::proofs::Reading::sequences), unfolding(crate::specs::Grammar::named_rest))]
fn read_named_rest<S: Source>(
    alloc: Global,
    cursor: &mut VCursor,
    source: &mut S,
) -> Result<NamedConn, ReadError>
    ensures reads { Reads vlog same named_rest result cursor.old cursor.new
        (S.supply source.old) (S.supply source.new) }
    ensures value { IfOk result IsNamedConn }
    ensures size { IfOk result (λ conn. conn_size conn + room cursor.new < room cursor.old) }
{
    let port = cursor.name(alloc, source)?;
    cursor.mark(alloc, b'(', source)?;
    let value = read_expr_if_any(alloc, cursor, source)?;
    cursor.mark(alloc, b')', source)?;
    Ok(NamedConn { port, value })
}

/// Reads a connection by name.
#[tactic(auto, using(readers::proofs::Reading::sequences), unfolding(crate::specs::Grammar::named))]
fn read_named<S: Source>(
    alloc: Global,
    cursor: &mut VCursor,
    source: &mut S,
) -> Result<NamedConn, ReadError>
    ensures reads { Reads vlog same named result cursor.old cursor.new
        (S.supply source.old) (S.supply source.new) }
    ensures value { IfOk result IsNamedConn }
    ensures size { IfOk result (λ conn. conn_size conn + room cursor.new < room cursor.old) }
{
    cursor.mark(alloc, b'.', source)?;
    let conn = read_named_rest(alloc, cursor, source)?;
    Ok(conn)
}

/// These connections in another list, with room for so many.
fn moved(alloc: Global, conns: Seq<NamedConn>, room: usize) -> Result<Seq<NamedConn>, NoMemory>
    ensures { IfOk result (λ made. made ≡ conns) }
{
    let mut left = conns.into_vec();
    let mut made = Vec::with_capacity(alloc, room)?;
    made.append(&mut left)?;
    Ok(Seq::of(made))
}

/// The same, where want of memory spends the cursor.
fn move_to(
    alloc: Global,
    cursor: &mut VCursor,
    conns: Seq<NamedConn>,
    room: usize,
) -> Result<Seq<NamedConn>, ReadError>
    ensures { Boxes conns result cursor.old cursor.new }
{
    match moved(alloc, conns, room) {
        Ok(made) => Ok(made),
        Err(_) => Err(cursor.no_memory()),
    }
}

/// These connections, with room for many where they are no longer few.
#[inline(always)]
fn roomy(
    alloc: Global,
    cursor: &mut VCursor,
    conns: Seq<NamedConn>,
) -> Result<Seq<NamedConn>, ReadError>
    ensures { Boxes conns result cursor.old cursor.new }
{
    if conns.len() != FEW {
        return Ok(conns);
    }
    move_to(alloc, cursor, conns, MANY)
}

/// These connections, without room for further ones.
fn packed(
    alloc: Global,
    cursor: &mut VCursor,
    conns: Seq<NamedConn>,
) -> Result<Seq<NamedConn>, ReadError>
    ensures { Boxes conns result cursor.old cursor.new }
{
    let count = conns.len();
    if count <= FEW || count >= MANY {
        return Ok(fitted(conns));
    }
    move_to(alloc, cursor, conns, count)
}

/// Reads further connections by name, each behind a comma, up to the `)`, and adds them to others.
#[tactic(auto, using(readers::proofs::Choices::loops), unfolding(vlog_exprs::specs::Grammar::commas))]
fn read_more_named<S: Source>(
    alloc: Global,
    cursor: &mut VCursor,
    mut conns: Seq<NamedConn>,
    source: &mut S,
) -> Result<Seq<NamedConn>, ReadError>
    requires { AreSome IsNamedConn conns }
    ensures reads { Reads vlog same (commas named (mark 41) conns) result cursor.old cursor.new
        (S.supply source.old) (S.supply source.new) }
    ensures value { IfOk result (AreSome IsNamedConn) }
    ensures size { IfOk result
        (λ all. list_size conn_size all + room cursor.new
        < room cursor.old + list_size conn_size conns) }
{
    while cursor.takes(alloc, b',', source)? {
        let conn = read_named(alloc, cursor, source)?;
        conns = roomy(alloc, cursor, conns)?;
        cursor.add(&mut conns, conn)?;
    }
    cursor.mark(alloc, b')', source)?;
    Ok(conns)
}

/// Reads connections by name up to the `)`, behind the point of the first.
#[tactic(auto, using(readers::proofs::Reading::sequences), unfolding(crate::specs::Grammar::named_conns))]
fn read_named_conns<S: Source>(
    alloc: Global,
    cursor: &mut VCursor,
    source: &mut S,
) -> Result<Conns, ReadError>
    ensures reads { Reads vlog same named_conns result cursor.old cursor.new
        (S.supply source.old) (S.supply source.new) }
    ensures value { IfOk result IsConns }
    ensures size { IfOk result (λ conns. conns_size conns + room cursor.new ≤ room cursor.old) }
{
    let first = read_named_rest(alloc, cursor, source)?;
    let mut conns = seq_with_room(alloc, FEW);
    cursor.add(&mut conns, first)?;
    let conns = read_more_named(alloc, cursor, conns, source)?;
    let conns = packed(alloc, cursor, conns)?;
    Ok(Conns::Named(conns))
}

/// Reads expressions that may be left out, up to the `)`.
#[tactic(auto, using(readers::proofs::Choices::loops), unfolding(vlog_exprs::specs::Grammar::list, vlog_exprs::specs::Grammar::commas))]
fn read_exprs<S: Source>(
    alloc: Global,
    cursor: &mut VCursor,
    source: &mut S,
) -> Result<Seq<Option<Expr>>, ReadError>
    ensures reads { Reads vlog same (list maybe_expr (mark 41)) result cursor.old cursor.new
        (S.supply source.old) (S.supply source.new) }
    ensures value { IfOk result (AreSome (λ e. IfSome e IsExpr)) }
    ensures size { IfOk result
        (λ exprs. list_size maybe_size exprs + room cursor.new ≤ room cursor.old) }
{
    let mut exprs = Seq::empty(alloc);
    let expr = read_expr_if_any(alloc, cursor, source)?;
    cursor.add(&mut exprs, expr)?;
    while cursor.takes(alloc, b',', source)? {
        let expr = read_expr_if_any(alloc, cursor, source)?;
        cursor.add(&mut exprs, expr)?;
    }
    cursor.mark(alloc, b')', source)?;
    Ok(exprs)
}

/// The connections in order that these expressions are: one open connection alone is none at all.
fn order_of(alloc: Global, exprs: Seq<Option<Expr>>) -> Seq<Option<Expr>>
    ensures { result ≡ order_of exprs }
{
    if let [None] = exprs.items() {
        return Seq::empty(alloc);
    }
    exprs
}

/// Reads connections in order up to the `)`.
#[tactic(auto, using(readers::proofs::Reading::sequences), unfolding(crate::specs::Grammar::ordered_conns))]
fn read_ordered_conns<S: Source>(
    alloc: Global,
    cursor: &mut VCursor,
    source: &mut S,
) -> Result<Conns, ReadError>
    ensures reads { Reads vlog same ordered_conns result cursor.old cursor.new
        (S.supply source.old) (S.supply source.new) }
    ensures value { IfOk result IsConns }
    ensures size { IfOk result (λ conns. conns_size conns + room cursor.new ≤ room cursor.old) }
{
    let exprs = read_exprs(alloc, cursor, source)?;
    Ok(Conns::Order(order_of(alloc, exprs)))
}

/// Reads the connections of an instance up to the `)`.
#[tactic(auto, using(readers::proofs::Choices::choices), unfolding(crate::specs::Grammar::conns, vlog_exprs::specs::Grammar::after))]
pub(crate) fn read_conns<S: Source>(
    alloc: Global,
    cursor: &mut VCursor,
    source: &mut S,
) -> Result<Conns, ReadError>
    ensures reads { Reads vlog same conns result cursor.old cursor.new
        (S.supply source.old) (S.supply source.new) }
    ensures value { IfOk result IsConns }
    ensures size { IfOk result (λ conns. conns_size conns + room cursor.new ≤ room cursor.old) }
{
    if cursor.takes(alloc, b'.', source)? {
        let conns = read_named_conns(alloc, cursor, source)?;
        return Ok(conns);
    }
    let conns = read_ordered_conns(alloc, cursor, source)?;
    Ok(conns)
}
