// Expressions, whose braces are at most 64 deep.
ghost use Rattle.std.specs.Prelude.{◌≡◌, ◌+◌, ◌<◌, ◌≤◌, ◌∷◌, [], ℕ, suc, true, false, IfOk, IfSome, IsFalse};
ghost use Rattle.readers.specs.Readers.{same, room, Reads, ReadsMaybe, TakesNext};
ghost use Rattle.vlog_tokens.specs.Language.{vlog};
ghost use Rattle.vlog_values.specs.Values.{AreSome, IsCount, IsExprWithin, IsExpr, is_left};
ghost use Rattle.vlog_values.specs.Sizes.{list_size, expr_size, maybe_size};
ghost use Rattle.vlog_exprs.specs.Grammar.{mark, commas, sized, expr_start, expr_rest, cat_rest, rep_rest, braced, inside, expr, maybe_expr};
ghost use Rattle.vlog_exprs.specs.Known.{IsGood, IsStart};
ghost use Rattle.vlog_exprs.specs.Reasons as say;

use crate::bound::read_select;
use crate::constant::takes_digits;
use crate::cursor::VCursor;
use crate::reasons::{at_expr, expr_start};
use crate::seq::seq_with_room;
use crate::start::ExprStart;
use nl_base::{Int, ReadError, Seq};
use nl_io::Source;
use std::alloc::Global;
use vlog_tokens::VFound;
use vlog_values::Expr;

/// For how many expressions a concatenation has room from the first.
const USUAL: usize = 2;

/// Takes the first token of an expression, where `levels` braces may be opened, one in another.
#[inline(always)]
fn take_expr_start<S: Source>(
    alloc: Global,
    cursor: &mut VCursor,
    left: bool,
    levels: u8,
    source: &mut S,
) -> Result<ExprStart, ReadError>
    ensures reads { Reads vlog same (expr_start left levels) result cursor.old cursor.new
        (S.supply source.old) (S.supply source.new) }
    ensures room { IfOk result (λ start. start ≡ ExprStart.Brace → 0 < levels) }
    ensures value { IfOk result (IsStart left levels) }
{
    let held = cursor.held_name(alloc)?;
    if let Some(text) = held {
        return Ok(ExprStart::Name(text));
    }
    take_expr_token(alloc, cursor, left, levels, source)
}

/// Takes any token, with which an expression has to begin.
#[inline(never)]
fn take_expr_token<S: Source>(
    alloc: Global,
    cursor: &mut VCursor,
    left: bool,
    levels: u8,
    source: &mut S,
) -> Result<ExprStart, ReadError>
    ensures reads { Reads vlog same (expr_start left levels) result cursor.old cursor.new
        (S.supply source.old) (S.supply source.new) }
    ensures room { IfOk result (λ start. start ≡ ExprStart.Brace → 0 < levels) }
    ensures value { IfOk result (IsStart left levels) }
{
    let VFound { place, stop, token } = cursor.take(alloc, source)?;
    let said = expr_start(alloc, left, levels, token);
    cursor.judged(place, stop, said)
}

/// Takes the first token of an expression, where one is next.
#[inline(always)]
fn takes_expr_start<S: Source>(
    alloc: Global,
    cursor: &mut VCursor,
    source: &mut S,
) -> Result<Option<ExprStart>, ReadError>
    ensures reads { TakesNext vlog same (λ _ x. say.at_expr x.token) result cursor.old cursor.new
        (S.supply source.old) (S.supply source.new) }
    ensures value { IfOk result (λ start. IfSome start (IsStart false 64)) }
{
    let held = cursor.held_name(alloc)?;
    if let Some(text) = held {
        return Ok(Some(ExprStart::Name(text)));
    }
    takes_expr_token(alloc, cursor, source)
}

/// Looks at any token, and takes it where an expression begins with it.
fn takes_expr_token<S: Source>(
    alloc: Global,
    cursor: &mut VCursor,
    source: &mut S,
) -> Result<Option<ExprStart>, ReadError>
    ensures reads { TakesNext vlog same (λ _ x. say.at_expr x.token) result cursor.old cursor.new
        (S.supply source.old) (S.supply source.new) }
    ensures value { IfOk result (λ start. IfSome start (IsStart false 64)) }
{
    if let Some(mark) = cursor.held_mark() {
        if mark != b'{' {
            return Ok(None);
        }
        cursor.take_mark();
        return Ok(Some(ExprStart::Brace));
    }
    let next = cursor.next_out(alloc, source)?;
    let Some(VFound { place, stop, token }) = next else {
        return Ok(None);
    };
    cursor.settled(place, stop, at_expr(token))
}

/// Reads on behind a number.
#[tactic(auto, using(readers::proofs::Choices::choices), unfolding(crate::specs::Grammar::sized, crate::specs::Grammar::digits))]
fn read_sized<S: Source>(
    alloc: Global,
    cursor: &mut VCursor,
    number: Int,
    source: &mut S,
) -> Result<Expr, ReadError>
    requires { IsCount number }
    ensures reads { ReadsMaybe vlog same (sized number) result cursor.old cursor.new
        (S.supply source.old) (S.supply source.new) }
    ensures value { IfOk result (λ e. (levels : ℕ) → IsExprWithin levels e) }
    ensures size { IfOk result (λ e. expr_size e ≡ 0) }
{
    match takes_digits(alloc, cursor, number, source)? {
        Some(literal) => {
            let literal = cursor.boxed(alloc, literal)?;
            Ok(Expr::Lit(literal))
        }
        None => Ok(Expr::LooseNumber(number)),
    }
}

/// Reads on behind the first token of an expression, before which `levels` braces could be opened, one in another.
#[cycle(expr)]
#[tactic(auto, using(readers::proofs::Reading::sequences), unfolding(crate::specs::Grammar::expr_rest))]
fn read_rest<S: Source>(
    alloc: Global,
    cursor: &mut VCursor,
    left: bool,
    levels: u8,
    start: ExprStart,
    source: &mut S,
) -> Result<Expr, ReadError>
    requires unspent { IsFalse cursor.old.spent }
    requires room { start ≡ ExprStart.Brace → 0 < levels }
    requires start { IsStart left levels start }
    ensures reads { ReadsMaybe vlog same
        (expr_rest (inside left levels) start) result cursor.old cursor.new
        (S.supply source.old) (S.supply source.new) }
    ensures value { IfOk result (IsGood left levels) }
    ensures size { IfOk result (λ e. expr_size e + room cursor.new ≤ room cursor.old) }
{
    match start {
        ExprStart::Name(name) => {
            let select = read_select(alloc, cursor, source)?;
            Ok(Expr::Ref { select, name })
        }
        ExprStart::Number(number) => {
            let expr = read_sized(alloc, cursor, number, source)?;
            Ok(expr)
        }
        ExprStart::Based(based) => Ok(Expr::Loose(based)),
        ExprStart::Brace => {
            let expr = read_inside(alloc, cursor, left, levels, source)?;
            Ok(expr)
        }
    }
}

/// Reads an expression, where `levels` braces may be opened, one in another.
#[cycle(expr)]
#[tactic(auto, using(readers::proofs::Reading::sequences), unfolding(crate::specs::Grammar::expr, crate::specs::Grammar::expr_by))]
fn read_expr_in<S: Source>(
    alloc: Global,
    cursor: &mut VCursor,
    left: bool,
    levels: u8,
    source: &mut S,
) -> Result<Expr, ReadError>
    ensures reads { Reads vlog same (expr left levels) result cursor.old cursor.new
        (S.supply source.old) (S.supply source.new) }
    ensures value { IfOk result (IsGood left levels) }
    ensures size { IfOk result (λ e. expr_size e + room cursor.new < room cursor.old) }
{
    let start = take_expr_start(alloc, cursor, left, levels, source)?;
    let expr = read_rest(alloc, cursor, left, levels, start, source)?;
    Ok(expr)
}

/// Reads on behind the first expression of a list, to the end of its braces.
#[cycle(expr)]
#[tactic(auto, using(readers::proofs::Choices::loops), unfolding(crate::specs::Grammar::commas))]
fn read_list<S: Source>(
    alloc: Global,
    cursor: &mut VCursor,
    left: bool,
    levels: u8,
    first: Expr,
    source: &mut S,
) -> Result<Seq<Expr>, ReadError>
    requires unspent { IsFalse cursor.old.spent }
    requires value { IsGood left levels first }
    ensures reads { Reads vlog same
        (commas (expr left levels) (mark 125) (first ∷ [])) result cursor.old cursor.new
        (S.supply source.old) (S.supply source.new) }
    ensures value { IfOk result (AreSome (IsGood left levels)) }
    ensures size { IfOk result
        (λ es. list_size expr_size es + room cursor.new ≤ expr_size first + room cursor.old) }
{
    let mut exprs = seq_with_room(alloc, USUAL);
    cursor.add(&mut exprs, first)?;
    while cursor.takes(alloc, b',', source)? {
        let expr = read_expr_in(alloc, cursor, left, levels, source)?;
        cursor.add(&mut exprs, expr)?;
    }
    cursor.mark(alloc, b'}', source)?;
    Ok(exprs)
}

/// Reads on behind the inner brace of a replication.
#[cycle(expr)]
#[tactic(auto, using(readers::proofs::Reading::sequences), unfolding(crate::specs::Grammar::rep_rest, crate::specs::Grammar::list))]
fn read_replicated<S: Source>(
    alloc: Global,
    cursor: &mut VCursor,
    left: bool,
    levels: u8,
    count: Int,
    source: &mut S,
) -> Result<Expr, ReadError>
    requires right { left ≡ false }
    requires count { IsCount count }
    ensures reads { Reads vlog same (rep_rest (expr left levels) count) result cursor.old cursor.new
        (S.supply source.old) (S.supply source.new) }
    ensures value { IfOk result (IsGood left (suc levels)) }
    ensures size { IfOk result (λ e. expr_size e + room cursor.new < room cursor.old) }
{
    let first = read_expr_in(alloc, cursor, left, levels, source)?;
    let exprs = read_list(alloc, cursor, left, levels, first, source)?;
    cursor.mark(alloc, b'}', source)?;
    let exprs = cursor.boxed(alloc, exprs)?;
    Ok(Expr::Rep(count, exprs))
}

/// Reads on behind a brace and a number.
#[cycle(expr)]
#[tactic(auto, using(readers::proofs::Choices::choices), unfolding(crate::specs::Grammar::braced, crate::specs::Grammar::after, crate::specs::Grammar::cat_rest))]
fn read_counted<S: Source>(
    alloc: Global,
    cursor: &mut VCursor,
    left: bool,
    levels: u8,
    number: Int,
    source: &mut S,
) -> Result<Expr, ReadError>
    requires right { left ≡ false }
    requires count { IsCount number }
    ensures reads { Reads vlog same
        (braced (expr left levels) (inside left levels)
        (ExprStart.Number number)) result cursor.old cursor.new
        (S.supply source.old) (S.supply source.new) }
    ensures value { IfOk result (IsGood left (suc levels)) }
    ensures size { IfOk result (λ e. expr_size e + room cursor.new ≤ room cursor.old) }
{
    if cursor.takes(alloc, b'{', source)? {
        let expr = read_replicated(alloc, cursor, left, levels, number, source)?;
        return Ok(expr);
    }
    let first = read_sized(alloc, cursor, number, source)?;
    let exprs = read_list(alloc, cursor, left, levels, first, source)?;
    Ok(Expr::Cat(exprs))
}

/// Reads on behind a brace and one more token.
#[cycle(expr)]
#[tactic(auto, using(crate::proofs::Braces::in_braces), unfolding(crate::specs::Grammar::cat_rest))]
fn read_braced<S: Source>(
    alloc: Global,
    cursor: &mut VCursor,
    left: bool,
    levels: u8,
    start: ExprStart,
    source: &mut S,
) -> Result<Expr, ReadError>
    requires unspent { IsFalse cursor.old.spent }
    requires room { start ≡ ExprStart.Brace → 0 < levels }
    requires start { IsStart left levels start }
    ensures reads { Reads vlog same
        (braced (expr left levels) (inside left levels) start) result cursor.old cursor.new
        (S.supply source.old) (S.supply source.new) }
    ensures value { IfOk result (IsGood left (suc levels)) }
    ensures size { IfOk result (λ e. expr_size e + room cursor.new ≤ room cursor.old) }
{
    if let ExprStart::Number(number) = start {
        let expr = read_counted(alloc, cursor, left, levels, number, source)?;
        return Ok(expr);
    }
    let first = read_rest(alloc, cursor, left, levels, start, source)?;
    let exprs = read_list(alloc, cursor, left, levels, first, source)?;
    Ok(Expr::Cat(exprs))
}

/// Reads on behind a brace, before which `levels` braces could be opened, one in another.
#[cycle(expr)]
#[tactic(auto, using(crate::proofs::Braces::in_braces))]
fn read_inside<S: Source>(
    alloc: Global,
    cursor: &mut VCursor,
    left: bool,
    levels: u8,
    source: &mut S,
) -> Result<Expr, ReadError>
    requires { 0 < levels }
    ensures reads { Reads vlog same (inside left levels) result cursor.old cursor.new
        (S.supply source.old) (S.supply source.new) }
    ensures value { IfOk result (IsGood left levels) }
    ensures size { IfOk result (λ e. expr_size e + room cursor.new < room cursor.old) }
{
    let start = take_expr_start(alloc, cursor, left, levels - 1, source)?;
    let expr = read_braced(alloc, cursor, left, levels - 1, start, source)?;
    Ok(expr)
}

/// Reads an expression, on the left side of an assignment one of names and concatenations alone.
pub fn read_expr<S: Source>(
    alloc: Global,
    cursor: &mut VCursor,
    left_side: bool,
    source: &mut S,
) -> Result<Expr, ReadError>
    ensures reads { Reads vlog same (expr left_side 64) result cursor.old cursor.new
        (S.supply source.old) (S.supply source.new) }
    ensures value { IfOk result IsExpr }
    ensures left { IfOk result (λ e. left_side ≡ true → is_left e ≡ true) }
    ensures size { IfOk result (λ e. expr_size e + room cursor.new < room cursor.old) }
{
    let expr = read_expr_in(alloc, cursor, left_side, 64, source)?;
    Ok(expr)
}

/// Reads an expression that is no left side, where one stands.
#[inline(always)]
#[tactic(auto, using(readers::proofs::Choices::choices), unfolding(crate::specs::Grammar::maybe_expr))]
pub fn read_expr_if_any<S: Source>(
    alloc: Global,
    cursor: &mut VCursor,
    source: &mut S,
) -> Result<Option<Expr>, ReadError>
    ensures reads { ReadsMaybe vlog same maybe_expr result cursor.old cursor.new
        (S.supply source.old) (S.supply source.new) }
    ensures value { IfOk result (λ e. IfSome e IsExpr) }
    ensures size { IfOk result (λ e. maybe_size e + room cursor.new ≤ room cursor.old) }
{
    match takes_expr_start(alloc, cursor, source)? {
        Some(start) => {
            let expr = read_rest(alloc, cursor, false, 64, start, source)?;
            Ok(Some(expr))
        }
        None => Ok(None),
    }
}
