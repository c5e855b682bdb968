// Bounds, ranges and selects.
ghost use Rattle.std.specs.Prelude.{◌≡◌, ◌<◌, ◌^◌, nat_abs, IfOk, IfSome, option_map};
ghost use Rattle.readers.specs.Readers.{same, Reads, ReadsMaybe};
ghost use Rattle.vlog_tokens.specs.Language.{vlog};
ghost use Rattle.vlog_values.specs.Values.{IsBound, IsRange, IsSelect};
ghost use Rattle.vlog_exprs.specs.Grammar.{bound_number, bound, range_rest, range, maybe_range, select_rest, select};

use crate::cursor::VCursor;
use crate::reasons::{bound_in, bound_of};
use nl_base::{Range, ReadError};
use nl_io::Source;
use std::alloc::Global;
use vlog_tokens::{Plain, VFound};
use vlog_values::Select;

/// Reads the number of a bound.
fn read_bound_number<S: Source>(
    alloc: Global,
    cursor: &mut VCursor,
    source: &mut S,
) -> Result<i32, ReadError>
    ensures reads { Reads vlog same bound_number result cursor.old cursor.new
        (S.supply source.old) (S.supply source.new) }
    ensures bound { IfOk result (λ n. nat_abs n < 2 ^ 31) }
{
    let VFound { place, stop, token } = cursor.take(alloc, source)?;
    let said = bound_of(alloc, token);
    cursor.judged(place, stop, said)
}

/// Reads a bound that may begin with `-`.
#[inline(never)]
#[tactic(auto, using(readers::proofs::Choices::choices), unfolding(crate::specs::Grammar::bound, crate::specs::Grammar::after))]
fn read_signed_bound<S: Source>(
    alloc: Global,
    cursor: &mut VCursor,
    source: &mut S,
) -> Result<i32, ReadError>
    ensures reads { Reads vlog same bound result cursor.old cursor.new
        (S.supply source.old) (S.supply source.new) }
    ensures bound { IfOk result (λ n. nat_abs n < 2 ^ 31) }
{
    if cursor.takes(alloc, b'-', source)? {
        let number = read_bound_number(alloc, cursor, source)?;
        return Ok(-number);
    }
    let number = read_bound_number(alloc, cursor, source)?;
    Ok(number)
}

/// Reads a bound, whose absolute value is at most 2^31-1.
#[inline(always)]
pub fn read_bound<S: Source>(
    alloc: Global,
    cursor: &mut VCursor,
    source: &mut S,
) -> Result<i32, ReadError>
    ensures reads { Reads vlog same bound result cursor.old cursor.new
        (S.supply source.old) (S.supply source.new) }
    ensures bound { IfOk result (λ n. nat_abs n < 2 ^ 31) }
{
    if let Some(plain) = cursor.held_plain() {
        if let Plain::Number(number) = plain {
            if let Some(bound) = bound_in(number) {
                cursor.take_plain();
                return Ok(bound);
            }
        }
    }
    read_signed_bound(alloc, cursor, source)
}

/// Reads on behind the `[` of a range.
#[inline(always)]
#[tactic(auto, using(readers::proofs::Reading::sequences), unfolding(crate::specs::Grammar::range_rest))]
pub fn read_range_rest<S: Source>(
    alloc: Global,
    cursor: &mut VCursor,
    source: &mut S,
) -> Result<Range, ReadError>
    ensures reads { Reads vlog same range_rest result cursor.old cursor.new
        (S.supply source.old) (S.supply source.new) }
    ensures value { IfOk result IsRange }
{
    let left = read_bound(alloc, cursor, source)?;
    cursor.mark(alloc, b':', source)?;
    let right = read_bound(alloc, cursor, source)?;
    cursor.mark(alloc, b']', source)?;
    Ok(Range { left, right })
}

/// Reads a range.
#[tactic(auto, using(readers::proofs::Reading::sequences), unfolding(crate::specs::Grammar::range))]
pub fn read_range<S: Source>(
    alloc: Global,
    cursor: &mut VCursor,
    source: &mut S,
) -> Result<Range, ReadError>
    ensures reads { Reads vlog same range result cursor.old cursor.new
        (S.supply source.old) (S.supply source.new) }
    ensures value { IfOk result IsRange }
{
    cursor.mark(alloc, b'[', source)?;
    let range = read_range_rest(alloc, cursor, source)?;
    Ok(range)
}

/// Reads a range, where one stands.
#[inline(always)]
#[tactic(auto, using(readers::proofs::Choices::choices), unfolding(crate::specs::Grammar::maybe_range, crate::specs::Grammar::after))]
pub fn read_range_if_any<S: Source>(
    alloc: Global,
    cursor: &mut VCursor,
    source: &mut S,
) -> Result<Option<Range>, ReadError>
    ensures reads { ReadsMaybe vlog same maybe_range result cursor.old cursor.new
        (S.supply source.old) (S.supply source.new) }
    ensures value { IfOk result (λ range. IfSome range IsRange) }
{
    if cursor.takes(alloc, b'[', source)? {
        let range = read_range_rest(alloc, cursor, source)?;
        return Ok(Some(range));
    }
    Ok(None)
}

/// Reads on behind the first bound of a select.
#[tactic(auto, using(readers::proofs::Choices::choices), unfolding(crate::specs::Grammar::select_rest, crate::specs::Grammar::after))]
fn read_select_rest<S: Source>(
    alloc: Global,
    cursor: &mut VCursor,
    left: i32,
    source: &mut S,
) -> Result<Select, ReadError>
    requires { IsBound left }
    ensures reads { Reads vlog same (select_rest left) result cursor.old cursor.new
        (S.supply source.old) (S.supply source.new) }
    ensures value { IfOk result IsSelect }
{
    if cursor.takes(alloc, b':', source)? {
        let right = read_bound(alloc, cursor, source)?;
        cursor.mark(alloc, b']', source)?;
        return Ok(Select::Slice(left, right));
    }
    cursor.mark(alloc, b']', source)?;
    Ok(Select::One(left))
}

/// Reads the select of a name, which is all bits where none stands.
#[tactic(auto, using(readers::proofs::Choices::choices), unfolding(crate::specs::Grammar::select, crate::specs::Grammar::after))]
pub fn read_select<S: Source>(
    alloc: Global,
    cursor: &mut VCursor,
    source: &mut S,
) -> Result<Select, ReadError>
    ensures reads { ReadsMaybe vlog same select result cursor.old cursor.new
        (S.supply source.old) (S.supply source.new) }
    ensures value { IfOk result IsSelect }
{
    if cursor.takes(alloc, b'[', source)? {
        let left = read_bound(alloc, cursor, source)?;
        let select = read_select_rest(alloc, cursor, left, source)?;
        return Ok(select);
    }
    Ok(Select::All)
}
