// Constants.
ghost use Rattle.std.specs.Prelude.{◌≡◌, true, false, nat_abs, IfOk, IfSome, IsFalse};
ghost use Rattle.readers.specs.Readers.{same, Reads, ReadsMaybe, TakesNext};
ghost use Rattle.vlog_tokens.specs.Language.{vlog};
ghost use Rattle.vlog_values.specs.Values.{IsNumber, IsLiteral, IsConst};
ghost use Rattle.vlog_exprs.specs.Grammar.{digits, sized_const, const_start, signed, const_rest, constant};
ghost use Rattle.vlog_exprs.specs.Known.{IsConstStart};
ghost use Rattle.vlog_exprs.specs.Reasons as say;

use crate::cursor::VCursor;
use crate::reasons::{at_digits, const_start, is_size, signed_of};
use crate::start::ConstStart;
use nl_base::{Int, ReadError, Text};
use nl_io::Source;
use std::alloc::Global;
use vlog_tokens::{Plain, VFound};
use vlog_values::{Base, Based, Const, Literal};

/// Takes the digits behind a number, where they are next. The number is then a size.
pub(crate) fn takes_digits<S: Source>(
    alloc: Global,
    cursor: &mut VCursor,
    number: Int,
    source: &mut S,
) -> Result<Option<Literal>, ReadError>
    ensures reads { TakesNext vlog same
        (λ _ x. say.at_digits number x.token) result cursor.old cursor.new
        (S.supply source.old) (S.supply source.new) }
    ensures value { IfOk result (λ literal. IfSome literal IsLiteral) }
{
    if is_size(number) {
        if let Some(base) = cursor.held_base() {
            let held = cursor.held_digits(base);
            let count = held.len();
            if count > 0 {
                let Ok(digits) = Text::copy(alloc, held) else {
                    return Err(cursor.no_memory());
                };
                cursor.take_digits(base, count);
                return Ok(Some(unsigned(number, base, digits)));
            }
        }
    }
    takes_digits_token(alloc, cursor, number, source)
}

/// A literal of this size whose digits have no sign letter.
#[inline(always)]
fn unsigned(number: Int, base: Base, digits: Text) -> Literal
    requires { say.is_size number ≡ true }
    ensures { result ≡ record {
      size = nat_abs number;
      based = record { signed = false; base = base; digits = digits };
    } }
{
    Literal {
        size: number.value() as u32,
        based: Based {
            signed: false,
            base,
            digits,
        },
    }
}

/// Looks at any token, and takes it where it is the digits behind a number.
#[inline(never)]
fn takes_digits_token<S: Source>(
    alloc: Global,
    cursor: &mut VCursor,
    number: Int,
    source: &mut S,
) -> Result<Option<Literal>, ReadError>
    ensures reads { TakesNext vlog same
        (λ _ x. say.at_digits number x.token) result cursor.old cursor.new
        (S.supply source.old) (S.supply source.new) }
    ensures value { IfOk result (λ literal. IfSome literal IsLiteral) }
{
    if let Some(_mark) = cursor.held_mark() {
        return Ok(None);
    }
    let next = cursor.next_out(alloc, source)?;
    let Some(VFound { place, stop, token }) = next else {
        return Ok(None);
    };
    cursor.settled(place, stop, at_digits(number, token))
}

/// Takes the first token of a constant.
fn take_const_start<S: Source>(
    alloc: Global,
    cursor: &mut VCursor,
    source: &mut S,
) -> Result<ConstStart, ReadError>
    ensures reads { Reads vlog same const_start result cursor.old cursor.new
        (S.supply source.old) (S.supply source.new) }
    ensures value { IfOk result IsConstStart }
{
    if let Some(plain) = cursor.held_plain() {
        if let Plain::Number(number) = plain {
            cursor.take_plain();
            return Ok(ConstStart::Number(number));
        }
    }
    take_const_token(alloc, cursor, source)
}

/// Takes any token, with which a constant has to begin.
#[inline(never)]
fn take_const_token<S: Source>(
    alloc: Global,
    cursor: &mut VCursor,
    source: &mut S,
) -> Result<ConstStart, ReadError>
    ensures reads { Reads vlog same const_start result cursor.old cursor.new
        (S.supply source.old) (S.supply source.new) }
    ensures value { IfOk result IsConstStart }
{
    let VFound { place, stop, token } = cursor.take(alloc, source)?;
    let said = const_start(alloc, token);
    cursor.judged(place, stop, said)
}

/// Takes the number or the real behind a sign.
fn take_signed<S: Source>(
    alloc: Global,
    cursor: &mut VCursor,
    negative: bool,
    source: &mut S,
) -> Result<Const, ReadError>
    ensures reads { Reads vlog same (signed negative) result cursor.old cursor.new
        (S.supply source.old) (S.supply source.new) }
    ensures value { IfOk result IsConst }
{
    let VFound { place, stop, token } = cursor.take(alloc, source)?;
    let said = signed_of(alloc, negative, token);
    cursor.judged(place, stop, said)
}

/// Reads on behind a number.
#[tactic(auto, using(readers::proofs::Choices::choices), unfolding(crate::specs::Grammar::sized_const, crate::specs::Grammar::digits))]
fn read_sized_const<S: Source>(
    alloc: Global,
    cursor: &mut VCursor,
    number: Int,
    source: &mut S,
) -> Result<Const, ReadError>
    requires { IsNumber number }
    ensures reads { ReadsMaybe vlog same (sized_const number) result cursor.old cursor.new
        (S.supply source.old) (S.supply source.new) }
    ensures value { IfOk result IsConst }
{
    match takes_digits(alloc, cursor, number, source)? {
        Some(literal) => Ok(Const::Lit(literal)),
        None => Ok(Const::Number(number)),
    }
}

/// Reads on behind the first token of a constant.
#[tactic(auto, using(readers::proofs::Reading::sequences), unfolding(crate::specs::Grammar::const_rest))]
fn read_const_rest<S: Source>(
    alloc: Global,
    cursor: &mut VCursor,
    start: ConstStart,
    source: &mut S,
) -> Result<Const, ReadError>
    requires unspent { IsFalse cursor.old.spent }
    requires start { IsConstStart start }
    ensures reads { ReadsMaybe vlog same (const_rest start) result cursor.old cursor.new
        (S.supply source.old) (S.supply source.new) }
    ensures value { IfOk result IsConst }
{
    match start {
        ConstStart::Whole(constant) => Ok(constant),
        ConstStart::Sign(negative) => {
            let constant = take_signed(alloc, cursor, negative, source)?;
            Ok(constant)
        }
        ConstStart::Number(number) => {
            let constant = read_sized_const(alloc, cursor, number, source)?;
            Ok(constant)
        }
    }
}

/// Reads a constant.
#[tactic(auto, using(readers::proofs::Reading::sequences), unfolding(crate::specs::Grammar::constant))]
pub fn read_const<S: Source>(
    alloc: Global,
    cursor: &mut VCursor,
    source: &mut S,
) -> Result<Const, ReadError>
    ensures reads { Reads vlog same constant result cursor.old cursor.new
        (S.supply source.old) (S.supply source.new) }
    ensures value { IfOk result IsConst }
{
    let start = take_const_start(alloc, cursor, source)?;
    let constant = read_const_rest(alloc, cursor, start, source)?;
    Ok(constant)
}
