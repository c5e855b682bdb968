// What a token says at its place, or the reason for which it may not stand there, in the order of the definitions in specs/Reasons.antt. Only the
// word of a symbol takes memory.
ghost use Rattle.std.specs.Prelude.{◌≡◌, ◌<◌, ◌^◌, nat_abs, Err, IfOk, if◌then◌else◌, IfSome, Some, None};
ghost use Rattle.vlog_exprs.specs.Calls.{kept};
ghost use Rattle.vlog_exprs.specs.Reasons as say;

use crate::glance::Glance;
use crate::start::{ConstStart, ExprStart};
use nl_base::{Int, NoMemory, Reason, Scaled, Text};
use std::alloc::Global;
use vlog_tokens::VToken;
use vlog_values::{Const, Literal};

/// What a token says, or why it may not stand there.
pub type Said<T> = Result<Result<T, Reason>, NoMemory>;

/// Why a token may not stand where others are due.
pub fn misplaced(alloc: Global, token: VToken) -> Result<Reason, NoMemory>
    ensures { IfOk result (λ reason. reason ≡ say.misplaced token) }
{
    match token {
        VToken::Keyword(word) => Ok(Reason::NotInProfile(word)),
        VToken::Symbol(byte) => {
            let word = Text::copy(alloc, &[byte])?;
            Ok(Reason::NotInProfile(word))
        }
        VToken::Directive(word) => Ok(Reason::NotInProfile(word)),
        _ => Ok(Reason::Unexpected),
    }
}

/// The same as a refusal.
pub fn refused<T: Drop>(alloc: Global, token: VToken) -> Said<T>
    ensures { IfOk result (λ said. said ≡ Err (say.misplaced token)) }
{
    let reason = misplaced(alloc, token)?;
    Ok(Err(reason))
}

/// The bound that a number is, where it is one.
pub fn bound_in(number: Int) -> Option<i32>
    ensures bound { result ≡ (if say.is_bound number then Some number else None) }
    ensures value { IfSome result (λ n. nat_abs n < 2 ^ 31) }
{
    let number = number.value();
    if number < 0 || number > 2147483647 {
        return None;
    }
    Some(number as i32)
}

/// The number of a bound.
pub fn bound_of(alloc: Global, token: VToken) -> Said<i32>
    ensures said { IfOk result (λ said. said ≡ say.bound_of token) }
    ensures bound { IfOk result (λ said. IfOk said (λ n. nat_abs n < 2 ^ 31)) }
{
    match token {
        VToken::Number(number) => match bound_in(number) {
            Some(bound) => Ok(Ok(bound)),
            None => Ok(Err(Reason::NumberRange)),
        },
        other => refused(alloc, other),
    }
}

/// Whether a number is a size.
#[inline]
pub fn is_size(number: Int) -> bool
    ensures { result ≡ say.is_size number }
{
    0 < number.value() && number.value() < 65537
}

/// The digits behind a number, which is then a size.
pub fn at_digits(number: Int, token: VToken) -> Glance<Literal>
    ensures { result ≡ kept token (say.at_digits number token) }
{
    match token {
        VToken::Based(based) => {
            if !is_size(number) {
                return Glance::Refuses(Reason::NumberRange);
            }
            Glance::Takes(Literal {
                size: number.value() as u32,
                based,
            })
        }
        other => Glance::Leaves(other),
    }
}

/// How an expression begins.
pub fn expr_start(alloc: Global, left: bool, room: u8, token: VToken) -> Said<ExprStart>
    ensures { IfOk result (λ said. said ≡ say.expr_start left room token) }
{
    match token {
        VToken::Name(name) => Ok(Ok(ExprStart::Name(name))),
        VToken::Number(number) => {
            if left {
                return Ok(Err(Reason::Unexpected));
            }
            Ok(Ok(ExprStart::Number(number)))
        }
        VToken::Based(based) => {
            if left {
                return Ok(Err(Reason::Unexpected));
            }
            Ok(Ok(ExprStart::Based(based)))
        }
        VToken::Punct(mark) => {
            if mark != b'{' {
                return Ok(Err(Reason::Unexpected));
            }
            if room == 0 {
                return Ok(Err(Reason::TooDeep));
            }
            Ok(Ok(ExprStart::Brace))
        }
        other => refused(alloc, other),
    }
}

/// A name.
pub fn name_of(alloc: Global, token: VToken) -> Said<Text>
    ensures { IfOk result (λ said. said ≡ say.name_of token) }
{
    match token {
        VToken::Name(name) => Ok(Ok(name)),
        other => refused(alloc, other),
    }
}

/// A number.
pub fn number_of(alloc: Global, token: VToken) -> Said<Int>
    ensures { IfOk result (λ said. said ≡ say.number_of token) }
{
    match token {
        VToken::Number(number) => Ok(Ok(number)),
        other => refused(alloc, other),
    }
}

/// A punctuation mark.
pub fn mark_of(alloc: Global, due: u8, token: VToken) -> Said<()>
    ensures { IfOk result (λ said. said ≡ say.mark_of due token) }
{
    match token {
        VToken::Punct(mark) => {
            if mark == due {
                return Ok(Ok(()));
            }
            Ok(Err(Reason::Unexpected))
        }
        other => refused(alloc, other),
    }
}

/// `*)`
pub fn group_end_of(alloc: Global, token: VToken) -> Said<()>
    ensures { IfOk result (λ said. said ≡ say.group_end_of token) }
{
    match token {
        VToken::AttrStop => Ok(Ok(())),
        other => refused(alloc, other),
    }
}

/// A keyword.
pub fn keyword_of(alloc: Global, due: &[u8], token: VToken) -> Said<()>
    ensures { IfOk result (λ said. said ≡ say.keyword_of due.now token) }
{
    match token {
        VToken::Keyword(word) => {
            if word.bytes() == due {
                return Ok(Ok(()));
            }
            Ok(Err(Reason::NotInProfile(word)))
        }
        other => refused(alloc, other),
    }
}

/// One of some keywords, for its value.
pub fn choice_of<T: Copy>(alloc: Global, words: &[(&[u8], T)], token: VToken) -> Said<T>
    ensures { IfOk result (λ said. said ≡ say.choice_of (say.rows words.now) token) }
{
    match token {
        VToken::Keyword(word) => match meant_by(words, word.bytes()) {
            Some(value) => Ok(Ok(value)),
            None => Ok(Err(Reason::NotInProfile(word))),
        },
        other => refused(alloc, other),
    }
}

/// The value of the first of some keywords that is this one.
#[tactic(auto, unfolding(crate::specs::Reasons::meant_by))]
pub fn meant_by<T: Copy>(words: &[(&[u8], T)], word: &[u8]) -> Option<T>
    ensures { result ≡ say.meant_by (say.rows words.now) word.now }
{
    for (spelling, value) in words {
        if word == *spelling {
            return Some(*value);
        }
    }
    None
}

/// How a constant begins.
pub fn const_start(alloc: Global, token: VToken) -> Said<ConstStart>
    ensures { IfOk result (λ said. said ≡ say.const_start token) }
{
    match token {
        VToken::Str(text) => Ok(Ok(ConstStart::Whole(Const::Str(text)))),
        VToken::Real(real) => Ok(Ok(ConstStart::Whole(Const::Real(real)))),
        VToken::Based(based) => Ok(Ok(ConstStart::Whole(Const::Loose(based)))),
        VToken::Number(number) => Ok(Ok(ConstStart::Number(number))),
        VToken::Punct(mark) => match mark {
            b'+' => Ok(Ok(ConstStart::Sign(false))),
            b'-' => Ok(Ok(ConstStart::Sign(true))),
            _ => Ok(Err(Reason::Unexpected)),
        },
        other => refused(alloc, other),
    }
}

/// A number with its sign.
fn with_sign(negative: bool, number: Int) -> Int
    ensures { result ≡ say.with_sign negative number }
{
    if !negative {
        return number;
    }
    match Int::check(-number.value()) {
        Some(number) => number,
        None => unreachable!(),
    }
}

/// The number or the real behind a sign.
pub fn signed_of(alloc: Global, negative: bool, token: VToken) -> Said<Const>
    ensures { IfOk result (λ said. said ≡ say.signed_of negative token) }
{
    match token {
        VToken::Number(number) => Ok(Ok(Const::Number(with_sign(negative, number)))),
        VToken::Real(real) => {
            let mantissa = with_sign(negative, real.mantissa);
            Ok(Ok(Const::Real(Scaled {
                mantissa,
                exponent: real.exponent,
            })))
        }
        other => refused(alloc, other),
    }
}

/// A punctuation mark, which need not stand.
pub fn at_mark(due: u8, token: VToken) -> Glance<()>
    ensures { result ≡ kept token (say.at_mark due token) }
{
    match token {
        VToken::Punct(mark) => {
            if mark == due {
                return Glance::Takes(());
            }
            Glance::Leaves(VToken::Punct(mark))
        }
        other => Glance::Leaves(other),
    }
}

/// `(*`, which need not stand.
pub fn at_group(token: VToken) -> Glance<()>
    ensures { result ≡ kept token (say.at_group token) }
{
    match token {
        VToken::AttrStart => Glance::Takes(()),
        other => Glance::Leaves(other),
    }
}

/// A name, which need not stand.
pub fn at_name(token: VToken) -> Glance<Text>
    ensures { result ≡ kept token (say.at_name token) }
{
    match token {
        VToken::Name(name) => Glance::Takes(name),
        other => Glance::Leaves(other),
    }
}

/// One of some keywords, for its value, which need not stand.
pub fn at_choice<T: Copy>(words: &[(&[u8], T)], token: VToken) -> Glance<T>
    ensures { result ≡ kept token (say.at_choice (say.rows words.now) token) }
{
    match token {
        VToken::Keyword(word) => match meant_by(words, word.bytes()) {
            Some(value) => Glance::Takes(value),
            None => Glance::Leaves(VToken::Keyword(word)),
        },
        other => Glance::Leaves(other),
    }
}

/// How an expression begins, which need not stand.
pub fn at_expr(token: VToken) -> Glance<ExprStart>
    ensures { result ≡ kept token (say.at_expr token) }
{
    match token {
        VToken::Name(name) => Glance::Takes(ExprStart::Name(name)),
        VToken::Number(number) => Glance::Takes(ExprStart::Number(number)),
        VToken::Based(based) => Glance::Takes(ExprStart::Based(based)),
        VToken::Punct(mark) => {
            if mark == b'{' {
                return Glance::Takes(ExprStart::Brace);
            }
            Glance::Leaves(VToken::Punct(mark))
        }
        other => Glance::Leaves(other),
    }
}
