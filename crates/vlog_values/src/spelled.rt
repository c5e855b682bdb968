// Literals by their normal spelling.
ghost use Rattle.std.specs.Prelude.{◌≡◌, ◌<◌, ◌+◌, ◌↔◌, length, take, slice_get, nat_le, if◌then◌else◌, IfOk, MatchOption};
ghost use Rattle.nl_base.specs.RangeForm.{IsFreeOf, cut_at_first};
ghost use Rattle.vlog_values.specs.declared.literal.Literal.{Literal};
ghost use Rattle.vlog_values.specs.Spelled.{IsSpelling, base_named, lettered, spelled_based, spelled_literal, spelled_size};

use crate::digits::are_digits;
use crate::literal::{Base, Based, Literal};
use itoa::Buffer;
use nl_base::{NoMemory, Text};
use std::alloc::Global;
use std::str;

/// The size of 1 to 65,536 of which the bytes are the decimal text: no sign and no leading zero.
#[tactic(auto, unfolding(crate::specs::Spelled::spelled_size))]
fn size_of(bytes: &[u8]) -> Option<u32>
    ensures { result ≡ spelled_size bytes.now }
{
    let Ok(text) = str::from_utf8(bytes) else {
        return None;
    };
    let Ok(size) = text.parse::<i32>() else {
        return None;
    };
    let mut buffer = Buffer::new();
    if size < 1 || size > 65536 || buffer.format(size) != text {
        return None;
    }
    Some(size as u32)
}

/// Where the `'` stands first.
fn quote_place(bytes: &[u8]) -> Option<usize>
    ensures { MatchOption result (IsFreeOf 39 bytes.now) (λ at. (at < length bytes.now)
        × (slice_get bytes.now at ≡ Some 39) × IsFreeOf 39 (take at bytes.now)) }
{
    for at in 0..bytes.len() {
        if bytes[at] == b'\'' {
            return Some(at);
        }
    }
    None
}

/// The bytes before the first `'`, and those after it.
fn split_at_quote(bytes: &[u8]) -> Option<(&[u8], &[u8])>
    ensures { MatchOption result (cut_at_first 39 bytes.now
        ≡ None) (λ sides. cut_at_first 39 bytes.now ≡ Some (sides.0.now, sides.1.now)) }
{
    let at = quote_place(bytes)?;
    Some((&bytes[..at], &bytes[at + 1..]))
}

/// The base that a small letter names.
fn base_named(letter: u8) -> Option<Base>
    ensures { result ≡ base_named letter }
{
    match letter {
        b'b' => Some(Base::Binary),
        b'o' => Some(Base::Octal),
        b'd' => Some(Base::Decimal),
        b'h' => Some(Base::Hex),
        _ => None,
    }
}

/// The parts of a based literal whose digits stand in a text.
#[derive(Clone, Copy)]
struct BasedParts<'a> {
    signed: bool,
    base: Base,
    digits: &'a [u8],
}

/// Whether digits of this number are not too long for a token.
fn is_short(signed: bool, count: usize) -> bool
    ensures { result ≡ nat_le ((if signed then 3 else 2) + count) 131072 }
{
    if signed {
        count <= 131069
    } else {
        count <= 131070
    }
}

/// The based literal of a letter and digits.
#[tactic(auto, unfolding(crate::specs::Spelled::lettered))]
fn lettered(signed: bool, text: &[u8]) -> Option<BasedParts<'_>>
    ensures { MatchOption result (lettered signed text.now
        ≡ None) (λ parts. lettered signed text.now
        ≡ Some (record { signed = parts.signed; base = parts.base; digits = parts.digits.now })) }
{
    match text {
        [] => None,
        [letter, digits @ ..] => {
            let Some(base) = base_named(*letter) else {
                return None;
            };
            if !are_digits(base, digits) || !is_short(signed, digits.len()) {
                return None;
            }
            Some(BasedParts {
                signed,
                base,
                digits,
            })
        }
    }
}

/// The based literal that these bytes spell behind the `'`.
#[tactic(auto, unfolding(crate::specs::Spelled::spelled_based))]
fn based_parts(text: &[u8]) -> Option<BasedParts<'_>>
    ensures { MatchOption result (spelled_based text.now ≡ None) (λ parts. spelled_based text.now
        ≡ Some (record { signed = parts.signed; base = parts.base; digits = parts.digits.now })) }
{
    match text {
        [] => None,
        [first, rest @ ..] => {
            if *first == b's' {
                lettered(true, rest)
            } else {
                lettered(false, text)
            }
        }
    }
}

/// The literal of which the text is the normal spelling.
#[tactic(auto, unfolding(crate::specs::Spelled::spelled_literal))]
fn literal_spelled(alloc: Global, text: &[u8]) -> Result<Option<Literal>, NoMemory>
    ensures { IfOk result (λ found. found ≡ spelled_literal text.now) }
{
    let Some((before, after)) = split_at_quote(text) else {
        return Ok(None);
    };
    let Some(size) = size_of(before) else {
        return Ok(None);
    };
    let Some(parts) = based_parts(after) else {
        return Ok(None);
    };
    let digits = Text::copy(alloc, parts.digits)?;
    let based = Based {
        signed: parts.signed,
        base: parts.base,
        digits,
    };
    Ok(Some(Literal { size, based }))
}

/// The literal of which the text is the normal spelling: `None` exactly where it is that of no literal which a text can have.
pub fn literal_of(alloc: Global, text: &[u8]) -> Result<Option<Literal>, NoMemory>
    ensures exact { IfOk result
        (λ found. (literal : Literal) → (found ≡ Some literal) ↔ IsSpelling text.now literal) }
    ensures value { IfOk result (λ found. found ≡ spelled_literal text.now) }
{
    let found = literal_spelled(alloc, text)?;
    Ok(found)
}
