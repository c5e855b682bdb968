ghost use Rattle.std.specs.Prelude.{◌≡◌, ◌<◌, ◌≤◌, ◌^◌, length, option_map};
ghost use Rattle.std.specs.List.{prefix_len};
ghost use Rattle.vlog_tokens.specs.Numbers.{next_decimal, decimal_value, digit_count, signed_number, lowered, is_no_mark, is_no_point, is_negative, exponent_of, real_of, number_of, below_128};

use crate::phase::is_mark;
use nl_base::{Int, Scaled};

/// The value of decimal digits to which one more byte comes, where it is below 2^128.
fn with_byte(value: u128, byte: u8) -> Option<u128>
    ensures { result ≡ below_128 (next_decimal value byte) }
{
    if !byte.is_ascii_digit() {
        return Some(value);
    }
    let digit = u128::from(byte - b'0');
    if value > u128::MAX / 16 && value > (u128::MAX - digit) / 10 {
        return None;
    }
    Some(value * 10 + digit)
}

/// The value of the decimal digits among some bytes, where it is below 2^128.
pub fn decimal_of(text: &[u8]) -> Option<u128>
    ensures { result ≡ below_128 (decimal_value text.now) }
{
    let mut value: u128 = 0;
    for b in text {
        let Some(next) = with_byte(value, *b) else {
            return None;
        };
        value = next;
    }
    Some(value)
}

/// How many decimal digits there are among some bytes.
fn digit_count(text: &[u8]) -> usize
    ensures { result ≡ digit_count text.now }
{
    let mut count = 0;
    for b in text {
        count += usize::from(b.is_ascii_digit());
    }
    count
}

/// Where the `e` of a real stands, or its length.
fn mark_index(text: &[u8]) -> usize
    ensures { result ≡ prefix_len is_no_mark text.now }
{
    let mut n = 0;
    while n < text.len() && !is_mark(text[n]) {
        n += 1;
    }
    n
}

/// Where the point of a real stands, or its length.
fn point_index(text: &[u8]) -> usize
    ensures { result ≡ prefix_len is_no_point text.now }
{
    let mut n = 0;
    while n < text.len() && text[n] != b'.' {
        n += 1;
    }
    n
}

/// Whether the byte after an `e` is `-`.
fn is_negative(exponent: &[u8]) -> bool
    ensures { result ≡ is_negative exponent.now }
{
    match exponent {
        [_, sign, ..] => *sign == b'-',
        _ => false,
    }
}

/// The number of this sign and absolute value, where that is below 2^63.
fn signed_number(negative: bool, magnitude: u128) -> Option<Int>
    ensures { result ≡ signed_number negative magnitude }
{
    if magnitude < 1 << 63 {
        Some(Int::signed(negative, magnitude as u64))
    } else {
        None
    }
}

/// An exponent of this sign and absolute value, less so many.
fn lowered(negative: bool, magnitude: u128, places: usize) -> Option<Int>
    ensures { result ≡ lowered negative magnitude places }
{
    if magnitude >= 1 << 65 {
        return None;
    }
    let places = places as u128;
    if negative {
        signed_number(true, magnitude + places)
    } else if places <= magnitude {
        signed_number(false, magnitude - places)
    } else {
        signed_number(true, places - magnitude)
    }
}

/// A number's value, where it is below 2^63.
#[inline(always)]
#[tactic(auto, using(crate::proofs::Numbers::number_some, crate::proofs::Numbers::number_none))]
pub fn number_of(text: &[u8]) -> Option<Int>
    ensures { result ≡ number_of text.now }
{
    match decimal_of(text) {
        Some(value) => signed_number(false, value),
        None => None,
    }
}

/// A real's exponent, where its absolute value is below 2^63. `before` are the bytes before the `e`, `exponent` those from it on.
#[tactic(auto, using(crate::proofs::Numbers::exponent_some, crate::proofs::Numbers::exponent_none, crate::proofs::Numbers::point_within))]
fn exponent_of(before: &[u8], exponent: &[u8]) -> Option<Int>
    ensures { result ≡ exponent_of before.now exponent.now }
{
    let (_, after_point) = before.split_at(point_index(before));
    match decimal_of(exponent) {
        Some(magnitude) => lowered(is_negative(exponent), magnitude, digit_count(after_point)),
        None => None,
    }
}

/// A real's value, where mantissa and exponent have absolute values below 2^63.
#[tactic(auto, using(crate::proofs::Numbers::mark_within), unfolding(crate::specs::Numbers::real_of))]
pub fn real_of(text: &[u8]) -> Option<Scaled>
    ensures { result ≡ real_of text.now }
{
    let (before, exponent) = text.split_at(mark_index(text));
    let Some(mantissa) = number_of(before) else {
        return None;
    };
    let Some(exponent) = exponent_of(before, exponent) else {
        return None;
    };
    Some(Scaled { mantissa, exponent })
}
