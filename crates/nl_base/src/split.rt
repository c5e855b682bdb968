ghost use Rattle.std.specs.Prelude.{◌≡◌, ◌<◌, ◌≤◌, ◌+◌, take, drop, length, slice_get, option_map, IfSome, IfNone, MatchOption};
ghost use Rattle.nl_base.specs.Ranges.{HasRangeForm, HasNoRangeForm};
ghost use Rattle.nl_base.specs.RangeForm.{IsFreeOf, cut_at_first, cut_at_last, opened_range, opening_of, range_form, spelled_index, spelled_range};

use crate::range::Range;
use itoa::Buffer;
use std::str;

/// The opening bracket of a closing one.
fn opening(byte: u8) -> Option<u8>
    ensures { result ≡ opening_of byte }
{
    match byte {
        b']' => Some(b'['),
        b'>' => Some(b'<'),
        b')' => Some(b'('),
        _ => None,
    }
}

/// The index of at most 2^31-1 in absolute value of which the bytes are the decimal text: no `+`, no leading zero and no `-0`.
fn index_of(bytes: &[u8]) -> Option<i32>
    ensures { result ≡ spelled_index bytes.now }
{
    let Ok(text) = str::from_utf8(bytes) else {
        return None;
    };
    let Ok(index) = text.parse::<i32>() else {
        return None;
    };
    let mut buffer = Buffer::new();
    if index == i32::MIN || buffer.format(index) != text {
        return None;
    }
    Some(index)
}

/// Where the byte stands first.
fn first_place(bytes: &[u8], byte: u8) -> Option<usize>
    ensures { MatchOption result (IsFreeOf byte bytes.now) (λ at. (at < length bytes.now)
        × (slice_get bytes.now at ≡ Some byte) × IsFreeOf byte (take at bytes.now)) }
{
    for at in 0..bytes.len() {
        if bytes[at] == byte {
            return Some(at);
        }
    }
    None
}

/// Where the byte stands last.
fn last_place(bytes: &[u8], byte: u8) -> Option<usize>
    ensures { MatchOption result (IsFreeOf byte bytes.now) (λ at. (at < length bytes.now)
        × (slice_get bytes.now at ≡ Some byte) × IsFreeOf byte (drop (at + 1) bytes.now)) }
{
    let mut end = bytes.len();
    while end > 0 {
        if bytes[end - 1] == byte {
            return Some(end - 1);
        }
        end -= 1;
    }
    None
}

/// The bytes before the first such byte, and those after it.
fn split_at_first(bytes: &[u8], byte: u8) -> Option<(&[u8], &[u8])>
    ensures { MatchOption result (cut_at_first byte bytes.now
        ≡ None) (λ sides. cut_at_first byte bytes.now ≡ Some (sides.0.now, sides.1.now)) }
{
    let at = first_place(bytes, byte)?;
    Some((&bytes[..at], &bytes[at + 1..]))
}

/// The bytes before the last such byte, and those after it.
fn split_at_last(bytes: &[u8], byte: u8) -> Option<(&[u8], &[u8])>
    ensures { MatchOption result (cut_at_last byte bytes.now
        ≡ None) (λ sides. cut_at_last byte bytes.now ≡ Some (sides.0.now, sides.1.now)) }
{
    let at = last_place(bytes, byte)?;
    Some((&bytes[..at], &bytes[at + 1..]))
}

/// The range of `size` bits that the bytes spell, as `7:0`.
fn range_of(bytes: &[u8], size: u32) -> Option<Range>
    ensures { result ≡ spelled_range size bytes.now }
{
    let (left, right) = split_at_first(bytes, b':')?;
    let left = index_of(left)?;
    let right = index_of(right)?;
    let range = Range { left, right };
    if range.bits() != size as u64 {
        return None;
    }
    Some(range)
}

/// The length of the base and the range of `size` bits, where the bytes are a base, the bracket and the range.
fn opened(bytes: &[u8], bracket: u8, size: u32) -> Option<(usize, Range)>
    ensures { result ≡ option_map (λ form. (length form.0, form.1))
        (opened_range size bytes.now bracket) }
{
    let (base, inside) = split_at_last(bytes, bracket)?;
    let range = range_of(inside, size)?;
    Some((base.len(), range))
}

/// The length of the base and the range of `size` bits, where the text has the range form.
fn base_and_range(text: &[u8], size: u32) -> Option<(usize, Range)>
    ensures { result ≡ option_map (λ form. (length form.0, form.1)) (range_form text.now size) }
{
    let (close, front) = text.split_last()?;
    let bracket = opening(*close)?;
    opened(front, bracket, size)
}

/// The length of the base and the range, exactly where the text is a base and then a range of `size` bits in brackets, as `bus[7:0]`,
/// `bus<7:0>` or `bus(7:0)`.
pub fn split_range(text: &[u8], size: u32) -> Option<(usize, Range)>
    ensures some { IfSome result
        (λ found. HasRangeForm text.now size (take found.0 text.now) found.1) }
    ensures within { IfSome result (λ found. found.0 ≤ length text.now) }
    ensures none { IfNone result (HasNoRangeForm text.now size) }
    ensures value { result ≡ option_map (λ form. (length form.0, form.1))
        (range_form text.now size) }
{
    base_and_range(text, size)
}
