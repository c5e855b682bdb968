ghost use Rattle.std.specs.Prelude.{◌≡◌, ◌+◌, ◌<◌, ◌≤◌, ◌^◌, ℕ, List, length, Some, None, Option, IfOk, IsErrOf, option_map};
ghost use Rattle.nl_io.specs.Causes.{Rose};
ghost use Rattle.nl_base.specs.Faults.{OnText};
ghost use Rattle.nl_bytes.specs.Classes.{in_class};
ghost use Rattle.nl_base.specs.Place.{place_past};
ghost use Rattle.edif_tokens.specs.Spelling.{start_of, may_follow, integer_of};
ghost use Rattle.nl_bytes.specs.Flaws.{refusal};
ghost use Rattle.edif_tokens.specs.Scan.{ending, Spans};

use nl_base::{Int, Place, ReadError, Reason, TextFault};
use nl_bytes::bytes::LIMIT;
use nl_bytes::{Bytes, Class, Halt};
use nl_io::Source;

/// What a byte begins.
#[derive(Clone, Copy, Debug, PartialEq, Eq)]
pub enum Start {
    Open,
    Close,
    Quote,
    Letter,
    Ampersand,
    Digit,
    Sign,
    Other,
}

#[inline]
pub fn start_of(b: u8) -> Start
    ensures { result ≡ start_of b }
{
    if b == b'(' {
        Start::Open
    } else if b == b')' {
        Start::Close
    } else if b == b'"' {
        Start::Quote
    } else if b.is_ascii_alphabetic() {
        Start::Letter
    } else if b == b'&' {
        Start::Ampersand
    } else if b.is_ascii_digit() {
        Start::Digit
    } else if b == b'+' || b == b'-' {
        Start::Sign
    } else {
        Start::Other
    }
}

pub fn may_follow(b: u8) -> bool
    ensures { result ≡ may_follow b }
{
    Class::Space.contains(b) || b == b'(' || b == b')' || b == b'"'
}

/// The number that a sign and digits, or digits, spell.
pub fn integer_of(text: &[u8]) -> Option<Int>
    ensures { result ≡ integer_of text.now }
{
    let (negative, digits) = match text {
        [] => return None,
        [first, rest @ ..] => {
            if *first == b'+' || *first == b'-' {
                (*first == b'-', rest)
            } else {
                (false, text)
            }
        }
    };
    let mut magnitude: u64 = 0;
    for d in digits {
        magnitude = magnitude
            .saturating_mul(10)
            .saturating_add(u64::from(d.saturating_sub(b'0')));
    }
    if magnitude < 1 << 63 {
        Some(Int::signed(negative, magnitude))
    } else {
        None
    }
}

/// A fault, or that the input is too long where the fault's stop is past the limit.
pub fn refuse(place: Place, stop: u64, reason: Reason) -> ReadError
    ensures { result ≡ refusal place stop reason }
{
    if LIMIT < stop {
        ReadError::TooLong
    } else {
        ReadError::Text(TextFault {
            place,
            stop,
            reason,
        })
    }
}

/// How a word or an integer ends that began at `place`, has so many bytes and has `next` behind it: its stop, or a fault.
fn ending(place: Place, here: Place, count: usize, next: Option<u8>) -> Result<u64, ReadError>
    requires place { place.offset ≤ LIMIT }
    requires here { here.offset ≤ LIMIT }
    ensures { result ≡ ending place here count next }
{
    if count > 1024 {
        return Err(refuse(place, place.offset + 1025, Reason::TokenTooLong));
    }
    match next {
        None => Ok(here.offset),
        Some(b) => {
            if may_follow(b) {
                Ok(here.offset + 1)
            } else {
                Err(refuse(here, here.offset + 1, Reason::BadByte))
            }
        }
    }
}

/// Reads the rest of a word or an integer, whose first bytes stand in `text`, and answers its stop.
pub fn span<S: Source>(
    bytes: &mut Bytes,
    class: Class,
    place: Place,
    text: &mut Vec<u8>,
    source: &mut S,
) -> Result<u64, ReadError>
    requires lead { length text.old.items ≤ 2 }
    requires begins { bytes.old.place ≡ place_past place text.old.items }
    requires within { place.offset ≤ LIMIT }
    ensures spans { Spans class place bytes.old bytes.new
        (S.supply source.old).left (S.supply source.new).left text.old.items text.new.items result }
    ensures count { (S.supply source.old).faults ≤ (S.supply source.new).faults }
    ensures cause { IsErrOf result ReadError.ReadFault
        → Rose (S.supply source.old).faults (S.supply source.new).faults }
    ensures never_spent { IsErrOf result ReadError.Spent → ⊥ }
    ensures bounded { OnText result (λ t. bytes.new.place.offset ≤ t.stop) }
    ensures ended { IfOk result (λ stop. bytes.new.place.offset ≤ stop) }
{
    let most = 1025 - text.len();
    let next = bytes.run(class, most, text, source)?;
    ending(place, bytes.place(), text.len(), next)
}
