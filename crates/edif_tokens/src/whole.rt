// Tokens that are held whole, with the byte that shows their end.
ghost use Rattle.std.specs.Prelude.{◌≡◌, ◌↔◌, ◌+◌, ◌<◌, ◌≤◌, ◌∷◌, [], ℕ, true, false, List, length, Some, None, Option, IfOk, IfErr, IfSome, IsNone, IsSome, IsTrue, IsErrOf, Ok, Err};
ghost use Rattle.nl_base.specs.Faults.{OnText};
ghost use Rattle.edif_values.specs.Proper.{IsProper};
ghost use Rattle.nl_bytes.specs.Bytes.{Uses, given};
ghost use Rattle.edif_tokens.specs.Scan.{Reads, IsWhole, IsQuoted, NoneWhole, NoneQuoted};
ghost use Rattle.edif_tokens.specs.Spelling.{word_spelled, number_spelled, string_spelled, token_by, start_of, begins_word, is_parenthesis};
ghost use Rattle.edif_tokens.specs.Scan.{number_found};

use crate::lexeme::{number_found, word_of};
use crate::scan::may_follow;
use crate::string::string_of;
use crate::token::Found;
use edif_values::Token;
use nl_base::{ReadError, Text};
use nl_bytes::bytes::LIMIT;
use nl_bytes::{Bytes, Class};
use nl_io::Source;
use std::alloc::Global;

/// Uses the byte ahead, which is a token.
#[inline(always)]
pub fn mark<S: Source>(bytes: &mut Bytes, byte: u8, token: Token, source: &S) -> Found
    requires ahead { (rest : List ℕ) × (bytes.old.held ≡ byte ∷ rest) }
    requires within { bytes.old.place.offset ≤ LIMIT }
    ensures found { result ≡ record {
      place = bytes.old.place;
      stop = bytes.old.place.offset + 1;
      token = token;
    } }
    ensures uses { Uses bytes.old bytes.new (S.supply source.now).left (S.supply source.now).left
        (byte ∷ []) }
    ensures kept { given bytes.new ≡ given bytes.old }
{
    let place = bytes.place();
    bytes.advance();
    Found {
        place,
        stop: place.offset + 1,
        token,
    }
}

/// The parenthesis ahead, exactly where the byte is one and stands within the limit. Where there is none, nothing is used.
#[inline(always)]
pub fn mark_found<S: Source>(bytes: &mut Bytes, byte: u8, source: &S) -> Option<Found>
    requires ahead { (rest : List ℕ) × (bytes.old.held ≡ byte ∷ rest) }
    requires within { bytes.old.place.offset ≤ LIMIT }
    ensures reads { IfSome result
        (λ f. Reads (token_by (start_of byte)) bytes.old.place bytes.old bytes.new
        (S.supply source.now).left (S.supply source.now).left (Ok f)) }
    ensures limit { IfSome result (λ f. f.stop ≤ LIMIT) }
    ensures ended { IfSome result (λ f. bytes.new.place.offset ≤ f.stop) }
    ensures proper { IfSome result (λ f. IsProper f.token) }
    ensures comes { IsSome result
        ↔ (IsTrue (is_parenthesis byte) × (bytes.old.place.offset < LIMIT)) }
    ensures none { IsNone result → bytes.new ≡ bytes.old }
{
    if bytes.place().offset == LIMIT {
        return None;
    }
    if byte == b'(' {
        return Some(mark(bytes, byte, Token::LeftParen, source));
    }
    if byte == b')' {
        return Some(mark(bytes, byte, Token::RightParen, source));
    }
    None
}

/// How many bytes of a class are ahead, where they are held whole with the byte that shows the end of their token; 0 where not.
#[inline(always)]
pub fn held_length(bytes: &Bytes, class: Class) -> usize
    requires within { bytes.now.place.offset ≤ LIMIT }
    ensures whole { 0 < result → IsWhole class bytes.now result }
    ensures none { result ≡ 0 → NoneWhole class bytes.now }
{
    let held = bytes.held();
    let count = class.front(held);
    if count > 1024 || count >= held.len() {
        return 0;
    }
    if bytes.place().offset + count as u64 >= LIMIT {
        return 0;
    }
    let next = held[count];
    if !may_follow(next) {
        return 0;
    }
    count
}

/// Uses a word of so many bytes, which is held whole.
#[inline(always)]
pub fn held_word<S: Source>(
    bytes: &mut Bytes,
    alloc: Global,
    count: usize,
    byte: u8,
    source: &S,
) -> Result<Found, ReadError>
    requires ahead { (rest : List ℕ) × (bytes.old.held ≡ byte ∷ rest) }
    requires begins { begins_word false byte ≡ true }
    requires some { 0 < count }
    requires whole { IsWhole Class.WordByte bytes.old count }
    ensures reads { Reads (word_spelled false) bytes.old.place bytes.old bytes.new
        (S.supply source.now).left (S.supply source.now).left result }
    ensures limit { IfOk result (λ f. f.stop ≤ LIMIT) }
    ensures ended { IfOk result (λ f. bytes.new.place.offset ≤ f.stop) }
    ensures proper { IfOk result (λ f. IsProper f.token) }
    ensures error { IfErr result (λ e. e ≡ ReadError.NoMemory) }
{
    let place = bytes.place();
    let (front, _) = bytes.held().split_at(count);
    let text = Text::copy(alloc, front)?;
    bytes.pass(Class::WordByte, count);
    Ok(Found {
        place,
        stop: place.offset + count as u64 + 1,
        token: word_of(text),
    })
}

/// Uses digits, so many, which are held whole.
#[inline(always)]
pub fn held_number<S: Source>(
    bytes: &mut Bytes,
    count: usize,
    byte: u8,
    source: &S,
) -> Result<Found, ReadError>
    requires ahead { (rest : List ℕ) × (bytes.old.held ≡ byte ∷ rest) }
    requires some { 0 < count }
    requires whole { IsWhole Class.Digit bytes.old count }
    ensures reads { Reads (number_spelled false) bytes.old.place bytes.old bytes.new
        (S.supply source.now).left (S.supply source.now).left result }
    ensures limit { IfOk result (λ f. f.stop ≤ LIMIT) }
    ensures never_fails { IsErrOf result ReadError.ReadFault → ⊥ }
    ensures never_spent { IsErrOf result ReadError.Spent → ⊥ }
    ensures bounded { OnText result (λ t. bytes.new.place.offset ≤ t.stop) }
    ensures ended { IfOk result (λ f. bytes.new.place.offset ≤ f.stop) }
    ensures proper { IfOk result (λ f. IsProper f.token) }
{
    let place = bytes.place();
    let (front, _) = bytes.held().split_at(count);
    let found = number_found(place, place.offset + count as u64 + 1, front);
    bytes.pass(Class::Digit, count);
    found
}

/// How many bytes a string ahead has with its quotes, where it has no escapes and is held whole; 0 where not.
#[inline(always)]
pub fn held_quoted(bytes: &Bytes) -> usize
    requires ahead { (rest : List ℕ) × (bytes.now.held ≡ 34 ∷ rest) }
    requires within { bytes.now.place.offset ≤ LIMIT }
    ensures quoted { 0 < result → IsQuoted bytes.now result }
    ensures none { result ≡ 0 → NoneQuoted bytes.now }
{
    let (_, rest) = bytes.held().split_at(1);
    let count = Class::StringByte.front(rest);
    if count >= rest.len() || bytes.place().offset + count as u64 + 2 > LIMIT {
        return 0;
    }
    let next = rest[count];
    if next != b'"' {
        return 0;
    }
    count + 2
}

/// Uses a string of so many bytes with its quotes, which has no escapes and is held whole.
#[inline(always)]
pub fn held_string<S: Source>(
    bytes: &mut Bytes,
    alloc: Global,
    count: usize,
    source: &S,
) -> Result<Found, ReadError>
    requires ahead { (rest : List ℕ) × (bytes.old.held ≡ 34 ∷ rest) }
    requires quoted { IsQuoted bytes.old count }
    ensures reads { Reads string_spelled bytes.old.place bytes.old bytes.new
        (S.supply source.now).left (S.supply source.now).left result }
    ensures limit { IfOk result (λ f. f.stop ≤ LIMIT) }
    ensures ended { IfOk result (λ f. bytes.new.place.offset ≤ f.stop) }
    ensures proper { IfOk result (λ f. IsProper f.token) }
    ensures error { IfErr result (λ e. e ≡ ReadError.NoMemory) }
{
    let place = bytes.place();
    let (_, rest) = bytes.held().split_at(1);
    let (value, _) = rest.split_at(count - 2);
    let text = Text::copy(alloc, value)?;
    bytes.advance();
    bytes.pass(Class::StringByte, count - 2);
    bytes.advance();
    Ok(Found {
        place,
        stop: place.offset + count as u64,
        token: string_of(text),
    })
}
