// Tokens that are held whole, with the byte that shows their end.
ghost use Rattle.std.specs.Prelude.{◌≡◌, ◌+◌, ◌<◌, ◌≤◌, ◌∷◌, ℕ, true, List, length, drop, Some, Option, IfOk, IfErr, IfSome, IsErrOf, IsTrue};
ghost use Rattle.nl_base.specs.Faults.{OnText};
ghost use Rattle.nl_bytes.specs.Bytes.{given};
ghost use Rattle.nl_bytes.specs.Tokens.{Finds};
ghost use Rattle.vlog_tokens.specs.Held.{is_near, word_length, number_length, escaped_length, quoted_length, is_pair, pair_token, number_found};
ghost use Rattle.vlog_tokens.specs.Items.{word_item};
ghost use Rattle.vlog_tokens.specs.Proper.{IsProper};
ghost use Rattle.vlog_tokens.specs.Spelling.{start_of};
ghost use Rattle.vlog_tokens.specs.declared.start.Start.TheVariants.{Lexeme};
ghost use Rattle.vlog_tokens.specs.declared.phase.Phase.TheVariants.{Word, Whole, Escape};
ghost use Rattle.vlog_tokens.specs.Language.{vlog};

use crate::item::word_token;
use crate::number::number_of;
use crate::phase::is_mark as is_exponent_mark;
use crate::scan::refuse;
use crate::string::str_token;
use crate::token::{VFound, VToken};
use nl_base::{Place, ReadError, Reason, Text};
use nl_bytes::{Bytes, Class};
use std::alloc::Global;

/// How many bytes a name or a keyword at the front has, where its end is there; 0 where not.
#[inline(always)]
#[tactic(auto, unfolding(crate::specs::Held::word_length))]
pub fn word_length(held: &[u8]) -> usize
    ensures { result ≡ word_length held.now }
{
    let count = Class::NameByte.front(held);
    if count > 1024 || count >= held.len() {
        return 0;
    }
    count
}

/// How many bytes a number at the front has, where its end is there; 0 where not.
#[inline(always)]
#[tactic(auto, unfolding(crate::specs::Held::number_length))]
pub fn number_length(held: &[u8]) -> usize
    ensures { result ≡ number_length held.now }
{
    let count = Class::NumberByte.front(held);
    if count >= held.len() {
        return 0;
    }
    let next = held[count];
    if next == b'.' || is_exponent_mark(next) {
        return 0;
    }
    count
}

/// How many bytes an escaped name has behind its `\\`, where its end is there; 0 where not.
#[inline(always)]
#[tactic(auto, unfolding(crate::specs::Held::escaped_length))]
pub fn escaped_length(name: &[u8]) -> usize
    ensures { result ≡ escaped_length name.now }
{
    let count = Class::Graphic.front(name);
    if count > 1024 || count >= name.len() {
        return 0;
    }
    if !Class::VerilogSpace.contains(name[count]) {
        return 0;
    }
    count
}

/// How many bytes a string without escapes has behind its first quote, where its last is there.
#[inline(always)]
#[tactic(auto, unfolding(crate::specs::Held::quoted_length))]
pub fn quoted_length(rest: &[u8]) -> Option<usize>
    ensures { result ≡ quoted_length rest.now }
{
    let count = Class::VerilogStringByte.front(rest);
    if count >= rest.len() {
        return None;
    }
    if rest[count] != b'"' {
        return None;
    }
    Some(count)
}

/// Whether `(*` or `*)` is at the front.
#[inline(always)]
pub fn is_pair(held: &[u8]) -> bool
    ensures { result ≡ is_pair held.now }
{
    match held {
        [first, second, ..] => {
            if *first == b'(' {
                return *second == b'*';
            }
            *first == b'*' && *second == b')'
        }
        _ => false,
    }
}

/// Uses a name or a keyword of so many bytes.
#[inline(always)]
pub fn held_word(
    bytes: &mut Bytes,
    alloc: Global,
    byte: u8,
    count: usize,
) -> Result<Option<VFound>, ReadError>
    requires ahead { (rest : List ℕ) × (bytes.old.held ≡ byte ∷ rest) }
    requires begins { start_of byte ≡ Lexeme Word }
    requires near { is_near bytes.old ≡ true }
    requires some { 0 < count }
    requires whole { count ≡ word_length bytes.old.held }
    ensures finds { (left : Option (List ℕ)) → Finds vlog bytes.old bytes.new left left result }
    ensures proper { IfOk result (λ x. IfSome x (λ x. IsProper x.token)) }
    ensures error { IfErr result (λ e. e ≡ ReadError.NoMemory) }
{
    let place = bytes.place();
    let (front, _) = bytes.held().split_at(count);
    let text = Text::copy(alloc, front)?;
    bytes.pass(Class::NameByte, count);
    Ok(Some(VFound {
        place,
        stop: place.offset + count as u64 + 1,
        token: word_token(text),
    }))
}

/// The number that digits are, or that they are out of range.
#[inline(always)]
fn number_found(place: Place, stop: u64, digits: &[u8]) -> Result<Option<VFound>, ReadError>
    ensures { result ≡ number_found place stop digits.now }
{
    match number_of(digits) {
        Some(number) => Ok(Some(VFound {
            place,
            stop,
            token: VToken::Number(number),
        })),
        None => Err(refuse(place, stop, Reason::NumberRange)),
    }
}

/// Uses a number of so many bytes.
#[inline(always)]
pub fn held_number(bytes: &mut Bytes, byte: u8, count: usize) -> Result<Option<VFound>, ReadError>
    requires ahead { (rest : List ℕ) × (bytes.old.held ≡ byte ∷ rest) }
    requires begins { start_of byte ≡ Lexeme Whole }
    requires near { is_near bytes.old ≡ true }
    requires some { 0 < count }
    requires whole { count ≡ number_length bytes.old.held }
    ensures finds { (left : Option (List ℕ)) → Finds vlog bytes.old bytes.new left left result }
    ensures proper { IfOk result (λ x. IfSome x (λ x. IsProper x.token)) }
    ensures never_fails { IsErrOf result ReadError.ReadFault → ⊥ }
    ensures never_spent { IsErrOf result ReadError.Spent → ⊥ }
    ensures bounded { OnText result (λ t. bytes.new.place.offset ≤ t.stop) }
{
    let place = bytes.place();
    let (digits, _) = bytes.held().split_at(count);
    let found = number_found(place, place.offset + count as u64 + 1, digits);
    bytes.pass(Class::NumberByte, count);
    found
}

/// Uses an escaped name of so many bytes behind its `\\`.
#[inline(always)]
pub fn held_escaped(
    bytes: &mut Bytes,
    alloc: Global,
    count: usize,
) -> Result<Option<VFound>, ReadError>
    requires ahead { (rest : List ℕ) × (bytes.old.held ≡ 92 ∷ rest) }
    requires near { is_near bytes.old ≡ true }
    requires some { 0 < count }
    requires whole { count ≡ escaped_length (drop 1 bytes.old.held) }
    ensures finds { (left : Option (List ℕ)) → Finds vlog bytes.old bytes.new left left result }
    ensures proper { IfOk result (λ x. IfSome x (λ x. IsProper x.token)) }
    ensures error { IfErr result (λ e. e ≡ ReadError.NoMemory) }
{
    let place = bytes.place();
    let (_, name) = bytes.held().split_at(1);
    let (front, _) = name.split_at(count);
    let text = Text::copy(alloc, front)?;
    bytes.pass(Class::Graphic, count + 1);
    Ok(Some(VFound {
        place,
        stop: place.offset + count as u64 + 2,
        token: VToken::Name(text),
    }))
}

/// Uses a string of so many bytes between its quotes.
#[inline(always)]
pub fn held_string(
    bytes: &mut Bytes,
    alloc: Global,
    count: usize,
) -> Result<Option<VFound>, ReadError>
    requires ahead { (rest : List ℕ) × (bytes.old.held ≡ 34 ∷ rest) }
    requires near { is_near bytes.old ≡ true }
    requires whole { quoted_length (drop 1 bytes.old.held) ≡ Some count }
    ensures finds { (left : Option (List ℕ)) → Finds vlog bytes.old bytes.new left left result }
    ensures proper { IfOk result (λ x. IfSome x (λ x. IsProper x.token)) }
    ensures error { IfErr result (λ e. e ≡ ReadError.NoMemory) }
{
    let place = bytes.place();
    let (_, rest) = bytes.held().split_at(1);
    let (value, _) = rest.split_at(count);
    let text = Text::copy(alloc, value)?;
    bytes.pass(Class::LineByte, count + 2);
    Ok(Some(VFound {
        place,
        stop: place.offset + count as u64 + 2,
        token: str_token(text),
    }))
}

/// What `(*` or `*)` is, by its first byte.
fn pair_token(first: u8) -> VToken
    ensures { result ≡ pair_token first }
{
    if first == b'(' {
        return VToken::AttrStart;
    }
    VToken::AttrStop
}

/// Uses `(*` or `*)`.
#[inline(always)]
pub fn held_pair(bytes: &mut Bytes, byte: u8) -> Result<Option<VFound>, ReadError>
    requires ahead { (rest : List ℕ) × (bytes.old.held ≡ byte ∷ rest) }
    requires near { is_near bytes.old ≡ true }
    requires pair { is_pair bytes.old.held ≡ true }
    ensures finds { (left : Option (List ℕ)) → Finds vlog bytes.old bytes.new left left result }
    ensures proper { IfOk result (λ x. IfSome x (λ x. IsProper x.token)) }
    ensures error { IfErr result (λ e. ⊥) }
{
    let place = bytes.place();
    bytes.pass(Class::Graphic, 2);
    Ok(Some(VFound {
        place,
        stop: place.offset + 2,
        token: pair_token(byte),
    }))
}
