ghost use Rattle.std.specs.Prelude.{All, ◌≡◌, ◌⊎◌, ◌+◌, ◌<◌, ◌≤◌, ◌∷◌, ◌++◌, [], ℕ, List, length, Option, IfOk, IfErr, OnOk, IsErrOf};
ghost use Rattle.nl_io.specs.Causes.{Rose};
ghost use Rattle.nl_base.specs.Faults.{OnText};
ghost use Rattle.nl_bytes.specs.Flaws.{refusal};
ghost use Rattle.vlog_tokens.specs.Parts.{Part, Reads};
ghost use Rattle.vlog_tokens.specs.Proper.{IsProper, IsProperItem};
ghost use Rattle.vlog_tokens.specs.Spelling.{string_spelled};
ghost use Rattle.vlog_tokens.specs.Strings.{Codes, Parts, escaped_by, is_octal, string_at};

use crate::item::{Item, Spot};
use crate::scan::refuse;
use crate::token::VToken;
use nl_base::{Place, ReadError, Reason, Text};
use nl_bytes::bytes::LIMIT;
use nl_bytes::{Bytes, Class, Halt};
use nl_io::Source;
use std::alloc::Global;

/// How many bytes a string may have by value.
const MOST: usize = 1_048_576;

/// What the byte after a `\` means in a string.
#[derive(Clone, Copy)]
pub enum Escaped {
    /// The escape stands for this byte.
    Stands(u8),
    /// The first digit of an octal code.
    Octal(u8),
    /// A byte of a string that makes no escape.
    NoEscape,
    /// A byte that may stand in no string.
    NoByte,
}

fn is_octal(b: u8) -> bool
    ensures { result ≡ is_octal b }
{
    b'0' <= b && b <= b'7'
}

fn escaped_by(b: u8) -> Escaped
    ensures { result ≡ escaped_by b }
{
    match b {
        b'n' => Escaped::Stands(b'\n'),
        b't' => Escaped::Stands(b'\t'),
        b'\\' | b'"' => Escaped::Stands(b),
        _ => {
            if is_octal(b) {
                return Escaped::Octal(b - b'0');
            }
            if Class::VerilogStringByte.contains(b) {
                return Escaped::NoEscape;
            }
            Escaped::NoByte
        }
    }
}

/// Reads the further digits of an octal code, at most two. It answers no value where the next digit takes it above 255.
fn code<S: Source>(bytes: &mut Bytes, begun: u8, source: &mut S) -> Result<Option<u8>, Halt>
    ensures codes { Codes begun bytes.old bytes.new
        (S.supply source.old).left (S.supply source.new).left result }
    ensures limit { bytes.old.place.offset ≤ LIMIT + 1 → bytes.new.place.offset ≤ LIMIT + 1 }
    ensures count { (S.supply source.old).faults ≤ (S.supply source.new).faults }
    ensures cause { IsErrOf result Halt.Failed
        → Rose (S.supply source.old).faults (S.supply source.new).faults }
{
    let mut code = begun;
    let mut more: u8 = 2;
    'digits: loop {
        if more == 0 {
            return Ok(Some(code));
        }
        let next = bytes.peek(source)?;
        let Some(b) = next else {
            return Ok(Some(code));
        };
        if !is_octal(b) {
            return Ok(Some(code));
        }
        let value = 8 * u16::from(code) + u16::from(b - b'0');
        if value > 255 {
            return Ok(None);
        }
        bytes.advance();
        code = value as u8;
        more -= 1;
    }
}

/// Adds a byte to a string's value, or refuses it where the string is full.
fn add(value: &mut Vec<u8>, byte: u8, place: Place, stop: u64) -> Result<(), ReadError>
    ensures added { OnOk result ((length value.old.items < 1048576)
        × (value.new.items ≡ value.old.items ++ byte ∷ [])) }
    ensures refused { IfErr result
        (λ e. (e ≡ ReadError.NoMemory)
        ⊎ ((e ≡ refusal place stop Reason.TokenTooLong) × (1048576 ≤ length value.old.items))) }
    ensures bounded { OnText result (λ t. stop ≤ t.stop) }
    ensures never_spent { IsErrOf result ReadError.Spent → ⊥ }
    ensures never_failed { IsErrOf result ReadError.ReadFault → ⊥ }
{
    if value.len() >= MOST {
        return Err(refuse(place, stop, Reason::TokenTooLong));
    }
    value.push(byte)?;
    Ok(())
}

/// Reads an escape, whose `\` is ahead, and adds the byte that it stands for.
fn escape<S: Source>(
    bytes: &mut Bytes,
    place: Place,
    value: &mut Vec<u8>,
    source: &mut S,
) -> Result<(), ReadError>
    requires ahead { (tail : List ℕ) × (bytes.old.held ≡ 92 ∷ tail) }
    requires within { bytes.old.place.offset ≤ LIMIT }
    ensures part { Part (string_at Parts value.old.items)
        (λ _. string_at Parts value.new.items) place bytes.old bytes.new
        (S.supply source.old).left (S.supply source.new).left result }
    ensures short { length value.old.items ≤ 1048576
        → OnOk result (length value.new.items ≤ 1048576) }
    ensures moved { OnOk result (bytes.old.place.offset < bytes.new.place.offset) }
    ensures count { (S.supply source.old).faults ≤ (S.supply source.new).faults }
    ensures cause { IsErrOf result ReadError.ReadFault
        → Rose (S.supply source.old).faults (S.supply source.new).faults }
    ensures never_spent { IsErrOf result ReadError.Spent → ⊥ }
    ensures bounded { OnText result (λ t. bytes.new.place.offset ≤ t.stop) }
{
    let start = bytes.place();
    bytes.advance();
    let next = bytes.peek(source)?;
    let here = bytes.place();
    let Some(b) = next else {
        return Err(refuse(here, here.offset, Reason::EndOfInput));
    };
    match escaped_by(b) {
        Escaped::Stands(c) => {
            add(value, c, place, here.offset + 1)?;
            bytes.advance();
            Ok(())
        }
        Escaped::Octal(digit) => {
            bytes.advance();
            let code = code(bytes, digit, source)?;
            let after = bytes.place();
            let Some(code) = code else {
                return Err(refuse(start, after.offset + 1, Reason::BadEscape));
            };
            add(value, code, place, after.offset)?;
            Ok(())
        }
        Escaped::NoEscape => Err(refuse(start, here.offset + 1, Reason::BadEscape)),
        Escaped::NoByte => Err(refuse(here, here.offset + 1, Reason::BadByte)),
    }
}

/// Reads the parts of a string, whose first quote was used. The quote that ends it is ahead then.
fn parts<S: Source>(
    bytes: &mut Bytes,
    place: Place,
    value: &mut Vec<u8>,
    source: &mut S,
) -> Result<(), ReadError>
    ensures part { Part (string_at Parts value.old.items)
        (λ _. string_at Parts value.new.items) place bytes.old bytes.new
        (S.supply source.old).left (S.supply source.new).left result }
    ensures short { length value.old.items ≤ 1048576
        → OnOk result (length value.new.items ≤ 1048576) }
    ensures quote { OnOk result ((rest : List ℕ) × (bytes.new.held ≡ 34 ∷ rest)) }
    ensures within { OnOk result (bytes.new.place.offset ≤ LIMIT) }
    ensures count { (S.supply source.old).faults ≤ (S.supply source.new).faults }
    ensures cause { IsErrOf result ReadError.ReadFault
        → Rose (S.supply source.old).faults (S.supply source.new).faults }
    ensures never_spent { IsErrOf result ReadError.Spent → ⊥ }
    ensures bounded { OnText result (λ t. bytes.new.place.offset ≤ t.stop) }
{
    'parts: loop {
        let most = MOST.saturating_sub(value.len());
        let next = bytes.run(Class::VerilogStringByte, most, value, source)?;
        let here = bytes.place();
        let Some(b) = next else {
            return Err(refuse(here, here.offset, Reason::EndOfInput));
        };
        if b == b'"' {
            return Ok(());
        }
        if b != b'\\' {
            if Class::VerilogStringByte.contains(b) {
                return Err(refuse(place, here.offset + 1, Reason::TokenTooLong));
            }
            return Err(refuse(here, here.offset + 1, Reason::BadByte));
        }
        escape(bytes, place, value, source)?;
    }
}

/// Each byte is below 256.
#[inline(always)]
fn each_is_byte(bytes: &[u8])
    ensures { All (λ b. b < 256) bytes.now }
{
    let _first = bytes.first();
}

/// The string that a text is.
#[inline(always)]
pub(crate) fn str_token(text: Text) -> VToken
    requires { length text ≤ 1048576 }
    ensures token { result ≡ VToken.Str text }
    ensures proper { IsProper result }
{
    each_is_byte(text.bytes());
    VToken::Str(text)
}

/// Reads a string, whose first quote is ahead.
pub fn string<S: Source>(
    bytes: &mut Bytes,
    alloc: Global,
    source: &mut S,
) -> Result<Spot, ReadError>
    requires ahead { (quote : ℕ) × (tail : List ℕ) × (bytes.old.held ≡ quote ∷ tail) }
    requires within { bytes.old.place.offset ≤ LIMIT }
    ensures reads { Reads string_spelled bytes.old bytes.new
        (S.supply source.old).left (S.supply source.new).left result }
    ensures proper { IfOk result (λ x. IsProperItem x.item) }
    ensures count { (S.supply source.old).faults ≤ (S.supply source.new).faults }
    ensures cause { IsErrOf result ReadError.ReadFault
        → Rose (S.supply source.old).faults (S.supply source.new).faults }
    ensures never_spent { IsErrOf result ReadError.Spent → ⊥ }
    ensures bounded { OnText result (λ t. bytes.new.place.offset ≤ t.stop) }
    ensures ended { IfOk result (λ x. bytes.new.place.offset ≤ x.stop) }
{
    let place = bytes.place();
    bytes.advance();
    let mut value = Vec::new(alloc);
    parts(bytes, place, &mut value, source)?;
    let here = bytes.place();
    bytes.advance();
    let text = Text::of(alloc, value)?;
    Ok(Spot {
        item: Item::Token(str_token(text)),
        stop: here.offset + 1,
    })
}
