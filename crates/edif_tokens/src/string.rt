ghost use Rattle.std.specs.Prelude.{◌≡◌, ◌+◌, ◌<◌, ◌≤◌, ◌∷◌, [], ℕ, true, false, List, length, All, Option, IfOk, OnOk, IsErrOf, IsTrue};
ghost use Rattle.std.specs.Char.{is_ascii_digit};
ghost use Rattle.nl_io.specs.Causes.{Rose};
ghost use Rattle.nl_base.specs.Faults.{OnText};
ghost use Rattle.edif_values.specs.Proper.{IsProper};
ghost use Rattle.edif_tokens.specs.Strings.{Codes, Within, Parts, Escape, Code};
ghost use Rattle.edif_tokens.specs.Scan.{ReadsPart, Reads};
ghost use Rattle.edif_tokens.specs.Spelling.{string_spelled};

use crate::scan::refuse;
use crate::token::Found;
use edif_values::Token;
use nl_base::{Place, ReadError, Reason, Text};
use nl_bytes::bytes::LIMIT;
use nl_bytes::{Bytes, Class, Halt};
use nl_io::Source;
use std::alloc::Global;

/// Reads the further digits of a code that has a value so far. It answers no value where the next digit takes it above 255.
pub fn code<S: Source>(bytes: &mut Bytes, begun: u8, source: &mut S) -> Result<Option<u8>, Halt>
    ensures codes { Codes begun bytes.old bytes.new
        (S.supply source.old).left (S.supply source.new).left result }
    ensures count { (S.supply source.old).faults ≤ (S.supply source.new).faults }
    ensures cause { IsErrOf result Halt.Failed
        → Rose (S.supply source.old).faults (S.supply source.new).faults }
{
    let mut code = begun;
    loop {
        let next = bytes.peek(source)?;
        let Some(b) = next else {
            return Ok(Some(code));
        };
        if !b.is_ascii_digit() {
            return Ok(Some(code));
        }
        let value = 10 * u16::from(code) + u16::from(b - 48);
        if value > 255 {
            return Ok(None);
        }
        bytes.advance();
        code = value as u8;
    }
}

/// How many bytes a string may have by value.
const MOST: usize = 1_048_576;

/// Reads on in a code of the escape whose `%` stands at `start`, and adds its value.
fn add_code<S: Source>(
    bytes: &mut Bytes,
    place: Place,
    start: Place,
    begun: u8,
    value: &mut Vec<u8>,
    source: &mut S,
) -> Result<(), ReadError>
    ensures reads { ReadsPart (λ s. Code s begun)
        (λ s. Escape s true) place start bytes.old bytes.new
        (S.supply source.old).left
        (S.supply source.new).left value.old.items value.new.items result }
    ensures count { (S.supply source.old).faults ≤ (S.supply source.new).faults }
    ensures cause { IsErrOf result ReadError.ReadFault
        → Rose (S.supply source.old).faults (S.supply source.new).faults }
    ensures never_spent { IsErrOf result ReadError.Spent → ⊥ }
    ensures bounded { OnText result (λ t. bytes.new.place.offset ≤ t.stop) }
    ensures short { OnOk result (length value.new.items ≤ 1048576) }
{
    let code = code(bytes, begun, source)?;
    let here = bytes.place();
    let Some(code) = code else {
        return Err(refuse(start, here.offset + 1, Reason::BadEscape));
    };
    if value.len() >= MOST {
        return Err(refuse(place, here.offset, Reason::TokenTooLong));
    }
    value.push(code)?;
    Ok(())
}

/// Reads on in an escape, whose `%` stands at `start` and was used.
fn escape<S: Source>(
    bytes: &mut Bytes,
    place: Place,
    start: Place,
    value: &mut Vec<u8>,
    source: &mut S,
) -> Result<(), ReadError>
    requires { length value.old.items ≤ 1048576 }
    ensures reads { ReadsPart (λ s. Escape s false) (λ s. Parts) place start bytes.old bytes.new
        (S.supply source.old).left
        (S.supply source.new).left value.old.items value.new.items result }
    ensures count { (S.supply source.old).faults ≤ (S.supply source.new).faults }
    ensures cause { IsErrOf result ReadError.ReadFault
        → Rose (S.supply source.old).faults (S.supply source.new).faults }
    ensures never_spent { IsErrOf result ReadError.Spent → ⊥ }
    ensures bounded { OnText result (λ t. bytes.new.place.offset ≤ t.stop) }
    ensures short { OnOk result (length value.new.items ≤ 1048576) }
{
    let mut coded = false;
    loop {
        let next = bytes.skip(Class::Space, source)?;
        let here = bytes.place();
        let Some(b) = next else {
            return Err(refuse(here, here.offset, Reason::EndOfInput));
        };
        if b.is_ascii_digit() {
            bytes.advance();
            add_code(bytes, place, start, b - 48, value, source)?;
            coded = true;
        } else if coded && b == b'%' {
            bytes.advance();
            return Ok(());
        } else {
            return Err(refuse(start, here.offset + 1, Reason::BadEscape));
        }
    }
}

/// Reads the parts of a string, whose first quote was used. The quote that ends it is ahead then.
fn parts<S: Source>(
    bytes: &mut Bytes,
    place: Place,
    value: &mut Vec<u8>,
    source: &mut S,
) -> Result<(), ReadError>
    requires { length value.old.items ≤ 1048576 }
    ensures reads { ReadsPart (λ s. Parts) (λ s. Parts) place place bytes.old bytes.new
        (S.supply source.old).left
        (S.supply source.new).left value.old.items value.new.items result }
    ensures quote { OnOk result ((rest : List ℕ) × (bytes.new.held ≡ 34 ∷ rest)) }
    ensures within { OnOk result (bytes.new.place.offset ≤ LIMIT) }
    ensures count { (S.supply source.old).faults ≤ (S.supply source.new).faults }
    ensures cause { IsErrOf result ReadError.ReadFault
        → Rose (S.supply source.old).faults (S.supply source.new).faults }
    ensures never_spent { IsErrOf result ReadError.Spent → ⊥ }
    ensures bounded { OnText result (λ t. bytes.new.place.offset ≤ t.stop) }
    ensures short { OnOk result (length value.new.items ≤ 1048576) }
{
    'parts: loop {
        let most = MOST.saturating_sub(value.len());
        let next = bytes.run(Class::StringByte, most, value, source)?;
        let here = bytes.place();
        let Some(b) = next else {
            return Err(refuse(here, here.offset, Reason::EndOfInput));
        };
        if b == b'"' {
            return Ok(());
        }
        if b != b'%' {
            if Class::StringByte.contains(b) {
                return Err(refuse(place, here.offset + 1, Reason::TokenTooLong));
            }
            return Err(refuse(here, here.offset + 1, Reason::BadByte));
        }
        bytes.advance();
        escape(bytes, place, here, value, source)?;
    }
}

/// Each byte is below 256.
#[inline(always)]
fn each_is_byte(bytes: &[u8])
    ensures { All (λ b. b < 256) bytes.now }
{
    let _first = bytes.first();
}

/// The string that a text is.
#[inline(always)]
pub fn string_of(text: Text) -> Token
    requires { length text ≤ 1048576 }
    ensures token { result ≡ Token.Str text }
    ensures proper { IsProper result }
{
    each_is_byte(text.bytes());
    Token::Str(text)
}

/// Reads a string, whose first quote is ahead.
#[inline(never)]
pub fn string<S: Source>(
    bytes: &mut Bytes,
    alloc: Global,
    place: Place,
    source: &mut S,
) -> Result<Found, ReadError>
    requires ahead { (rest : List ℕ) × (bytes.old.held ≡ 34 ∷ rest) }
    requires begins { place ≡ bytes.old.place }
    requires within { place.offset ≤ LIMIT }
    ensures reads { Reads string_spelled place bytes.old bytes.new
        (S.supply source.old).left (S.supply source.new).left result }
    ensures count { (S.supply source.old).faults ≤ (S.supply source.new).faults }
    ensures cause { IsErrOf result ReadError.ReadFault
        → Rose (S.supply source.old).faults (S.supply source.new).faults }
    ensures never_spent { IsErrOf result ReadError.Spent → ⊥ }
    ensures bounded { OnText result (λ t. bytes.new.place.offset ≤ t.stop) }
    ensures ended { IfOk result (λ f. bytes.new.place.offset ≤ f.stop) }
    ensures proper { IfOk result (λ f. IsProper f.token) }
{
    bytes.advance();
    let mut value = Vec::new(alloc);
    parts(bytes, place, &mut value, source)?;
    let here = bytes.place();
    bytes.advance();
    let text = Text::of(alloc, value)?;
    Ok(Found {
        place,
        stop: here.offset + 1,
        token: string_of(text),
    })
}
