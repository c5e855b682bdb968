ghost use Rattle.std.specs.Prelude.{◌≡◌, ◌+◌, ◌<◌, ◌≤◌, ◌^◌, ◌∷◌, [], ℕ, true, List, length, Some, None, Option, IfOk, IfSome, IsNone, false, IsErrOf, Ok, Err};
ghost use Rattle.nl_io.specs.Causes.{Rose};
ghost use Rattle.nl_base.specs.Faults.{OnText};
ghost use Rattle.edif_values.specs.Proper.{IsProper};
ghost use Rattle.nl_bytes.specs.Classes.{in_class};
ghost use Rattle.nl_bytes.specs.Bytes.{Uses};
ghost use Rattle.nl_base.specs.Place.{place_past};
ghost use Rattle.edif_tokens.specs.Scan.{Begins, ReadsText, Reads};
ghost use Rattle.edif_tokens.specs.Spelling.{word_spelled, number_spelled, token_by, start_of, begins_word};
ghost use Rattle.nl_base.specs.Identifiers.{is_identifier};
ghost use Rattle.edif_tokens.specs.Scan.{number_found};

use crate::scan::{Start, integer_of, refuse, span, start_of};
use crate::string::string;
use crate::token::Found;
use crate::whole::{held_length, held_number, held_quoted, held_string, held_word, mark};
use edif_values::Token;
use nl_base::{Ident, Place, ReadError, Reason, Text};
use nl_bytes::bytes::LIMIT;
use nl_bytes::{Bytes, Class};
use nl_io::Source;
use std::alloc::Global;

/// Uses the byte ahead, which begins a text. With `lead` a byte of the class has to follow it, and is used too.
fn begin<S: Source>(
    bytes: &mut Bytes,
    class: Class,
    lead: bool,
    byte: u8,
    place: Place,
    text: &mut Vec<u8>,
    source: &mut S,
) -> Result<(), ReadError>
    requires ahead { (rest : List ℕ) × (bytes.old.held ≡ byte ∷ rest) }
    requires begins { place ≡ bytes.old.place }
    requires within { place.offset ≤ LIMIT }
    requires empty { text.old.items ≡ [] }
    ensures begins { Begins class lead byte place bytes.old bytes.new
        (S.supply source.old).left (S.supply source.new).left text.new.items result }
    ensures count { (S.supply source.old).faults ≤ (S.supply source.new).faults }
    ensures cause { IsErrOf result ReadError.ReadFault
        → Rose (S.supply source.old).faults (S.supply source.new).faults }
    ensures never_spent { IsErrOf result ReadError.Spent → ⊥ }
    ensures bounded { OnText result (λ t. bytes.new.place.offset ≤ t.stop) }
{
    text.push(byte)?;
    bytes.advance();
    if !lead {
        return Ok(());
    }
    let next = bytes.peek(source)?;
    let here = bytes.place();
    let Some(b) = next else {
        return Err(refuse(here, here.offset, Reason::EndOfInput));
    };
    if !class.contains(b) {
        return Err(refuse(here, here.offset + 1, Reason::BadByte));
    }
    text.push(b)?;
    bytes.advance();
    Ok(())
}

/// A text of one class, and its stop.
#[derive(Drop)]
struct Spanned {
    text: Text,
    stop: u64,
}

/// Reads a word's or an integer's text, whose first byte is ahead, from any pieces.
#[inline(never)]
fn pieced_text<S: Source>(
    bytes: &mut Bytes,
    alloc: Global,
    class: Class,
    lead: bool,
    byte: u8,
    place: Place,
    source: &mut S,
) -> Result<Spanned, ReadError>
    requires ahead { (rest : List ℕ) × (bytes.old.held ≡ byte ∷ rest) }
    requires begins { place ≡ bytes.old.place }
    requires within { place.offset ≤ LIMIT }
    ensures text { ReadsText class lead place bytes.old bytes.new
        (S.supply source.old).left (S.supply source.new).left result }
    ensures count { (S.supply source.old).faults ≤ (S.supply source.new).faults }
    ensures cause { IsErrOf result ReadError.ReadFault
        → Rose (S.supply source.old).faults (S.supply source.new).faults }
    ensures never_spent { IsErrOf result ReadError.Spent → ⊥ }
    ensures bounded { OnText result (λ t. bytes.new.place.offset ≤ t.stop) }
    ensures ended { IfOk result (λ x. bytes.new.place.offset ≤ x.stop) }
{
    let mut text = Vec::new(alloc);
    begin(bytes, class, lead, byte, place, &mut text, source)?;
    let stop = span(bytes, class, place, &mut text, source)?;
    let text = Text::of(alloc, text)?;
    Ok(Spanned { text, stop })
}

/// The word that a text is.
#[inline(always)]
pub fn word_of(text: Text) -> Token
    requires spelled { is_identifier text ≡ true }
    requires short { length text ≤ 1024 }
    ensures token { result ≡ Token.Word text }
    ensures proper { IsProper result }
{
    Token::Word(Ident::of(text))
}

/// Reads a word from any pieces.
#[inline(never)]
fn pieced_word<S: Source>(
    bytes: &mut Bytes,
    alloc: Global,
    lead: bool,
    byte: u8,
    source: &mut S,
) -> Result<Found, ReadError>
    requires ahead { (rest : List ℕ) × (bytes.old.held ≡ byte ∷ rest) }
    requires begins { begins_word lead byte ≡ true }
    requires within { bytes.old.place.offset ≤ LIMIT }
    ensures reads { Reads (word_spelled lead) bytes.old.place bytes.old bytes.new
        (S.supply source.old).left (S.supply source.new).left result }
    ensures count { (S.supply source.old).faults ≤ (S.supply source.new).faults }
    ensures cause { IsErrOf result ReadError.ReadFault
        → Rose (S.supply source.old).faults (S.supply source.new).faults }
    ensures never_spent { IsErrOf result ReadError.Spent → ⊥ }
    ensures bounded { OnText result (λ t. bytes.new.place.offset ≤ t.stop) }
    ensures ended { IfOk result (λ f. bytes.new.place.offset ≤ f.stop) }
    ensures proper { IfOk result (λ f. IsProper f.token) }
{
    let place = bytes.place();
    let Spanned { text, stop } = pieced_text(
        bytes,
        alloc,
        Class::WordByte,
        lead,
        byte,
        place,
        source,
    )?;
    Ok(Found {
        place,
        stop,
        token: word_of(text),
    })
}

/// The number that digits are, or that they are out of range.
pub fn number_found(place: Place, stop: u64, digits: &[u8]) -> Result<Found, ReadError>
    ensures found { result ≡ number_found place stop digits.now }
    ensures proper { IfOk result (λ f. IsProper f.token) }
{
    match integer_of(digits) {
        None => Err(refuse(place, stop, Reason::NumberRange)),
        Some(n) => Ok(Found {
            place,
            stop,
            token: Token::Number(n),
        }),
    }
}

/// Reads an integer from any pieces.
#[inline(never)]
fn pieced_number<S: Source>(
    bytes: &mut Bytes,
    alloc: Global,
    lead: bool,
    byte: u8,
    place: Place,
    source: &mut S,
) -> Result<Found, ReadError>
    requires ahead { (rest : List ℕ) × (bytes.old.held ≡ byte ∷ rest) }
    requires begins { place ≡ bytes.old.place }
    requires within { place.offset ≤ LIMIT }
    ensures reads { Reads (number_spelled lead) place bytes.old bytes.new
        (S.supply source.old).left (S.supply source.new).left result }
    ensures count { (S.supply source.old).faults ≤ (S.supply source.new).faults }
    ensures cause { IsErrOf result ReadError.ReadFault
        → Rose (S.supply source.old).faults (S.supply source.new).faults }
    ensures never_spent { IsErrOf result ReadError.Spent → ⊥ }
    ensures bounded { OnText result (λ t. bytes.new.place.offset ≤ t.stop) }
    ensures ended { IfOk result (λ f. bytes.new.place.offset ≤ f.stop) }
    ensures proper { IfOk result (λ f. IsProper f.token) }
{
    let Spanned { text, stop } = pieced_text(
        bytes,
        alloc,
        Class::Digit,
        lead,
        byte,
        place,
        source,
    )?;
    number_found(place, stop, text.bytes())
}

/// Reads the token that begins with the byte ahead, from any pieces.
#[inline(never)]
fn pieced_token<S: Source>(
    bytes: &mut Bytes,
    alloc: Global,
    byte: u8,
    source: &mut S,
) -> Result<Found, ReadError>
    requires ahead { (rest : List ℕ) × (bytes.old.held ≡ byte ∷ rest) }
    requires within { bytes.old.place.offset ≤ LIMIT }
    ensures reads { Reads (token_by (start_of byte)) bytes.old.place bytes.old bytes.new
        (S.supply source.old).left (S.supply source.new).left result }
    ensures count { (S.supply source.old).faults ≤ (S.supply source.new).faults }
    ensures cause { IsErrOf result ReadError.ReadFault
        → Rose (S.supply source.old).faults (S.supply source.new).faults }
    ensures never_spent { IsErrOf result ReadError.Spent → ⊥ }
    ensures bounded { OnText result (λ t. bytes.new.place.offset ≤ t.stop) }
    ensures ended { IfOk result (λ f. bytes.new.place.offset ≤ f.stop) }
    ensures proper { IfOk result (λ f. IsProper f.token) }
{
    match start_of(byte) {
        Start::Open => Ok(mark(bytes, byte, Token::LeftParen, source)),
        Start::Close => Ok(mark(bytes, byte, Token::RightParen, source)),
        Start::Letter => pieced_word(bytes, alloc, false, byte, source),
        Start::Ampersand => pieced_word(bytes, alloc, true, byte, source),
        Start::Digit => {
            let place = bytes.place();
            pieced_number(bytes, alloc, false, byte, place, source)
        },
        Start::Sign => {
            let place = bytes.place();
            pieced_number(bytes, alloc, true, byte, place, source)
        },
        Start::Quote => {
            let place = bytes.place();
            string(bytes, alloc, place, source)
        },
        Start::Other => {
            let place = bytes.place();
            Err(refuse(place, place.offset + 1, Reason::BadByte))
        }
    }
}

/// Reads the token that begins with the byte ahead.
#[inline(never)]
pub fn token<S: Source>(
    bytes: &mut Bytes,
    alloc: Global,
    byte: u8,
    source: &mut S,
) -> Result<Found, ReadError>
    requires ahead { (rest : List ℕ) × (bytes.old.held ≡ byte ∷ rest) }
    requires within { bytes.old.place.offset ≤ LIMIT }
    ensures reads { Reads (token_by (start_of byte)) bytes.old.place bytes.old bytes.new
        (S.supply source.old).left (S.supply source.new).left result }
    ensures count { (S.supply source.old).faults ≤ (S.supply source.new).faults }
    ensures cause { IsErrOf result ReadError.ReadFault
        → Rose (S.supply source.old).faults (S.supply source.new).faults }
    ensures never_spent { IsErrOf result ReadError.Spent → ⊥ }
    ensures bounded { OnText result (λ t. bytes.new.place.offset ≤ t.stop) }
    ensures limit { IfOk result (λ f. f.stop ≤ LIMIT) }
    ensures ended { IfOk result (λ f. bytes.new.place.offset ≤ f.stop) }
    ensures proper { IfOk result (λ f. IsProper f.token) }
{
    if byte == b'"' {
        let count = held_quoted(bytes);
        if count > 0 {
            return held_string(bytes, alloc, count, source);
        }
    } else if byte.is_ascii_alphabetic() {
        let count = held_length(bytes, Class::WordByte);
        if count > 0 {
            return held_word(bytes, alloc, count, byte, source);
        }
    } else if byte.is_ascii_digit() {
        let count = held_length(bytes, Class::Digit);
        if count > 0 {
            return held_number(bytes, count, byte, source);
        }
    }
    let found = pieced_token(bytes, alloc, byte, source)?;
    if LIMIT < found.stop {
        Err(ReadError::TooLong)
    } else {
        Ok(found)
    }
}
