ghost use Rattle.std.specs.Prelude.{◌≡◌, ◌+◌, ◌<◌, ◌≤◌, ◌∷◌, ℕ, List, Option, IfOk, IfSome, OnOk, IsErrOf};
ghost use Rattle.nl_io.specs.Causes.{Rose};
ghost use Rattle.nl_base.specs.Faults.{OnText};
ghost use Rattle.vlog_tokens.specs.Parts.{Reads};
ghost use Rattle.vlog_tokens.specs.Proper.{IsProper, IsProperItem};
ghost use Rattle.vlog_tokens.specs.Spelling.{item_by, start_of};
ghost use Rattle.nl_bytes.specs.Tokens.{Finds};
ghost use Rattle.vlog_tokens.specs.Finding.{Passed, found_or_late};
ghost use Rattle.vlog_tokens.specs.Language.{vlog};

use crate::ahead::is_near;
use crate::item::{Item, Spot};
use crate::lexeme::lexeme;
use crate::mark::{PairStart, mark, pair, slash};
use crate::scan::refuse;
use crate::start::{Start, begins_name, start_of};
use crate::string::string;
use crate::token::{VFound, VToken};
use crate::whole::{
    escaped_length, held_escaped, held_number, held_pair, held_string, held_word, is_pair,
    number_length, quoted_length, word_length,
};
use nl_base::{Place, ReadError, Reason};
use nl_bytes::bytes::LIMIT;
use nl_bytes::{Bytes, Class, Halt};
use nl_io::Source;
use std::alloc::Global;

/// Reads what begins with the byte ahead.
fn item<S: Source>(
    bytes: &mut Bytes,
    alloc: Global,
    byte: u8,
    source: &mut S,
) -> Result<Spot, ReadError>
    requires ahead { (tail : List ℕ) × (bytes.old.held ≡ byte ∷ tail) }
    requires within { bytes.old.place.offset ≤ LIMIT }
    ensures reads { Reads (item_by (start_of byte) byte) bytes.old bytes.new
        (S.supply source.old).left (S.supply source.new).left result }
    ensures proper { IfOk result (λ x. IsProperItem x.item) }
    ensures count { (S.supply source.old).faults ≤ (S.supply source.new).faults }
    ensures cause { IsErrOf result ReadError.ReadFault
        → Rose (S.supply source.old).faults (S.supply source.new).faults }
    ensures never_spent { IsErrOf result ReadError.Spent → ⊥ }
    ensures bounded { OnText result (λ t. bytes.new.place.offset ≤ t.stop) }
    ensures ended { IfOk result (λ x. bytes.new.place.offset ≤ x.stop) }
{
    match start_of(byte) {
        Start::White => Ok(mark(bytes, Item::Blank, source)),
        Start::Lexeme(begins) => lexeme(bytes, alloc, begins, byte, source),
        Start::Quote => string(bytes, alloc, source),
        Start::Open => pair(bytes, PairStart::Open, source),
        Start::Star => pair(bytes, PairStart::Star, source),
        Start::Slash => slash(bytes, source),
        Start::Mark => Ok(mark(bytes, Item::Token(VToken::Punct(byte)), source)),
        Start::Sign => Ok(mark(bytes, Item::Token(VToken::Symbol(byte)), source)),
        Start::Other => {
            let place = bytes.place();
            Err(refuse(place, place.offset + 1, Reason::BadByte))
        }
    }
}

/// The token of an item, or nothing where it is white space, of which the rest is used.
fn token_of<S: Source>(
    bytes: &mut Bytes,
    item: Item,
    source: &mut S,
) -> Result<Option<VToken>, Halt>
    ensures passed { Passed item bytes.old bytes.new
        (S.supply source.old).left (S.supply source.new).left result }
    ensures count { (S.supply source.old).faults ≤ (S.supply source.new).faults }
    ensures cause { IsErrOf result Halt.Failed
        → Rose (S.supply source.old).faults (S.supply source.new).faults }
{
    match item {
        Item::Blank => Ok(None),
        Item::Line => {
            let _next = bytes.skip(Class::LineByte, source)?;
            Ok(None)
        }
        Item::Token(token) => Ok(Some(token)),
    }
}

/// A token whose stop is within the limit of an input.
fn found_or_late(place: Place, stop: u64, token: VToken) -> Result<Option<VFound>, ReadError>
    ensures { result ≡ found_or_late place stop token }
{
    if LIMIT < stop {
        return Err(ReadError::TooLong);
    }
    Ok(Some(VFound { place, stop, token }))
}

/// Reads the next token from any pieces.
#[inline(never)]
fn pieced<S: Source>(
    bytes: &mut Bytes,
    alloc: Global,
    source: &mut S,
) -> Result<Option<VFound>, ReadError>
    ensures finds { Finds vlog bytes.old bytes.new
        (S.supply source.old).left (S.supply source.new).left result }
    ensures proper { IfOk result (λ x. IfSome x (λ x. IsProper x.token)) }
    ensures never_spent { IsErrOf result ReadError.Spent → ⊥ }
    ensures bounded { OnText result (λ t. bytes.new.place.offset ≤ t.stop) }
    ensures count { (S.supply source.old).faults ≤ (S.supply source.new).faults }
    ensures cause { IsErrOf result ReadError.ReadFault
        → Rose (S.supply source.old).faults (S.supply source.new).faults }
{
    'items: loop {
        let next = bytes.skip(Class::VerilogSpace, source)?;
        let Some(byte) = next else {
            return Ok(None);
        };
        let place = bytes.place();
        let spot = item(bytes, alloc, byte, source)?;
        let stop = spot.stop;
        let token = token_of(bytes, spot.item, source)?;
        if let Some(token) = token {
            let found = found_or_late(place, stop, token)?;
            return Ok(found);
        }
    }
}

/// Reads the next token.
#[inline(always)]
#[tactic(auto, using(crate::proofs::Held::name_begins, crate::proofs::Held::digit_begins))]
pub fn found<S: Source>(
    bytes: &mut Bytes,
    alloc: Global,
    source: &mut S,
) -> Result<Option<VFound>, ReadError>
    ensures finds { Finds vlog bytes.old bytes.new
        (S.supply source.old).left (S.supply source.new).left result }
    ensures proper { IfOk result (λ x. IfSome x (λ x. IsProper x.token)) }
    ensures never_spent { IsErrOf result ReadError.Spent → ⊥ }
    ensures bounded { OnText result (λ t. bytes.new.place.offset ≤ t.stop) }
    ensures count { (S.supply source.old).faults ≤ (S.supply source.new).faults }
    ensures cause { IsErrOf result ReadError.ReadFault
        → Rose (S.supply source.old).faults (S.supply source.new).faults }
{
    let next = bytes.skip(Class::VerilogSpace, source)?;
    let Some(byte) = next else {
        return Ok(None);
    };
    if !is_near(bytes) {
        return pieced(bytes, alloc, source);
    }
    if begins_name(byte) {
        let count = word_length(bytes.held());
        if count > 0 {
            return held_word(bytes, alloc, byte, count);
        }
    } else if byte.is_ascii_digit() {
        let count = number_length(bytes.held());
        if count > 0 {
            return held_number(bytes, byte, count);
        }
    } else if byte == b'\\' {
        let (_, name) = bytes.held().split_at(1);
        let count = escaped_length(name);
        if count > 0 {
            return held_escaped(bytes, alloc, count);
        }
    } else if byte == b'"' {
        let (_, rest) = bytes.held().split_at(1);
        if let Some(count) = quoted_length(rest) {
            return held_string(bytes, alloc, count);
        }
    } else if is_pair(bytes.held()) {
        return held_pair(bytes, byte);
    }
    pieced(bytes, alloc, source)
}
