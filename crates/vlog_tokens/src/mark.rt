ghost use Rattle.std.specs.Prelude.{◌≡◌, ◌+◌, ◌<◌, ◌≤◌, ◌∷◌, [], ℕ, false, drop, List, Option, IfOk, OnOk, IsErrOf};
ghost use Rattle.nl_io.specs.Causes.{Rose};
ghost use Rattle.nl_base.specs.Faults.{OnText};
ghost use Rattle.nl_base.specs.declared.place.Place as specs;
ghost use Rattle.nl_bytes.specs.Bytes.{first};
ghost use Rattle.vlog_tokens.specs.Parts.{Part, Reads};
ghost use Rattle.vlog_tokens.specs.Proper.{IsProperItem};
ghost use Rattle.vlog_tokens.specs.Spelling.{alone, comment_at, blank_now, both_of, is_slash, pair_by, second_of, single_of, slash_by};

use crate::item::{Item, Spot};
use crate::scan::refuse;
use crate::token::VToken;
use nl_base::{Place, ReadError, Reason};
use nl_bytes::bytes::LIMIT;
use nl_bytes::{Bytes, Class};
use nl_io::Source;

/// Uses the byte ahead, which is an item.
pub fn mark<S: Source>(bytes: &mut Bytes, item: Item, source: &S) -> Spot
    requires ahead { (byte : ℕ) × (tail : List ℕ) × (bytes.old.held ≡ byte ∷ tail) }
    requires within { bytes.old.place.offset ≤ LIMIT }
    ensures reads { Reads (λ _. alone item) bytes.old bytes.new (S.supply source.now).left
        (S.supply source.now).left (Ok result) }
    ensures item { result.item ≡ item }
    ensures ended { bytes.new.place.offset ≤ result.stop }
{
    let place = bytes.place();
    bytes.advance();
    Spot {
        item,
        stop: place.offset + 1,
    }
}

/// A byte that is a token of two bytes where a second byte follows, and another token where none does.
#[derive(Clone, Copy)]
pub enum PairStart {
    /// `(`, and `(*`
    Open,
    /// `*`, and `*)`
    Star,
}

impl PairStart {
    /// The second byte.
    fn second(self) -> u8
        ensures { result ≡ second_of self }
    {
        match self {
            PairStart::Open => b'*',
            PairStart::Star => b')',
        }
    }

    /// What both bytes are.
    fn both(self) -> Item
        ensures { result ≡ both_of self }
    {
        match self {
            PairStart::Open => Item::Token(VToken::AttrStart),
            PairStart::Star => Item::Token(VToken::AttrStop),
        }
    }

    /// What the first byte is alone.
    fn single(self) -> Item
        ensures { result ≡ single_of self }
    {
        match self {
            PairStart::Open => Item::Token(VToken::Punct(b'(')),
            PairStart::Star => Item::Token(VToken::Symbol(b'*')),
        }
    }
}

/// Reads a byte ahead that has a second byte, or the byte alone.
pub fn pair<S: Source>(
    bytes: &mut Bytes,
    pair_start: PairStart,
    source: &mut S,
) -> Result<Spot, ReadError>
    requires ahead { (byte : ℕ) × (tail : List ℕ) × (bytes.old.held ≡ byte ∷ tail) }
    requires within { bytes.old.place.offset ≤ LIMIT }
    ensures reads { Reads (λ bs. pair_by (second_of pair_start) (both_of pair_start)
        (single_of pair_start) (first (drop 1 bs))) bytes.old bytes.new
        (S.supply source.old).left (S.supply source.new).left result }
    ensures proper { IfOk result (λ x. IsProperItem x.item) }
    ensures count { (S.supply source.old).faults ≤ (S.supply source.new).faults }
    ensures cause { IsErrOf result ReadError.ReadFault
        → Rose (S.supply source.old).faults (S.supply source.new).faults }
    ensures never_spent { IsErrOf result ReadError.Spent → ⊥ }
    ensures bounded { OnText result (λ t. bytes.new.place.offset ≤ t.stop) }
    ensures ended { IfOk result (λ x. bytes.new.place.offset ≤ x.stop) }
{
    let place = bytes.place();
    bytes.advance();
    let next = bytes.peek(source)?;
    let Some(byte) = next else {
        return Ok(Spot {
            item: pair_start.single(),
            stop: place.offset + 1,
        });
    };
    if byte != pair_start.second() {
        return Ok(Spot {
            item: pair_start.single(),
            stop: place.offset + 2,
        });
    }
    bytes.advance();
    Ok(Spot {
        item: pair_start.both(),
        stop: place.offset + 2,
    })
}

fn is_slash(next: Option<u8>) -> bool
    ensures { result ≡ is_slash next }
{
    match next {
        Some(b) => b == b'/',
        None => false,
    }
}

/// Reads a block comment, whose first two bytes were used.
fn comment<S: Source>(bytes: &mut Bytes, source: &mut S) -> Result<(), ReadError>
    ensures part { (p : specs.Place)
        → Part (comment_at false) (λ _. blank_now) p bytes.old bytes.new
        (S.supply source.old).left (S.supply source.new).left result }
    ensures count { (S.supply source.old).faults ≤ (S.supply source.new).faults }
    ensures cause { IsErrOf result ReadError.ReadFault
        → Rose (S.supply source.old).faults (S.supply source.new).faults }
    ensures never_spent { IsErrOf result ReadError.Spent → ⊥ }
    ensures bounded { OnText result (λ t. bytes.new.place.offset ≤ t.stop) }
{
    'comment: loop {
        let next = bytes.skip(Class::CommentByte, source)?;
        let here = bytes.place();
        let Some(_star) = next else {
            return Err(refuse(here, here.offset, Reason::EndOfInput));
        };
        bytes.advance();
        let after = bytes.peek(source)?;
        if is_slash(after) {
            bytes.advance();
            return Ok(());
        }
    }
}

/// Reads a comment or the symbol `/`, which is ahead.
pub fn slash<S: Source>(bytes: &mut Bytes, source: &mut S) -> Result<Spot, ReadError>
    requires ahead { (byte : ℕ) × (tail : List ℕ) × (bytes.old.held ≡ byte ∷ tail) }
    requires within { bytes.old.place.offset ≤ LIMIT }
    ensures reads { Reads (λ bs. slash_by (first (drop 1 bs)) (drop 2 bs)) bytes.old bytes.new
        (S.supply source.old).left (S.supply source.new).left result }
    ensures proper { IfOk result (λ x. IsProperItem x.item) }
    ensures count { (S.supply source.old).faults ≤ (S.supply source.new).faults }
    ensures cause { IsErrOf result ReadError.ReadFault
        → Rose (S.supply source.old).faults (S.supply source.new).faults }
    ensures never_spent { IsErrOf result ReadError.Spent → ⊥ }
    ensures bounded { OnText result (λ t. bytes.new.place.offset ≤ t.stop) }
    ensures ended { IfOk result (λ x. bytes.new.place.offset ≤ x.stop) }
{
    let place = bytes.place();
    bytes.advance();
    let next = bytes.peek(source)?;
    let Some(byte) = next else {
        return Ok(Spot {
            item: Item::Token(VToken::Symbol(b'/')),
            stop: place.offset + 1,
        });
    };
    if byte == b'/' {
        bytes.advance();
        return Ok(Spot {
            item: Item::Line,
            stop: place.offset + 2,
        });
    }
    if byte != b'*' {
        return Ok(Spot {
            item: Item::Token(VToken::Symbol(b'/')),
            stop: place.offset + 2,
        });
    }
    bytes.advance();
    comment(bytes, source)?;
    Ok(Spot {
        item: Item::Blank,
        stop: bytes.place().offset,
    })
}
