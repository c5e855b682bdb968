ghost use Rattle.std.specs.Prelude.{◌≡◌, ◌≤◌, length, Some, IfOk};
ghost use Rattle.std.specs.List.{filter};
ghost use Rattle.vlog_tokens.specs.Items.{is_kept, word_item, number_item, real_item, is_signed, digits_of, has_value, based_item, directive_item, item_of};
ghost use Rattle.vlog_tokens.specs.Numbers.{number_of, real_of};

use crate::keyword::is_keyword;
use crate::number::{decimal_of, number_of, real_of};
use crate::phase::Phase;
use crate::token::VToken;
use nl_base::{NoMemory, Text};
use std::alloc::Global;
use vlog_values::{Base, Based};

/// What stands at a place of a text.
#[derive(Drop)]
pub enum Item {
    /// White space, a comment, or a directive that means nothing.
    Blank,
    /// The same, and the rest of the line with it.
    Line,
    Token(VToken),
}

/// What stands at a place, and the offset just past the byte that shows its end.
#[derive(Drop)]
pub struct Spot {
    pub item: Item,
    pub stop: u64,
}

/// A simple name or a keyword.
pub fn word_token(text: Text) -> VToken
    ensures { Item.Token result ≡ word_item text }
{
    if is_keyword(text.bytes()) {
        return VToken::Keyword(text);
    }
    VToken::Name(text)
}

fn word_item(alloc: Global, text: Vec<u8>) -> Result<Option<Item>, NoMemory>
    ensures { IfOk result (λ item. item ≡ Some (word_item text.items)) }
{
    let text = Text::of(alloc, text)?;
    Ok(Some(Item::Token(word_token(text))))
}

/// The name that an escaped name is.
fn escaped_item(alloc: Global, text: Vec<u8>) -> Result<Option<Item>, NoMemory>
    ensures { IfOk result (λ item. item ≡ Some (Item.Token (VToken.Name text.items))) }
{
    let text = Text::of(alloc, text)?;
    Ok(Some(Item::Token(VToken::Name(text))))
}

fn number_item(text: &[u8]) -> Option<Item>
    ensures { result ≡ number_item (number_of text.now) }
{
    match number_of(text) {
        Some(number) => Some(Item::Token(VToken::Number(number))),
        None => None,
    }
}

fn real_item(text: &[u8]) -> Option<Item>
    ensures { result ≡ real_item (real_of text.now) }
{
    match real_of(text) {
        Some(real) => Some(Item::Token(VToken::Real(real))),
        None => None,
    }
}

/// Whether `s` stands after the `'` of a based literal.
fn is_signed(text: &[u8]) -> bool
    ensures { result ≡ is_signed text.now }
{
    match text {
        [_, b, ..] => *b == b's' || *b == b'S',
        _ => false,
    }
}

/// The bytes without each `_`.
fn kept(alloc: Global, bytes: &[u8]) -> Result<Vec<u8>, NoMemory>
    ensures { IfOk result (λ digits. digits.items ≡ filter is_kept bytes.now) }
{
    let mut digits = Vec::new(alloc);
    for b in bytes {
        if *b != b'_' {
            digits.push(*b)?;
        }
    }
    Ok(digits)
}

/// The digits of a based literal, behind the letter of its base.
fn digits_of(alloc: Global, text: &[u8], signed: bool) -> Result<Vec<u8>, NoMemory>
    requires { signed ≡ is_signed text.now }
    ensures { IfOk result (λ digits. digits.items ≡ digits_of text.now) }
{
    let start = if signed { 3 } else { 2 };
    let (_, digits) = text.split_at(text.len().min(start));
    let digits = kept(alloc, digits)?;
    Ok(digits)
}

/// Whether digits of a base have a value that is read: a decimal's is below 2^128.
#[inline]
pub(crate) fn has_value(base: Base, digits: &[u8]) -> bool
    ensures { result ≡ has_value base digits.now }
{
    match base {
        Base::Binary => true,
        Base::Octal => true,
        Base::Decimal => decimal_of(digits).is_some(),
        Base::Hex => true,
    }
}

fn based_item(alloc: Global, base: Base, text: &[u8]) -> Result<Option<Item>, NoMemory>
    ensures { IfOk result (λ item. item ≡ based_item base text.now (digits_of text.now)) }
{
    let signed = is_signed(text);
    let digits = digits_of(alloc, text, signed)?;
    if !has_value(base, digits.as_slice()) {
        return Ok(None);
    }
    let digits = Text::of(alloc, digits)?;
    Ok(Some(Item::Token(VToken::Based(Based {
        signed,
        base,
        digits,
    }))))
}

/// A directive, or the white space that it is.
fn directive_item(alloc: Global, text: Vec<u8>) -> Result<Option<Item>, NoMemory>
    ensures { IfOk result (λ item. item ≡ Some (directive_item text.items)) }
{
    if text.as_slice() == b"`timescale".as_slice() {
        return Ok(Some(Item::Line));
    }
    if text.as_slice() == b"`celldefine".as_slice()
        || text.as_slice() == b"`endcelldefine".as_slice()
    {
        return Ok(Some(Item::Blank));
    }
    let text = Text::of(alloc, text)?;
    Ok(Some(Item::Token(VToken::Directive(text))))
}

/// What the bytes of a token are; none where a number is too large.
#[tactic(auto, unfolding(crate::specs::Items::item_of))]
pub fn item_of(alloc: Global, phase: Phase, text: Vec<u8>) -> Result<Option<Item>, NoMemory>
    ensures { IfOk result (λ item. item ≡ item_of phase text.items) }
{
    match phase {
        Phase::Word => word_item(alloc, text),
        Phase::Escaped => escaped_item(alloc, text),
        Phase::Whole => Ok(number_item(text.as_slice())),
        Phase::Fraction => Ok(real_item(text.as_slice())),
        Phase::Exponent => Ok(real_item(text.as_slice())),
        Phase::Digits(base) => based_item(alloc, base, text.as_slice()),
        Phase::Unknown => based_item(alloc, Base::Decimal, text.as_slice()),
        Phase::Directive => directive_item(alloc, text),
        _ => Ok(None),
    }
}
