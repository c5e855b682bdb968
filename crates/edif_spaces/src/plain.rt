// Identifiers for few names of which none begins with the stem.
ghost use Rattle.std.specs.Prelude.{◌≡◌, ℕ, ◌+◌, ◌<◌, ◌≤◌, ◌^◌, List, false, true, length, map, IfOk};
ghost use Rattle.std.specs.List.{list_any};
ghost use Rattle.net_bits.specs.Names.{numbered as numbered_name};
ghost use Rattle.edif_meanings.specs.Apart.{is_alike_any};
ghost use Rattle.edif_spaces.specs.Plain.{IsPlain, IsPlainStep, has_stem as has_stem_text, is_own_behind};
ghost use Rattle.edif_spaces.specs.Spaces.{AreIdents, can_be_own as can_be_own_text, stem as stem_text};

use crate::space::can_be_own;
use net_bits::Word;
use nl_base::{Ident, NoMemory, Seq, Text, fold_eq, spell_u64};
use std::alloc::Global;

/// Whether a name begins with the stem, up to case.
pub fn has_stem(name: &[u8]) -> bool
    ensures { result ≡ has_stem_text name.now }
{
    match name {
        [] => false,
        [_] => false,
        [first, second, _rest @ ..] => {
            first.to_ascii_lowercase() == b'i' && second.to_ascii_lowercase() == b'd'
        }
    }
}

/// Whether one of the names begins with the stem, up to case.
pub(crate) fn have_stem(names: &[&[u8]]) -> bool
    ensures { result ≡ list_any has_stem_text (map (λ name. name.now) names.now) }
{
    for name in names {
        if has_stem(name) {
            return true;
        }
    }
    false
}

/// Whether one of the identifiers is alike the name up to case.
fn is_taken(name: &[u8], idents: &[Ident]) -> bool
    ensures { result ≡ is_alike_any name.now idents.now }
{
    for ident in idents {
        if fold_eq(name, ident.bytes()) {
            return true;
        }
    }
    false
}

/// Whether the name is its own identifier behind these.
fn is_own(name: &[u8], idents: &[Ident]) -> bool
    ensures { result ≡ is_own_behind idents.now name.now }
{
    can_be_own(name) && !is_taken(name, idents)
}

/// The digit of a number below 10.
#[inline]
fn digit_of(number: u64) -> u8
    requires { number < 10 }
    ensures { result ≡ 48 + number }
{
    b'0' + number as u8
}

/// The stem followed by a number of one digit.
#[inline]
fn one_digit(alloc: Global, number: u64) -> Result<Text, NoMemory>
    requires { number < 10 }
    ensures { IfOk result (λ text. text ≡ numbered_name stem_text number) }
{
    let ones = digit_of(number);
    let text = Text::copy(alloc, &[b'i', b'd', ones])?;
    Ok(text)
}

/// The stem followed by a number of two digits.
#[inline]
fn two_digits(alloc: Global, number: u64) -> Result<Text, NoMemory>
    requires more { 10 ≤ number }
    requires fewer { number < 100 }
    ensures { IfOk result (λ text. text ≡ numbered_name stem_text number) }
{
    let tens = digit_of(number / 10);
    let ones = digit_of(number % 10);
    let text = Text::copy(alloc, &[b'i', b'd', tens, ones])?;
    Ok(text)
}

/// The stem followed by a number of any digits.
#[inline(never)]
fn more_digits(alloc: Global, number: u64) -> Result<Text, NoMemory>
    ensures { IfOk result (λ text. text ≡ numbered_name stem_text number) }
{
    let mut digits = [0; 20];
    let len = spell_u64(number, &mut digits);
    let mut name = Word::empty();
    name.put(b"id");
    name.put(&digits[..len]);
    let text = name.text(alloc)?;
    Ok(text)
}

/// The stem followed by a number. Most numbers have one or two digits.
fn numbered_text(alloc: Global, number: u64) -> Result<Text, NoMemory>
    ensures { IfOk result (λ text. text ≡ numbered_name stem_text number) }
{
    if number < 10 {
        return one_digit(alloc, number);
    }
    if number < 100 {
        return two_digits(alloc, number);
    }
    more_digits(alloc, number)
}

/// The stem followed by a number, as an identifier.
fn numbered(alloc: Global, number: u64) -> Result<Ident, NoMemory>
    ensures { IfOk result (λ ident. ident ≡ numbered_name stem_text number) }
{
    let text = numbered_text(alloc, number)?;
    Ok(Ident::of(text))
}

/// The name itself as an identifier.
#[inline(always)]
fn own(alloc: Global, name: &[u8]) -> Result<Ident, NoMemory>
    requires { can_be_own_text name.now ≡ true }
    ensures { IfOk result (λ ident. ident ≡ name.now) }
{
    let text = Text::copy(alloc, name)?;
    Ok(Ident::of(text))
}

/// The name itself, and the number that is free as before.
#[inline(always)]
fn plain_own(alloc: Global, from: u64, name: &[u8]) -> Result<(Ident, u64), NoMemory>
    requires can { can_be_own_text name.now ≡ true }
    requires stem { has_stem_text name.now ≡ false }
    ensures { (idents : List (List ℕ)) → is_own_behind idents name.now ≡ true → IsPlain idents from
        → IfOk result (λ found. IsPlainStep idents from name.now found.0 found.1) }
{
    let ident = own(alloc, name)?;
    Ok((ident, from))
}

/// The stem and the number that is free, and the next number.
fn plain_made(alloc: Global, from: u64, name: &[u8]) -> Result<(Ident, u64), NoMemory>
    requires few { from < 2 ^ 32 }
    ensures { (idents : List (List ℕ)) → is_own_behind idents name.now ≡ false → IsPlain idents from
        → IfOk result (λ found. IsPlainStep idents from name.now found.0 found.1) }
{
    let ident = numbered(alloc, from)?;
    Ok((ident, from + 1))
}

/// The identifier of a name behind others of which none begins with the stem, and the least number that is free then; it is told whether the
/// name is its own identifier.
#[inline(always)]
pub fn plain_ident(
    alloc: Global,
    is_own: bool,
    from: u64,
    name: &[u8],
) -> Result<(Ident, u64), NoMemory>
    requires can { is_own ≡ true → can_be_own_text name.now ≡ true }
    requires stem { has_stem_text name.now ≡ false }
    requires few { from < 2 ^ 32 }
    ensures { (idents : List (List ℕ)) → is_own_behind idents name.now ≡ is_own
        → IsPlain idents from
        → IfOk result (λ found. IsPlainStep idents from name.now found.0 found.1) }
{
    if is_own {
        return plain_own(alloc, from, name);
    }
    plain_made(alloc, from, name)
}

/// Identifiers for few names of one name space, none of which begins with the stem.
pub(crate) fn plain_idents(alloc: Global, names: &[&[u8]]) -> Result<Seq<Ident>, NoMemory>
    requires stem { list_any has_stem_text (map (λ name. name.now) names.now) ≡ false }
    requires few { length names.now < 2 ^ 32 }
    ensures { IfOk result (AreIdents (map (λ name. name.now) names.now)) }
{
    let mut idents = Vec::with_capacity(alloc, names.len())?;
    let mut from = 0;
    for name in names {
        let is_own = is_own(name, idents.as_slice());
        let (ident, next) = plain_ident(alloc, is_own, from, name)?;
        idents.push(ident)?;
        from = next;
    }
    Ok(Seq::of(idents))
}
