ghost use Rattle.std.specs.Prelude.{◌≡◌, ◌+◌, ◌≤◌, ◌++◌, length, IfOk};
ghost use Rattle.net_bits.specs.Names.{AreUsed, IsFresh, numbered as numbered_name};

use crate::names::Names;
use crate::word::Word;
use nl_base::{NoMemory, Text, spell_u64};
use std::alloc::Global;

/// The stem followed by the least number, in decimal, whose name is not in the set, and that number. The names with numbers below `from` are
/// in the set. A caller that only adds names hands in the last number again, so that the names of a cell are made in one pass.
pub fn fresh_name(
    alloc: Global,
    used: &Names,
    stem: &[u8],
    from: u64,
) -> Result<(Text, u64), NoMemory>
    requires { AreUsed used.now stem.now from }
    ensures { IfOk result (λ fresh. IsFresh used.now stem.now fresh.0 fresh.1) }
{
    let most = used.len() as u64;
    let mut number = from;
    let mut name = numbered(alloc, stem, number)?;
    'numbers: while used.has(name.bytes()) {
        prove!(number < most);
        number += 1;
        name = numbered(alloc, stem, number)?;
    }
    Ok((name, number))
}

// The stem followed by these digits.
fn with_digits(alloc: Global, stem: &[u8], digits: &[u8]) -> Result<Text, NoMemory>
    ensures { IfOk result (λ name. name ≡ stem.now ++ digits.now) }
{
    let mut name = Vec::from_slice(alloc, stem)?;
    name.extend_from_slice(digits)?;
    let text = Text::of(alloc, name)?;
    Ok(text)
}

// The stem, for which there is room in a word, followed by these digits.
fn short_with_digits(alloc: Global, stem: &[u8], digits: &[u8]) -> Result<Text, NoMemory>
    requires { length stem.now + length digits.now ≤ 48 }
    ensures { IfOk result (λ name. name ≡ stem.now ++ digits.now) }
{
    let mut word = Word::empty();
    word.put(stem);
    word.put(digits);
    let text = word.text(alloc)?;
    Ok(text)
}

// The stem followed by the number in decimal.
fn numbered(alloc: Global, stem: &[u8], number: u64) -> Result<Text, NoMemory>
    ensures { IfOk result (λ name. name ≡ numbered_name stem.now number) }
{
    let mut digits = [0; 20];
    let len = spell_u64(number, &mut digits);
    if stem.len() <= 28 {
        let text = short_with_digits(alloc, stem, &digits[..len])?;
        return Ok(text);
    }
    let text = with_digits(alloc, stem, &digits[..len])?;
    Ok(text)
}
