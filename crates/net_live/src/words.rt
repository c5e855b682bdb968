// The names of bits.
ghost use Rattle.std.specs.Prelude.{◌≡◌, ◌+◌, ◌<◌, ◌≤◌, ◌++◌, ◌∷◌, [], length, IfOk};
ghost use Rattle.std.specs.Fmt.{signed_decimal};
ghost use Rattle.net_hier.specs.Cells.{width_of};
ghost use Rattle.net_live.specs.Live.{bit_word as bit_word_of};

use itoa::Buffer;
use net_bits::Word;
use net_hier::HPort;
use nl_base::{NoMemory, Text};
use std::alloc::Global;

/// The name, and these digits in brackets.
fn with_index(alloc: Global, name: &[u8], digits: &[u8]) -> Result<Text, NoMemory>
    ensures { IfOk result (λ word. word ≡ name.now ++ (91 ∷ (digits.now ++ 93 ∷ []))) }
{
    let mut word = Vec::from_slice(alloc, name)?;
    word.push(b'[')?;
    word.extend_from_slice(digits)?;
    word.push(b']')?;
    let text = Text::of(alloc, word)?;
    Ok(text)
}

/// The name, for which there is room in a word, and these digits in brackets.
fn short_with_index(alloc: Global, name: &[u8], digits: &[u8]) -> Result<Text, NoMemory>
    requires { length name.now + length digits.now + 2 ≤ 48 }
    ensures { IfOk result (λ word. word ≡ name.now ++ (91 ∷ (digits.now ++ 93 ∷ []))) }
{
    let mut word = Word::empty();
    word.put(name);
    word.put(b"[");
    word.put(digits);
    word.put(b"]");
    let text = word.text(alloc)?;
    Ok(text)
}

/// The name, and the index in brackets.
fn indexed(alloc: Global, name: &[u8], index: i32) -> Result<Text, NoMemory>
    ensures { IfOk result (λ word. word ≡ name.now ++ (91 ∷ (signed_decimal index ++ 93 ∷ []))) }
{
    let mut buffer = Buffer::new();
    let digits = buffer.format(index).as_bytes();
    if name.len() <= 26 && digits.len() <= 20 {
        let text = short_with_index(alloc, name, digits)?;
        return Ok(text);
    }
    let text = with_index(alloc, name, digits)?;
    Ok(text)
}

/// The name of the bit at this position from the left: that of the port, with the bit's index in brackets where the port has a range.
pub fn bit_word(alloc: Global, port: &HPort, bit: u32) -> Result<Text, NoMemory>
    requires { bit < width_of port.now.range }
    ensures { IfOk result (λ word. word ≡ bit_word_of port.now bit) }
{
    match port.range {
        None => {
            let text = Text::copy(alloc, port.name.bytes())?;
            Ok(text)
        }
        Some(range) => {
            let text = indexed(alloc, port.name.bytes(), range.index(bit))?;
            Ok(text)
        }
    }
}
