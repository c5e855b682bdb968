// Numbers in words.
ghost use Rattle.std.specs.Prelude.{◌≡◌};
ghost use Rattle.netlist_words.specs.Parsing.{spelled_number};

use itoa::Buffer;
use std::str;

/// The number of which a word is the decimal text: no sign and no leading zero.
pub fn number_of(word: &[u8]) -> Option<u64>
    ensures { result ≡ spelled_number word.now }
{
    let Ok(text) = str::from_utf8(word) else {
        return None;
    };
    let Ok(number) = text.parse::<u64>() else {
        return None;
    };
    let mut buffer = Buffer::new();
    if buffer.format(number) != text {
        return None;
    }
    Some(number)
}
