ghost use Rattle.std.specs.Prelude.{◌≡◌, ◌≤◌, true, length, if◌then◌else◌};
ghost use Rattle.std.specs.List.{list_all};
ghost use Rattle.nl_base.specs.Identifiers as spec;

use crate::text::Text;
use std::marker::Model;

/// The greatest number of bytes of an `Ident`.
pub const IDENT_LIMIT: usize = 1024;

/// An EDIF identifier of at most 1,024 bytes, which contracts see as the list of its bytes.
#[derive(Drop)]
pub struct Ident {
    text: Text,
}

impl Model for Ident {
    ghost use Rattle.std.specs.Prelude.{◌≡◌, ◌≤◌, List, ℕ, length, true};
    ghost use Rattle.nl_base.specs.Identifiers.{is_identifier};

    ghost Value = { List ℕ };

    ghost view = { λ i. i.text };

    ghost invariant = { λ i. (is_identifier i.text ≡ true) × (length i.text ≤ 1024) };
}

fn is_letter(byte: u8) -> bool
    ensures { result ≡ spec.is_letter byte }
{
    byte.is_ascii_alphabetic()
}

fn is_word_byte(byte: u8) -> bool
    ensures { result ≡ spec.is_word_byte byte }
{
    is_letter(byte) || byte.is_ascii_digit() || byte == b'_'
}

fn are_word_bytes(bytes: &[u8]) -> bool
    ensures { result ≡ list_all spec.is_word_byte bytes.now }
{
    bytes.iter().all(|byte| is_word_byte(*byte))
}

/// Whether the bytes are an EDIF identifier of any length: a letter, or `&` and one letter, digit or `_`; then letters, digits and `_`.
pub fn is_identifier(bytes: &[u8]) -> bool
    ensures { result ≡ spec.is_identifier bytes.now }
{
    match bytes {
        [] => false,
        [first] => is_letter(*first),
        [first, rest @ ..] => (is_letter(*first) || *first == b'&') && are_word_bytes(rest),
    }
}

impl Ident {
    /// The identifier that the text is, exactly where it is one of at most 1,024 bytes; else the text.
    pub fn check(text: Text) -> Result<Ident, Text>
        ensures { result ≡ (if spec.is_short_identifier text then Ok text else Err text) }
    {
        if text.len() <= IDENT_LIMIT && is_identifier(text.bytes()) {
            return Ok(Ident { text });
        }
        Err(text)
    }

    /// The identifier that the text is known to be.
    pub fn of(text: Text) -> Ident
        requires spelled { spec.is_identifier text ≡ true }
        requires short { length text ≤ 1024 }
        ensures { result ≡ text }
    {
        Ident { text }
    }

    /// Its bytes, of which it is known that they are an identifier of at most 1,024 bytes.
    pub fn bytes(&self) -> &[u8]
        ensures bytes { result.now ≡ self.now }
        ensures spelled { spec.is_identifier self.now ≡ true }
        ensures short { length self.now ≤ 1024 }
    {
        self.text.bytes()
    }

    /// The text that it is.
    pub fn into_text(self) -> Text
        ensures { result ≡ self }
    {
        let Ident { text } = self;
        text
    }
}
