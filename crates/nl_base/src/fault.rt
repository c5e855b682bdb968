ghost use Rattle.std.specs.Prelude.{◌≡◌, option_copied};
ghost use Rattle.nl_base.specs.declared.fault.ReadError.TheVariants.{NoMemory};
ghost use Rattle.nl_base.specs.Faults.{reason_name, reason_word};

use crate::memory;
use crate::place::Place;
use crate::text::Text;
use std::alloc::{AllocError, AllocFailed};

/// Why a text is refused. A word is the token's spelling in the text.
#[derive(Drop)]
pub enum Reason {
    /// The bytes end where a token, or more of one, is needed.
    EndOfInput,
    /// A byte that may not stand there.
    BadByte,
    /// An escape in a string that has no meaning.
    BadEscape,
    /// A token above its limit of bytes.
    TokenTooLong,
    /// A number above its limit.
    NumberRange,
    /// A list or concatenation that would be level 65.
    TooDeep,
    /// An EDIF version other than 2 0 0.
    Version,
    /// An EDIF level other than 0.
    Level,
    /// An EDIF keyword level other than 0 and 1, or an alias at level 0.
    KeywordLevel,
    /// A view type other than NETLIST.
    ViewType(Text),
    /// A new alias that is taken.
    AliasClash,
    /// An alias of a word that means no keyword.
    AliasUnknown,
    /// A keyword, symbol or directive that may not stand there.
    NotInProfile(Text),
    /// A word that means no keyword, where a keyword is due.
    UnknownWord(Text),
    /// A token after the end of the file's form.
    Trailing,
    /// Any other token.
    Unexpected,
}

impl Reason {
    /// The name that is printed for it, without its word.
    pub fn name(&self) -> &'static [u8]
        ensures { result.now ≡ reason_name self.now }
    {
        match self {
            Reason::EndOfInput => b"EndOfInput",
            Reason::BadByte => b"BadByte",
            Reason::BadEscape => b"BadEscape",
            Reason::TokenTooLong => b"TokenTooLong",
            Reason::NumberRange => b"NumberRange",
            Reason::TooDeep => b"TooDeep",
            Reason::Version => b"Version",
            Reason::Level => b"Level",
            Reason::KeywordLevel => b"KeywordLevel",
            Reason::ViewType(_) => b"ViewType",
            Reason::AliasClash => b"AliasClash",
            Reason::AliasUnknown => b"AliasUnknown",
            Reason::NotInProfile(_) => b"NotInProfile",
            Reason::UnknownWord(_) => b"UnknownWord",
            Reason::Trailing => b"Trailing",
            Reason::Unexpected => b"Unexpected",
        }
    }

    /// The word that it carries.
    pub fn word(&self) -> Option<&[u8]>
        ensures { option_copied result ≡ reason_word self.now }
    {
        match self {
            Reason::ViewType(word) | Reason::NotInProfile(word) | Reason::UnknownWord(word) => Some(
                word.bytes(),
            ),
            _ => None,
        }
    }
}

/// A refusal: its place, the offset just past the byte that decides it, and the reason.
#[derive(Drop)]
pub struct TextFault {
    pub place: Place,
    pub stop: u64,
    pub reason: Reason,
}

/// Why a reader of a text answers no value.
#[derive(Drop)]
pub enum ReadError {
    /// The text is refused.
    Text(TextFault),
    /// The source failed.
    ReadFault,
    /// The source has more bytes than are read.
    TooLong,
    /// Memory ran out.
    NoMemory,
    /// The reader has refused before.
    Spent,
}

impl From<AllocError> for ReadError {
    ghost from_gives = { λ _ e. e ≡ NoMemory };

    fn from(_: AllocError) -> Self {
        ReadError::NoMemory
    }
}

impl<T: Drop> From<AllocFailed<T>> for ReadError {
    ghost from_gives = { λ _ e. e ≡ NoMemory };

    fn from(_: AllocFailed<T>) -> Self {
        ReadError::NoMemory
    }
}

impl From<memory::NoMemory> for ReadError {
    ghost from_gives = { λ _ e. e ≡ NoMemory };

    fn from(_: memory::NoMemory) -> Self {
        ReadError::NoMemory
    }
}
