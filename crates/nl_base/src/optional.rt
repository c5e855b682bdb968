// Texts, identifiers and numbers that may be left out: whether there is one needs no place of its own.
ghost use Rattle.std.specs.Prelude.{◌≡◌, None, Some, is_some};
ghost use Rattle.std.specs.Option.{option_copied};

use crate::ident::Ident;
use crate::number::Int;
use crate::text::{Kept, SHORT, Text};
use std::marker::Model;

/// Where the bytes of a text are, where there is one.
#[derive(Drop)]
enum MaybeKept {
    Nothing,
    // How many bytes there are, and they, with zeros behind them.
    Short(u8, [u8; SHORT]),
    Long(Box<Vec<u8>>),
}

/// A text that may be left out, which contracts see as an `Option` of the list of its bytes.
#[derive(Drop)]
pub struct OptionalText {
    kept: MaybeKept,
}

impl Model for OptionalText {
    ghost use Rattle.std.specs.Prelude.{List, Option, ℕ};
    ghost use Rattle.nl_base.specs.Texts.{maybe_bytes, IsMaybeKept};

    ghost Value = { Option (List ℕ) };

    ghost view = { λ t. maybe_bytes t.kept };

    ghost invariant = { λ t. IsMaybeKept t.kept };
}

impl OptionalText {
    /// No text.
    pub fn none() -> OptionalText
        ensures { result ≡ None }
    {
        OptionalText {
            kept: MaybeKept::Nothing,
        }
    }

    /// This text; it takes no memory.
    pub fn some(text: Text) -> OptionalText
        ensures { result ≡ Some text }
    {
        let kept = match text.into_kept() {
            Kept::Short(count, short) => MaybeKept::Short(count, short),
            Kept::Long(long) => MaybeKept::Long(long),
        };
        OptionalText { kept }
    }

    /// Its bytes, where there is one.
    #[inline]
    pub fn bytes(&self) -> Option<&[u8]>
        ensures { option_copied result ≡ self.now }
    {
        match &self.kept {
            MaybeKept::Nothing => None,
            MaybeKept::Short(count, short) => {
                let (front, _) = short.split_at(*count as usize);
                Some(front)
            }
            MaybeKept::Long(long) => Some(long.as_slice()),
        }
    }

    /// Whether there is one.
    #[inline]
    pub fn is_some(&self) -> bool
        ensures { result ≡ is_some self.now }
    {
        match &self.kept {
            MaybeKept::Nothing => false,
            MaybeKept::Short(_, _) | MaybeKept::Long(_) => true,
        }
    }
}

/// An `Ident` that may be left out, which contracts see as an `Option` of the list of its bytes.
#[derive(Drop)]
pub struct OptionalIdent {
    text: OptionalText,
}

impl Model for OptionalIdent {
    ghost use Rattle.std.specs.Prelude.{◌≡◌, ◌≤◌, IfSome, List, Option, ℕ, length, true};
    ghost use Rattle.nl_base.specs.Identifiers.{is_identifier};

    ghost Value = { Option (List ℕ) };

    ghost view = { λ i. i.text };

    ghost invariant = { λ i. IfSome i.text (λ text. (is_identifier text ≡ true) × (length text ≤ 1024)) };
}

impl OptionalIdent {
    /// No identifier.
    pub fn none() -> OptionalIdent
        ensures { result ≡ None }
    {
        OptionalIdent {
            text: OptionalText::none(),
        }
    }

    /// This identifier; it takes no memory.
    pub fn some(ident: Ident) -> OptionalIdent
        ensures { result ≡ Some ident }
    {
        OptionalIdent {
            text: OptionalText::some(ident.into_text()),
        }
    }

    /// Its bytes, where there is one.
    #[inline]
    pub fn bytes(&self) -> Option<&[u8]>
        ensures { option_copied result ≡ self.now }
    {
        self.text.bytes()
    }
}

/// No number is below this one.
const LEAST: i64 = -i64::MAX;

/// An `Int` of 8 bytes that may be left out, which contracts see as an `Option` of the number.
#[derive(Drop)]
pub struct OptionalInt {
    // The least `i64`, which is no `Int`, where there is none.
    value: i64,
}

impl Model for OptionalInt {
    ghost use Rattle.std.specs.Prelude.{Option, ℤ};
    ghost use Rattle.nl_base.specs.Optional.{optional_number};

    ghost Value = { Option ℤ };

    ghost view = { λ n. optional_number n.value };
}

impl OptionalInt {
    /// This number, or none.
    pub fn of(number: Option<Int>) -> OptionalInt
        ensures { result ≡ number }
    {
        let value = match number {
            Some(number) => number.value(),
            None => i64::MIN,
        };
        OptionalInt { value }
    }

    /// The number, where there is one.
    #[inline]
    pub fn get(&self) -> Option<Int>
        ensures { result ≡ self.now }
    {
        let value = self.value;
        if value < LEAST {
            return None;
        }
        Int::check(value)
    }
}
