ghost use Rattle.std.specs.Prelude.{◌≡◌, ◌+◌, ◌<◌, ◌≤◌, ℕ, Some, length, IfOk, IfSome, IsFalse};
ghost use Rattle.nl_bytes.specs.declared.bytes.TheConstants.{LIMIT};

use crate::ahead::{held_mark, held_word, pass_mark, pass_word};
use crate::finding::found;
use crate::form::{FormAt, OpenAt, form_at, form_word, open_at, opened, pass_form};
use crate::token::Found;
use nl_base::{NoMemory, Place, ReadError};
use nl_bytes::Bytes;
use nl_io::Source;
use std::alloc::Global;
use std::marker::Model;

/// Reads the tokens of a source, one after another, through a buffer of 4,096 bytes.
///
/// It is used with one source. Contracts see it as the bytes that it holds, the place of the first, and whether an error has
/// spent it.
#[derive(Drop)]
pub struct Tokens {
    bytes: Bytes,
    spent: bool,
}

impl Model for Tokens {
    ghost use Rattle.nl_bytes.specs.Tokens.{State};

    ghost Value = { State };

    ghost view = { λ t. record { window = t.bytes; spent = t.spent } };
}

impl Tokens {
    ghost use Rattle.edif_values.specs.declared.token.Token.TheVariants.{Word};
    ghost use Rattle.edif_values.specs.Proper.{IsProper};
    ghost use Rattle.nl_io.specs.Sources.{Supply};
    ghost use Rattle.nl_bytes.specs.Tokens.{ReadsToken, fresh};
    ghost use Rattle.edif_tokens.specs.Language.{edif};
    ghost use Rattle.edif_tokens.specs.Held.{held_mark, mark_token, past_mark, held_word, past_word};
    ghost use Rattle.edif_tokens.specs.HeldForm.{form_at, open_at, opened_by, ReadsForm};

    /// A reader at the start of a text.
    ///
    /// Refused only for want of memory.
    pub fn new(alloc: Global) -> Result<Self, NoMemory>
        ensures { IfOk result (λ t. t ≡ fresh) }
    {
        let bytes = Bytes::new(alloc)?;
        Ok(Tokens {
            bytes,
            spent: false,
        })
    }

    /// The place after the last byte used.
    #[inline]
    pub fn here(&self) -> Place
        ensures place { result ≡ self.now.window.place }
        ensures held { length self.now.window.held ≤ 4096 }
        ensures limit { self.now.window.place.offset ≤ LIMIT + 1 }
    {
        self.bytes.place()
    }

    /// Whether an error has spent it.
    #[inline]
    pub fn is_spent(&self) -> bool
        ensures { result ≡ self.now.spent }
    {
        self.spent
    }

    /// The parenthesis that is next, where the bytes that are held show it.
    #[inline(always)]
    pub fn held_mark(&self) -> Option<u8>
        ensures mark { result ≡ held_mark self.now.window }
        ensures held { length self.now.window.held ≤ 4096 }
    {
        // The buffer holds at most 4,096 bytes, as its call says.
        let _here = self.bytes.place();
        held_mark(&self.bytes)
    }

    /// Takes the parenthesis that is next.
    ///
    /// A reader that is not spent then stands as after a call of `next` that answers this parenthesis.
    #[inline(always)]
    pub fn take_mark(&mut self)
        requires { (mark : ℕ) × (held_mark self.old.window ≡ Some mark) }
        ensures left { self.new
            ≡ record { window = past_mark self.old.window; spent = self.old.spent } }
        ensures reads { (mark : ℕ) → held_mark self.old.window ≡ Some mark → IsFalse self.old.spent
            → (i : Supply) → (x : Found) × (x.token ≡ mark_token mark)
            × ReadsToken edif (Ok
            (Some x)) self.old.window self.old.spent self.new.window self.new.spent i i }
        ensures limit { self.new.window.place.offset ≤ LIMIT }
    {
        // The buffer holds at most 4,096 bytes, as its call says.
        let _here = self.bytes.place();
        pass_mark(&mut self.bytes)
    }

    /// The word that is next, where the bytes that are held show it and its end; no bytes where not.
    #[inline(always)]
    pub fn held_word(&self) -> &[u8]
        ensures word { result.now ≡ held_word self.now.window }
        ensures held { length self.now.window.held ≤ 4096 }
    {
        // The buffer holds at most 4,096 bytes, as its call says.
        let _here = self.bytes.place();
        held_word(&self.bytes)
    }

    /// Takes the word that is next, which has so many bytes.
    ///
    /// A reader that is not spent then stands as after a call of `next` that answers this word.
    #[inline(always)]
    pub fn take_word(&mut self, count: usize)
        requires some { 0 < count }
        requires word { count ≡ length (held_word self.old.window) }
        ensures left { self.new
            ≡ record { window = past_word self.old.window; spent = self.old.spent } }
        ensures reads { IsFalse self.old.spent → (i : Supply) → (x : Found)
            × (x.token ≡ Word (held_word self.old.window))
            × ReadsToken edif (Ok
            (Some x)) self.old.window self.old.spent self.new.window self.new.spent i i }
        ensures limit { self.new.window.place.offset ≤ LIMIT }
    {
        // The buffer holds at most 4,096 bytes, as its call says.
        let _here = self.bytes.place();
        pass_word(&mut self.bytes, count)
    }

    /// Where the form that is next begins, where the bytes that are held show its `(` and its word.
    ///
    /// The word has some bytes exactly where they do.
    #[inline(always)]
    pub fn form_at(&self) -> FormAt
        ensures at { result ≡ form_at self.now.window }
        ensures held { length self.now.window.held ≤ 4096 }
    {
        // The buffer holds at most 4,096 bytes, as its call says.
        let _here = self.bytes.place();
        form_at(&self.bytes)
    }

    /// Where the `(` that is next stands, where the bytes that are held show it.
    #[inline(always)]
    pub fn open_at(&self) -> Option<OpenAt>
        ensures at { result ≡ open_at self.now.window }
        ensures held { length self.now.window.held ≤ 4096 }
    {
        // The buffer holds at most 4,096 bytes, as its call says.
        let _here = self.bytes.place();
        open_at(&self.bytes)
    }

    /// What is held behind the `(` that is next and the white space behind it.
    #[inline(always)]
    pub fn opened(&self, at: OpenAt) -> &[u8]
        requires { open_at self.now.window ≡ Some at }
        ensures { result.now ≡ opened_by at self.now.window.held }
    {
        opened(&self.bytes, at)
    }

    /// The word of the form that is next.
    #[inline(always)]
    pub fn form_word(&self, at: FormAt) -> &[u8]
        requires some { 0 < at.count }
        requires form { at ≡ form_at self.now.window }
        ensures { result.now ≡ held_word (past_mark self.now.window) }
    {
        form_word(&self.bytes, at)
    }

    /// Takes the `(` and the word of the form that is next.
    ///
    /// A reader that is not spent then stands as after two calls of `next`, which answer the parenthesis and the word.
    #[inline(always)]
    pub fn take_form(&mut self, at: FormAt)
        requires some { 0 < at.count }
        requires form { at ≡ form_at self.old.window }
        ensures left { self.new
            ≡ record { window = past_word (past_mark self.old.window); spent = self.old.spent } }
        ensures reads { IsFalse self.old.spent → (i : Supply)
            → ReadsForm (held_word (past_mark self.old.window)) self.old
            (record { window = past_mark self.old.window; spent = self.old.spent }) self.new i }
        ensures limit { self.new.window.place.offset ≤ LIMIT }
    {
        // The buffer holds at most 4,096 bytes, as its call says.
        let _here = self.bytes.place();
        pass_form(&mut self.bytes, at)
    }

    /// Reads the next token, or `None` at the end of the input.
    ///
    /// The answer is what the whole bytes of the source have there, whatever pieces it gives them in:
    ///
    /// - a token, with its place and stop; `None` exactly at the end, after the last token;
    /// - `Text` exactly where the bytes spell no token; at most 4,096 bytes behind its stop are taken then;
    /// - `TooLong` exactly where more than 268,435,456 bytes are given and the next token or fault has no stop within them;
    /// - `ReadFault` only where the source's count of faults rose in this call; no byte is held then;
    /// - `Spent` exactly where the reader was spent.
    ///
    /// Bytes are taken from the source only where all that were taken before are used: none for a token whose stop lies within the bytes
    /// taken before, nor for a fault whose stop lies before the last of them.
    ///
    /// Any error spends it for good, and an `Ok` does not. Whatever it answers, no more than 268,435,456 + 4,096 bytes were ever
    /// taken from the source.
    #[inline(always)]
    pub fn next<S: Source>(
        &mut self,
        alloc: Global,
        source: &mut S,
    ) -> Result<Option<Found>, ReadError>
        ensures reads { ReadsToken edif result self.old.window self.old.spent self.new.window self.new.spent (S.supply source.old) (S.supply source.new) }
        ensures limit { IfOk result (λ t. IfSome t (λ x. self.new.window.place.offset ≤ LIMIT)) }
        ensures proper { IfOk result (λ t. IfSome t (λ x. IsProper x.token)) }
    {
        if self.spent {
            return Err(ReadError::Spent);
        }
        self.spent = true;
        let result = found(&mut self.bytes, alloc, source);
        // The buffer holds at most 4,096 bytes, and no more than 4,096 past the limit were taken, as its call says.
        let _here = self.bytes.place();
        let found = result?;
        self.spent = false;
        Ok(found)
    }
}
