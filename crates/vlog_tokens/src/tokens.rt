ghost use Rattle.std.specs.Prelude.{◌≡◌, ◌+◌, ◌<◌, ◌≤◌, ℕ, Some, length, IfOk, IfSome, IsFalse};
ghost use Rattle.nl_bytes.specs.declared.bytes.TheConstants.{LIMIT};

use crate::ahead::{held_mark, pass_mark};
use crate::finding::found;
use crate::literal::{held_base, held_digits, pass_digits};
use crate::next::{held_word, pass_word};
use crate::plain::{Plain, held_plain, pass_plain};
use crate::token::VFound;
use nl_base::{NoMemory, Place, ReadError};
use nl_bytes::Bytes;
use nl_io::Source;
use std::alloc::Global;
use std::marker::Model;
use vlog_values::Base;

/// Reads the tokens of a source, one after another, through a buffer of 4,096 bytes.
///
/// It is used with one source. Contracts see it as the bytes that it holds, the place of the first, and whether an error has
/// spent it.
#[derive(Drop)]
pub struct VTokens {
    bytes: Bytes,
    spent: bool,
}

impl Model for VTokens {
    ghost use Rattle.nl_bytes.specs.Tokens.{State};

    ghost Value = { State };

    ghost view = { λ t. record { window = t.bytes; spent = t.spent } };
}

impl VTokens {
    ghost use Rattle.nl_io.specs.Sources.{Supply};
    ghost use Rattle.nl_bytes.specs.Tokens.{ReadsToken, fresh};
    ghost use Rattle.vlog_tokens.specs.declared.token.VToken.TheVariants.{Punct};
    ghost use Rattle.vlog_tokens.specs.Language.{vlog};
    ghost use Rattle.vlog_tokens.specs.Held.{held_mark, past_mark, held_word, past_word};
    ghost use Rattle.vlog_tokens.specs.Plains.{held_plain, past_plain, plain_token};
    ghost use Rattle.vlog_tokens.specs.HeldLiterals.{held_base, held_digits, past_digits, digits_token};
    ghost use Rattle.vlog_tokens.specs.Items.{word_token};
    ghost use Rattle.vlog_tokens.specs.Proper.{IsProper};

    /// A reader at the start of a text.
    ///
    /// Refused only for want of memory.
    pub fn new(alloc: Global) -> Result<Self, NoMemory>
        ensures { IfOk result (λ t. t ≡ fresh) }
    {
        let bytes = Bytes::new(alloc)?;
        Ok(VTokens {
            bytes,
            spent: false,
        })
    }

    /// The place after the last byte used.
    #[inline]
    pub fn here(&self) -> Place
        ensures place { result ≡ self.now.window.place }
        ensures held { length self.now.window.held ≤ 4096 }
        ensures limit { self.now.window.place.offset ≤ LIMIT + 1 }
    {
        self.bytes.place()
    }

    /// Whether an error has spent it.
    #[inline]
    pub fn is_spent(&self) -> bool
        ensures { result ≡ self.now.spent }
    {
        self.spent
    }

    /// The punctuation mark that is next, where the bytes that are held show it.
    #[inline(always)]
    pub fn held_mark(&self) -> Option<u8>
        ensures mark { result ≡ held_mark self.now.window }
        ensures held { length self.now.window.held ≤ 4096 }
    {
        // The buffer holds at most 4,096 bytes, as its call says.
        let _here = self.bytes.place();
        held_mark(&self.bytes)
    }

    /// Takes the mark that is next.
    ///
    /// A reader that is not spent then stands as after a call of `next` that answers this mark.
    #[inline(always)]
    pub fn take_mark(&mut self)
        requires { (mark : ℕ) × (held_mark self.old.window ≡ Some mark) }
        ensures left { self.new
            ≡ record { window = past_mark self.old.window; spent = self.old.spent } }
        ensures reads { (mark : ℕ) → held_mark self.old.window ≡ Some mark → IsFalse self.old.spent
            → (i : Supply) → (x : VFound) × (x.token ≡ Punct mark)
            × ReadsToken vlog (Ok
            (Some x)) self.old.window self.old.spent self.new.window self.new.spent i i }
    {
        // The buffer holds at most 4,096 bytes, as its call says.
        let _here = self.bytes.place();
        pass_mark(&mut self.bytes)
    }

    /// The simple name or the keyword that is next, where the bytes that are held show it and its end; no bytes where not.
    #[inline(always)]
    pub fn held_word(&self) -> &[u8]
        ensures word { result.now ≡ held_word self.now.window }
        ensures held { length self.now.window.held ≤ 4096 }
    {
        // The buffer holds at most 4,096 bytes, as its call says.
        let _here = self.bytes.place();
        held_word(&self.bytes)
    }

    /// Takes the word that is next, which has so many bytes.
    ///
    /// A reader that is not spent then stands as after a call of `next` that answers this word.
    #[inline(always)]
    pub fn take_word(&mut self, count: usize)
        requires some { 0 < count }
        requires word { count ≡ length (held_word self.old.window) }
        ensures left { self.new
            ≡ record { window = past_word self.old.window; spent = self.old.spent } }
        ensures reads { IsFalse self.old.spent → (i : Supply) → (x : VFound)
            × (x.token ≡ word_token (held_word self.old.window))
            × ReadsToken vlog (Ok
            (Some x)) self.old.window self.old.spent self.new.window self.new.spent i i }
    {
        // The buffer holds at most 4,096 bytes, as its call says.
        let _here = self.bytes.place();
        pass_word(&mut self.bytes, count)
    }

    /// The number or the bracket of attributes that is next, where the bytes that are held show it and its end.
    #[inline(always)]
    pub fn held_plain(&self) -> Option<Plain>
        ensures plain { result ≡ held_plain self.now.window }
        ensures held { length self.now.window.held ≤ 4096 }
        ensures proper { IfSome result (λ plain. IsProper (plain_token plain)) }
    {
        // The buffer holds at most 4,096 bytes, as its call says.
        let _here = self.bytes.place();
        held_plain(&self.bytes)
    }

    /// Takes the number or the bracket of attributes that is next.
    ///
    /// A reader that is not spent then stands as after a call of `next` that answers it.
    #[inline(always)]
    pub fn take_plain(&mut self)
        requires { (plain : Plain) × (held_plain self.old.window ≡ Some plain) }
        ensures left { self.new
            ≡ record { window = past_plain self.old.window; spent = self.old.spent } }
        ensures reads { (plain : Plain) → held_plain self.old.window ≡ Some plain
            → IsFalse self.old.spent → (i : Supply) → (x : VFound) × (x.token ≡ plain_token plain)
            × ReadsToken vlog (Ok
            (Some x)) self.old.window self.old.spent self.new.window self.new.spent i i }
    {
        // The buffer holds at most 4,096 bytes, as its call says.
        let _here = self.bytes.place();
        pass_plain(&mut self.bytes)
    }

    /// The base of the literal that is next, where its `'` and its letter are held, with no sign letter or white space.
    #[inline(always)]
    pub fn held_base(&self) -> Option<Base>
        ensures base { result ≡ held_base self.now.window }
        ensures held { length self.now.window.held ≤ 4096 }
    {
        // The buffer holds at most 4,096 bytes, as its call says.
        let _here = self.bytes.place();
        held_base(&self.bytes)
    }

    /// The digits behind that letter, where the bytes that are held show them and their end; no bytes where not.
    #[inline(always)]
    pub fn held_digits(&self, base: Base) -> &[u8]
        ensures digits { result.now ≡ held_digits base self.now.window }
        ensures held { length self.now.window.held ≤ 4096 }
    {
        // The buffer holds at most 4,096 bytes, as its call says.
        let _here = self.bytes.place();
        held_digits(&self.bytes, base)
    }

    /// Takes the digits of a based literal that are next, which have so many bytes.
    ///
    /// A reader that is not spent then stands as after a call of `next` that answers them.
    #[inline(always)]
    pub fn take_digits(&mut self, base: Base, count: usize)
        requires base { held_base self.old.window ≡ Some base }
        requires some { 0 < count }
        requires digits { count ≡ length (held_digits base self.old.window) }
        ensures left { self.new
            ≡ record { window = past_digits count self.old.window; spent = self.old.spent } }
        ensures reads { IsFalse self.old.spent → (i : Supply) → (x : VFound)
            × (x.token ≡ digits_token base (held_digits base self.old.window))
            × ReadsToken vlog (Ok
            (Some x)) self.old.window self.old.spent self.new.window self.new.spent i i }
    {
        // The buffer holds at most 4,096 bytes, as its call says.
        let _here = self.bytes.place();
        pass_digits(&mut self.bytes, base, count)
    }

    /// Reads the next token, or `None` at the end of the input.
    ///
    /// The answer is what the whole bytes of the source have there, whatever pieces it gives them in:
    ///
    /// - a token, with its place and stop; `None` exactly at the end, after the last token;
    /// - `Text` exactly where the bytes spell no token; at most 4,096 bytes behind its stop are taken then;
    /// - `TooLong` exactly where more than 268,435,456 bytes are given and the next token or fault has no stop within them;
    /// - `ReadFault` only where the source's count of faults rose in this call;
    /// - `Spent` exactly where the reader was spent.
    ///
    /// A token is within its limits, also where the source does not tell its bytes.
    ///
    /// Bytes are taken only where all that were taken before are used. None are taken for a token whose stop lies within those,
    /// nor for a fault whose stop lies before their end, and a read that fails was asked for with no byte at hand.
    ///
    /// Any error spends it for good, and an `Ok` does not. Whatever it answers, no more than 268,435,456 + 4,096 bytes were ever
    /// taken from the source.
    pub fn next<S: Source>(
        &mut self,
        alloc: Global,
        source: &mut S,
    ) -> Result<Option<VFound>, ReadError>
        ensures reads { ReadsToken vlog result self.old.window self.old.spent self.new.window self.new.spent (S.supply source.old) (S.supply source.new) }
        ensures proper { IfOk result (λ t. IfSome t (λ x. IsProper x.token)) }
    {
        if self.spent {
            return Err(ReadError::Spent);
        }
        self.spent = true;
        let result = found(&mut self.bytes, alloc, source);
        // The buffer holds at most 4,096 bytes, and no more than 4,096 past the limit were taken, as its call says.
        let _here = self.bytes.place();
        let found = result?;
        self.spent = false;
        Ok(found)
    }
}
