ghost use Rattle.std.specs.Prelude.{◌≡◌, ◌<◌, ◌≤◌, ℕ, length, None, Some, IfOk, IfSome, IsSome, IsNone, IsTrue, IsFalse, option_map};
ghost use Rattle.grammar.specs.Whole.{proper};
ghost use Rattle.readers.specs.Parts.{any};
ghost use Rattle.nl_bytes.specs.Tokens.{IsNear};
ghost use Rattle.readers.specs.Readers.{same, fault_at, spoilt, Reads, Looks, Ends, Adds};
ghost use Rattle.vlog_tokens.specs.HeldLiterals.{held_digits};
ghost use Rattle.vlog_tokens.specs.Language.{vlog};
ghost use Rattle.vlog_tokens.specs.Plains.{plain_token};
ghost use Rattle.vlog_tokens.specs.Proper.{IsProper};
ghost use Rattle.vlog_exprs.specs.Calls.{is_unlooked, held_mark, past_mark, held_word, past_word, held_plain, past_plain, held_base, past_digits, answer, left_after, seen_answer, seen_left, IfLeaves, LooksOut};
ghost use Rattle.vlog_exprs.specs.Reasons.{trailing};

use crate::glance::Glance;
use crate::reasons::{Said, refused};
use nl_base::{Place, ReadError, Reason, TextFault};
use nl_io::Source;
use std::alloc::Global;
use std::marker::Model;
use vlog_tokens::{Plain, VFound, VTokens};
use vlog_values::Base;

/// Reads the parts of a text, one after another, with one token of look-ahead.
///
/// Contracts see it as a reader of parts. After an error of any kind it is spent for good.
#[derive(Drop)]
pub struct VCursor {
    tokens: VTokens,
    ahead: Option<VFound>,
    spent: bool,
}

impl Model for VCursor {
    ghost use Rattle.std.specs.Prelude.{◌≡◌, None, IsTrue, IfSome};
    ghost use Rattle.vlog_tokens.specs.declared.token.VFound.{VFound};
    ghost use Rattle.vlog_tokens.specs.Proper.{IsProper};
    ghost use Rattle.nl_bytes.specs.Tokens.{IsNear};
    ghost use Rattle.readers.specs.Readers.{Reader};
    ghost use Rattle.vlog_exprs.specs.Language.{NoContext};

    ghost Value = { Reader NoContext VFound };

    ghost view = { λ c. record { window = c.tokens.window; ahead = c.ahead; context = tt; spent = c.spent } };

    ghost invariant = { λ c. (IsTrue c.tokens.spent → IsTrue c.spent) × (IsTrue c.spent → c.ahead ≡ None) × IfSome c.ahead (λ x. IsNear c.tokens.window x.stop) × IfSome c.ahead (λ x. IsProper x.token) };
}

impl VCursor {
    /// A cursor at the next token of a reader of tokens, spent exactly where that is. It takes no memory.
    pub fn new(alloc: Global, tokens: VTokens) -> VCursor
        ensures { result ≡ record {
          window = tokens.window;
          ahead = None;
          context = tt;
          spent = tokens.spent;
        } }
    {
        let spent = tokens.is_spent();
        VCursor {
            tokens,
            ahead: None,
            spent,
        }
    }

    /// The punctuation mark that is next, where no token was looked at and the bytes that are held show it.
    #[inline(always)]
    #[tactic(auto, unfolding(crate::specs::Calls::held_mark))]
    pub(crate) fn held_mark(&self) -> Option<u8>
        ensures mark { result ≡ held_mark self.now }
        ensures held { length self.now.window.held ≤ 4096 }
    {
        // The buffer holds at most 4,096 bytes, as this call says.
        let _here = self.tokens.here();
        if self.spent {
            return None;
        }
        if let Some(_) = self.ahead {
            return None;
        }
        self.tokens.held_mark()
    }

    /// Takes the mark that is next.
    #[inline(always)]
    pub(crate) fn take_mark(&mut self)
        requires { (mark : ℕ) × (held_mark self.old ≡ Some mark) }
        ensures { self.new ≡ past_mark self.old }
    {
        self.tokens.take_mark()
    }

    /// Whether no error has spent it, and no token was looked at.
    #[inline(always)]
    fn is_unlooked(&self) -> bool
        ensures { result ≡ is_unlooked self.now }
    {
        !self.spent && self.ahead.is_none()
    }

    /// The simple name or the keyword that is next, where no token was looked at and the bytes that are held show it and its end;
    /// no bytes where not.
    #[inline(always)]
    #[tactic(auto, unfolding(crate::specs::Calls::held_word))]
    pub fn held_word(&self) -> &[u8]
        ensures word { result.now ≡ held_word self.now }
        ensures held { length self.now.window.held ≤ 4096 }
    {
        // The buffer holds at most 4,096 bytes, as this call says.
        let _here = self.tokens.here();
        if self.is_unlooked() {
            return self.tokens.held_word();
        }
        &[]
    }

    /// Takes the word that is next, which has so many bytes.
    #[inline(always)]
    pub(crate) fn take_word(&mut self, count: usize)
        requires some { 0 < count }
        requires word { count ≡ length (held_word self.old) }
        ensures { self.new ≡ past_word self.old }
    {
        self.tokens.take_word(count)
    }

    /// The number or the bracket of attributes that is next, where no token was looked at and the bytes that are held show it and its
    /// end.
    #[inline(always)]
    #[tactic(auto, unfolding(crate::specs::Calls::held_plain))]
    pub fn held_plain(&self) -> Option<Plain>
        ensures plain { result ≡ held_plain self.now }
        ensures held { length self.now.window.held ≤ 4096 }
        ensures proper { IfSome result (λ plain. IsProper (plain_token plain)) }
    {
        // The buffer holds at most 4,096 bytes, as this call says.
        let _here = self.tokens.here();
        if self.is_unlooked() {
            return self.tokens.held_plain();
        }
        None
    }

    /// Takes the number or the bracket of attributes that is next.
    #[inline(always)]
    pub(crate) fn take_plain(&mut self)
        requires { (plain : Plain) × (held_plain self.old ≡ Some plain) }
        ensures { self.new ≡ past_plain self.old }
    {
        self.tokens.take_plain()
    }

    /// The base of the literal that is next, where no token was looked at and the bytes that are held show its `'` and its letter.
    #[inline(always)]
    #[tactic(auto, unfolding(crate::specs::Calls::held_base))]
    pub(crate) fn held_base(&self) -> Option<Base>
        ensures base { result ≡ held_base self.now }
        ensures held { length self.now.window.held ≤ 4096 }
    {
        // The buffer holds at most 4,096 bytes, as this call says.
        let _here = self.tokens.here();
        if self.is_unlooked() {
            return self.tokens.held_base();
        }
        None
    }

    /// The digits behind that letter, where the bytes that are held show them and their end; no bytes where not.
    #[inline(always)]
    pub(crate) fn held_digits(&self, base: Base) -> &[u8]
        ensures { result.now ≡ held_digits base self.now.window }
    {
        self.tokens.held_digits(base)
    }

    /// Takes the digits of a based literal that are next, which have so many bytes.
    #[inline(always)]
    pub(crate) fn take_digits(&mut self, base: Base, count: usize)
        requires base { held_base self.old ≡ Some base }
        requires some { 0 < count }
        requires digits { count ≡ length (held_digits base self.old.window) }
        ensures { self.new ≡ past_digits count self.old }
    {
        self.tokens.take_digits(base, count)
    }

    /// Takes the token ahead, which is there.
    fn take_ahead(&mut self) -> VFound
        requires { IsSome self.old.ahead }
        ensures token { self.old.ahead ≡ Some result }
        ensures left { self.new
            ≡ record {
              window = self.old.window;
              ahead = None;
              context = self.old.context;
              spent = self.old.spent;
            } }
        ensures near { IsNear self.new.window result.stop }
        ensures proper { IsProper result.token }
    {
        match self.ahead.take() {
            Some(found) => found,
            None => unreachable!(),
        }
    }

    /// Takes the next token. At the end of the input a token is missing.
    #[inline(always)]
    pub fn take<S: Source>(&mut self, alloc: Global, source: &mut S) -> Result<VFound, ReadError>
        ensures reads { Reads vlog same any result self.old self.new
            (S.supply source.old) (S.supply source.new) }
        ensures near { IfOk result (λ x. IsNear self.new.window x.stop) }
        ensures proper { IfOk result (λ x. IsProper x.token) }
    {
        if self.spent {
            return Err(ReadError::Spent);
        }
        if let Some(_) = self.ahead {
            return Ok(self.take_ahead());
        }
        self.spent = true;
        let next = self.tokens.next(alloc, source)?;
        let Some(found) = next else {
            let end = self.tokens.here();
            return Err(ReadError::Text(TextFault {
                place: end,
                stop: end.offset,
                reason: Reason::EndOfInput,
            }));
        };
        self.spent = false;
        Ok(found)
    }

    /// Makes the next token the one ahead, and answers whether there is one. It takes nothing.
    pub fn look<S: Source>(&mut self, alloc: Global, source: &mut S) -> Result<bool, ReadError>
        ensures { Looks vlog result self.old self.new (S.supply source.old) (S.supply source.new) }
    {
        if self.spent {
            return Err(ReadError::Spent);
        }
        if let Some(_) = self.ahead {
            return Ok(true);
        }
        self.spent = true;
        let next = self.tokens.next(alloc, source)?;
        self.spent = false;
        let Some(found) = next else {
            return Ok(false);
        };
        self.ahead = Some(found);
        Ok(true)
    }

    /// The token that the last look made ahead, where no call has taken it since. After an error none is ahead.
    pub fn ahead(&self) -> Option<&VFound>
        ensures token { option_map (λ x. x.now) result ≡ self.now.ahead }
        ensures none { IsTrue self.now.spent → IsNone result }
        ensures proper { IfSome result (λ x. IsProper x.now.token) }
    {
        self.ahead.as_ref()
    }

    /// Refuses the token ahead. The cursor is spent from then on.
    pub fn refuse(&mut self, reason: Reason) -> ReadError
        requires { IsSome self.old.ahead }
        ensures error { IfSome self.old.ahead
            (λ x. (result ≡ ReadError.Text (fault_at vlog (proper x) reason))
            × IsNear self.old.window x.stop) }
        ensures spoilt { self.new ≡ spoilt self.old }
    {
        match self.ahead.take() {
            Some(found) => self.refuse_at(found.place, found.stop, reason),
            None => unreachable!(),
        }
    }

    /// Refuses a token of this place and stop that was just taken. The cursor is spent from then on.
    pub fn refuse_at(&mut self, place: Place, stop: u64, reason: Reason) -> ReadError
        ensures error { result
            ≡ ReadError.Text (record { place = place; stop = stop; reason = reason }) }
        ensures spoilt { self.new ≡ spoilt self.old }
    {
        self.spent = true;
        self.ahead = None;
        ReadError::Text(TextFault {
            place,
            stop,
            reason,
        })
    }

    /// Answers what a token of this place and stop says that was just taken, or refuses it.
    pub fn judged<T: Drop>(
        &mut self,
        place: Place,
        stop: u64,
        said: Said<T>,
    ) -> Result<T, ReadError>
        requires unspent { IsFalse self.old.spent }
        ensures answer { result ≡ answer place stop said }
        ensures left { self.new ≡ left_after said self.old }
    {
        match said {
            Ok(Ok(value)) => Ok(value),
            Ok(Err(reason)) => Err(self.refuse_at(place, stop, reason)),
            Err(_) => Err(self.no_memory()),
        }
    }

    /// Takes a token of this place and stop that was looked at, refuses it, or leaves it ahead.
    pub fn settled<T: Drop>(
        &mut self,
        place: Place,
        stop: u64,
        glance: Glance<T>,
    ) -> Result<Option<T>, ReadError>
        requires unspent { IsFalse self.old.spent }
        requires near { IsNear self.old.window stop }
        requires proper { IfLeaves glance IsProper }
        ensures answer { result ≡ seen_answer place stop glance }
        ensures left { self.new ≡ seen_left place stop glance self.old }
    {
        match glance {
            Glance::Takes(value) => Ok(Some(value)),
            Glance::Refuses(reason) => Err(self.refuse_at(place, stop, reason)),
            Glance::Leaves(token) => {
                self.ahead = Some(VFound { place, stop, token });
                Ok(None)
            }
        }
    }

    /// Makes the next token the one ahead and takes it out, where there is one.
    pub fn next_out<S: Source>(
        &mut self,
        alloc: Global,
        source: &mut S,
    ) -> Result<Option<VFound>, ReadError>
        ensures reads { LooksOut result self.old self.new
            (S.supply source.old) (S.supply source.new) }
        ensures proper { IfOk result (λ next. IfSome next (λ x. IsProper x.token)) }
    {
        self.look(alloc, source)?;
        let found = self.ahead.take();
        Ok(found)
    }

    /// Takes the end of the input. A token there is refused.
    pub fn end_of_input<S: Source>(
        &mut self,
        alloc: Global,
        source: &mut S,
    ) -> Result<(), ReadError>
        ensures { Ends vlog trailing result self.old self.new
            (S.supply source.old) (S.supply source.new) }
    {
        let next = self.next_out(alloc, source)?;
        let Some(VFound { place, stop, token }) = next else {
            return Ok(());
        };
        let said = refused(alloc, token);
        self.judged(place, stop, said)
    }

    /// Spends the cursor where memory has run out.
    pub fn no_memory(&mut self) -> ReadError
        ensures error { result ≡ ReadError.NoMemory }
        ensures spoilt { self.new ≡ spoilt self.old }
    {
        self.spent = true;
        self.ahead = None;
        ReadError::NoMemory
    }
}
