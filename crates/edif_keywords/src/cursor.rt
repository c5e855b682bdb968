ghost use Rattle.std.specs.Prelude.{◌≡◌, ◌<◌, ◌≤◌, ℕ, length, None, Some, [], IfOk, IfSome, IsSome, IsNone, IsTrue, IsFalse, option_map};
ghost use Rattle.readers.specs.Parts.{any};
ghost use Rattle.nl_bytes.specs.Tokens.{IsNear};
ghost use Rattle.readers.specs.Readers.{same, fault_at, end_fault, spoilt, Reads, Looks};
ghost use Rattle.grammar.specs.Whole.{proper};
ghost use Rattle.edif_values.specs.Proper.{IsProper};
ghost use Rattle.edif_keywords.specs.Calls.{is_unlooked, held_mark, past_mark, held_word, past_word, form_at, form_word, past_form, open_at, answer, left_after};
ghost use Rattle.edif_tokens.specs.HeldForm.{opened_by};
ghost use Rattle.edif_keywords.specs.Language.{edif};

use crate::aliases::Aliases;
use edif_tokens::{FormAt, Found, OpenAt, Tokens};
use nl_base::{Place, ReadError, Reason, TextFault};
use nl_io::Source;
use std::alloc::Global;
use std::marker::Model;

/// Reads the parts of a text, one after another, under its aliases.
///
/// Contracts see it as a reader of parts whose context is the aliases. After an error of any kind it is spent for good.
#[derive(Drop)]
pub struct Cursor {
    tokens: Tokens,
    ahead: Option<Found>,
    pub(crate) aliases: Aliases,
    spent: bool,
}

impl Model for Cursor {
    ghost use Rattle.std.specs.Prelude.{◌≡◌, List, None, IsTrue, IfSome};
    ghost use Rattle.edif_values.specs.Proper.{IsProper};
    ghost use Rattle.edif_tokens.specs.declared.token.Found.{Found};
    ghost use Rattle.nl_bytes.specs.Tokens.{IsNear};
    ghost use Rattle.readers.specs.Readers.{Reader};
    ghost use Rattle.edif_keywords.specs.Aliases.{Alias};

    ghost Value = { Reader (List Alias) Found };

    ghost view = { λ c. record { window = c.tokens.window; ahead = c.ahead; context = c.aliases; spent = c.spent } };

    ghost invariant = { λ c. (IsTrue c.tokens.spent → IsTrue c.spent) × (IsTrue c.spent → c.ahead ≡ None) × IfSome c.ahead (λ x. IsNear c.tokens.window x.stop) × IfSome c.ahead (λ x. IsProper x.token) };
}

impl Cursor {
    /// A cursor at the next token of a reader of tokens, without aliases. It takes no memory.
    pub fn new(alloc: Global, tokens: Tokens) -> Cursor
        ensures { result ≡ record {
          window = tokens.window;
          ahead = None;
          context = [];
          spent = tokens.spent;
        } }
    {
        let spent = tokens.is_spent();
        Cursor {
            tokens,
            ahead: None,
            aliases: Aliases::new(alloc),
            spent,
        }
    }

    /// Whether no error has spent it, and no token was looked at.
    #[inline(always)]
    fn is_unlooked(&self) -> bool
        ensures { result ≡ is_unlooked self.now }
    {
        !self.spent && self.ahead.is_none()
    }

    /// The parenthesis that is next, where no token was looked at and the bytes that are held show it.
    #[inline(always)]
    #[tactic(auto, unfolding(crate::specs::Calls::held_mark))]
    pub(crate) fn held_mark(&self) -> Option<u8>
        ensures mark { result ≡ held_mark self.now }
        ensures held { length self.now.window.held ≤ 4096 }
    {
        // The buffer holds at most 4,096 bytes, as this call says.
        let _here = self.tokens.here();
        if self.is_unlooked() {
            return self.tokens.held_mark();
        }
        None
    }

    /// Takes the parenthesis that is next.
    #[inline(always)]
    pub(crate) fn take_mark(&mut self)
        requires { (mark : ℕ) × (held_mark self.old ≡ Some mark) }
        ensures { self.new ≡ past_mark self.old }
    {
        self.tokens.take_mark()
    }

    /// The word that is next, where no token was looked at and the bytes that are held show it and its end; no bytes where not.
    #[inline(always)]
    #[tactic(auto, unfolding(crate::specs::Calls::held_word))]
    pub(crate) fn held_word(&self) -> &[u8]
        ensures word { result.now ≡ held_word self.now }
        ensures held { length self.now.window.held ≤ 4096 }
    {
        // The buffer holds at most 4,096 bytes, as this call says.
        let _here = self.tokens.here();
        if self.is_unlooked() {
            return self.tokens.held_word();
        }
        &[]
    }

    /// Takes the word that is next, which has so many bytes.
    #[inline(always)]
    pub(crate) fn take_word(&mut self, count: usize)
        requires some { 0 < count }
        requires word { count ≡ length (held_word self.old) }
        ensures { self.new ≡ past_word self.old }
    {
        self.tokens.take_word(count)
    }

    /// Where the form that is next begins, where no token was looked at and the bytes that are held show its `(` and its word.
    #[inline(always)]
    #[tactic(auto, unfolding(crate::specs::Calls::form_at))]
    pub(crate) fn form_at(&self) -> FormAt
        ensures at { result ≡ form_at self.now }
        ensures held { length self.now.window.held ≤ 4096 }
    {
        // The buffer holds at most 4,096 bytes, as this call says.
        let _here = self.tokens.here();
        if self.is_unlooked() {
            return self.tokens.form_at();
        }
        FormAt {
            space: 0,
            inner: 0,
            count: 0,
        }
    }

    /// Where the `(` that is next stands, where no token was looked at and the bytes that are held show it.
    #[inline(always)]
    #[tactic(auto, unfolding(crate::specs::Calls::open_at))]
    pub(crate) fn open_at(&self) -> Option<OpenAt>
        ensures at { result ≡ open_at self.now }
        ensures held { length self.now.window.held ≤ 4096 }
    {
        // The buffer holds at most 4,096 bytes, as this call says.
        let _here = self.tokens.here();
        if self.is_unlooked() {
            return self.tokens.open_at();
        }
        None
    }

    /// What is held behind the `(` that is next and the white space behind it.
    #[inline(always)]
    pub(crate) fn opened(&self, at: OpenAt) -> &[u8]
        requires { open_at self.now ≡ Some at }
        ensures { result.now ≡ opened_by at self.now.window.held }
    {
        self.tokens.opened(at)
    }

    /// The word of the form that is next.
    #[inline(always)]
    pub(crate) fn form_word(&self, at: FormAt) -> &[u8]
        requires some { 0 < at.count }
        requires form { at ≡ form_at self.now }
        ensures { result.now ≡ form_word self.now }
    {
        self.tokens.form_word(at)
    }

    /// Takes the `(` and the word of the form that is next.
    #[inline(always)]
    pub(crate) fn take_form(&mut self, at: FormAt)
        requires some { 0 < at.count }
        requires form { at ≡ form_at self.old }
        ensures { self.new ≡ past_form self.old }
    {
        self.tokens.take_form(at)
    }

    /// Takes the token ahead, which is there.
    fn take_ahead(&mut self) -> Found
        requires { IsSome self.old.ahead }
        ensures token { self.old.ahead ≡ Some result }
        ensures left { self.new
            ≡ record {
              window = self.old.window;
              ahead = None;
              context = self.old.context;
              spent = self.old.spent;
            } }
        ensures near { IsNear self.new.window result.stop }
        ensures proper { IsProper result.token }
    {
        match self.ahead.take() {
            Some(found) => found,
            None => unreachable!(),
        }
    }

    /// Takes the next token.
    #[inline(always)]
    pub(crate) fn take<S: Source>(
        &mut self,
        alloc: Global,
        source: &mut S,
    ) -> Result<Found, ReadError>
        ensures reads { Reads edif same any result self.old self.new
            (S.supply source.old) (S.supply source.new) }
        ensures near { IfOk result (λ x. IsNear self.new.window x.stop) }
        ensures proper { IfOk result (λ x. IsProper x.token) }
    {
        if self.spent {
            return Err(ReadError::Spent);
        }
        if let Some(_) = self.ahead {
            return Ok(self.take_ahead());
        }
        self.spent = true;
        let next = self.tokens.next(alloc, source)?;
        let Some(found) = next else {
            let end = self.tokens.here();
            return Err(ReadError::Text(TextFault {
                place: end,
                stop: end.offset,
                reason: Reason::EndOfInput,
            }));
        };
        self.spent = false;
        Ok(found)
    }

    /// Refuses a token of this place and stop that was just taken.
    pub(crate) fn refuse_at(&mut self, place: Place, stop: u64, reason: Reason) -> ReadError
        ensures error { result
            ≡ ReadError.Text (record { place = place; stop = stop; reason = reason }) }
        ensures spoilt { self.new ≡ spoilt self.old }
    {
        self.spent = true;
        self.ahead = None;
        ReadError::Text(TextFault {
            place,
            stop,
            reason,
        })
    }

    /// Answers what a token of this place and stop says that was just taken, or refuses it.
    pub(crate) fn judged<T: Drop>(
        &mut self,
        place: Place,
        stop: u64,
        said: Result<T, Reason>,
    ) -> Result<T, ReadError>
        ensures answer { result ≡ answer place stop said }
        ensures left { self.new ≡ left_after said self.old }
    {
        match said {
            Ok(value) => Ok(value),
            Err(reason) => Err(self.refuse_at(place, stop, reason)),
        }
    }

    /// Makes the next token the one ahead, and answers whether there is one. It takes nothing.
    pub fn look<S: Source>(&mut self, alloc: Global, source: &mut S) -> Result<bool, ReadError>
        ensures { Looks edif result self.old self.new (S.supply source.old) (S.supply source.new) }
    {
        if self.spent {
            return Err(ReadError::Spent);
        }
        if let Some(_) = self.ahead {
            return Ok(true);
        }
        self.spent = true;
        let next = self.tokens.next(alloc, source)?;
        self.spent = false;
        let Some(found) = next else {
            return Ok(false);
        };
        self.ahead = Some(found);
        Ok(true)
    }

    /// The token that the last look made ahead, where no call has taken it since. After an error none is ahead.
    pub fn ahead(&self) -> Option<&Found>
        ensures token { option_map (λ x. x.now) result ≡ self.now.ahead }
        ensures none { IsTrue self.now.spent → IsNone result }
        ensures proper { IfSome result (λ x. IsProper x.now.token) }
    {
        self.ahead.as_ref()
    }

    /// Refuses the token ahead. The cursor is spent from then on.
    pub fn refuse(&mut self, reason: Reason) -> ReadError
        requires { IsSome self.old.ahead }
        ensures error { IfSome self.old.ahead
            (λ x. (result ≡ ReadError.Text (fault_at edif (proper x) reason))
            × IsNear self.old.window x.stop) }
        ensures spoilt { self.new ≡ spoilt self.old }
    {
        match self.ahead.take() {
            Some(found) => self.refuse_at(found.place, found.stop, reason),
            None => unreachable!(),
        }
    }

    /// Spends the cursor where memory has run out.
    pub fn no_memory(&mut self) -> ReadError
        ensures error { result ≡ ReadError.NoMemory }
        ensures spoilt { self.new ≡ spoilt self.old }
    {
        self.spent = true;
        self.ahead = None;
        ReadError::NoMemory
    }

    /// Spends the cursor where a token is missing at the end of the input.
    pub(crate) fn ended(&mut self) -> ReadError
        ensures error { result ≡ ReadError.Text (end_fault self.old.window) }
        ensures spoilt { self.new ≡ spoilt self.old }
    {
        let end = self.tokens.here();
        self.refuse_at(end, end.offset, Reason::EndOfInput)
    }
}
