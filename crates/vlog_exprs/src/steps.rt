// The calls that take one token which is due, or which need not stand.
ghost use Rattle.std.specs.Prelude.{◌≡◌, IfOk, IfSome};
ghost use Rattle.readers.specs.Readers.{same, Reads, TakesNext};
ghost use Rattle.vlog_tokens.specs.Language.{vlog};
ghost use Rattle.vlog_values.specs.Values.{IsName, IsCount};
ghost use Rattle.vlog_exprs.specs.Calls.{TakesHeld, stands};
ghost use Rattle.vlog_exprs.specs.Grammar.{name, number, mark, keyword, choice};
ghost use Rattle.vlog_exprs.specs.Reasons as say;

use crate::cursor::VCursor;
use crate::reasons::{
    at_choice, at_mark, at_name, choice_of, keyword_of, mark_of, meant_by, name_of, number_of,
};
use nl_base::{Int, ReadError, Text};
use nl_io::Source;
use std::alloc::Global;
use vlog_tokens::{VFound, is_keyword};

impl VCursor {
    /// Takes the name that is next, where no token was looked at and the bytes that are held show it and its end.
    #[inline(always)]
    pub(crate) fn held_name(&mut self, alloc: Global) -> Result<Option<Text>, ReadError>
        ensures held { TakesHeld result self.old self.new }
        ensures value { IfOk result (λ name. IfSome name IsName) }
    {
        let held = self.held_word();
        let count = held.len();
        if count == 0 {
            return Ok(None);
        }
        if is_keyword(held) {
            return Ok(None);
        }
        let Ok(text) = Text::copy(alloc, held) else {
            return Err(self.no_memory());
        };
        self.take_word(count);
        Ok(Some(text))
    }

    /// Takes a token: a name.
    #[inline(always)]
    pub fn name<S: Source>(&mut self, alloc: Global, source: &mut S) -> Result<Text, ReadError>
        ensures reads { Reads vlog same name result self.old self.new
            (S.supply source.old) (S.supply source.new) }
        ensures value { IfOk result IsName }
    {
        let held = self.held_name(alloc)?;
        if let Some(text) = held {
            return Ok(text);
        }
        self.name_token(alloc, source)
    }

    /// Takes any token, which has to be a name.
    #[inline(never)]
    fn name_token<S: Source>(&mut self, alloc: Global, source: &mut S) -> Result<Text, ReadError>
        ensures reads { Reads vlog same name result self.old self.new
            (S.supply source.old) (S.supply source.new) }
        ensures value { IfOk result IsName }
    {
        let VFound { place, stop, token } = self.take(alloc, source)?;
        let said = name_of(alloc, token);
        self.judged(place, stop, said)
    }

    /// Takes a token: a number.
    pub fn number<S: Source>(&mut self, alloc: Global, source: &mut S) -> Result<Int, ReadError>
        ensures reads { Reads vlog same number result self.old self.new
            (S.supply source.old) (S.supply source.new) }
        ensures value { IfOk result IsCount }
    {
        let VFound { place, stop, token } = self.take(alloc, source)?;
        let said = number_of(alloc, token);
        self.judged(place, stop, said)
    }

    /// Takes a token: this punctuation mark.
    #[inline(always)]
    pub fn mark<S: Source>(
        &mut self,
        alloc: Global,
        due: u8,
        source: &mut S,
    ) -> Result<(), ReadError>
        ensures { Reads vlog same (mark due) result self.old self.new
            (S.supply source.old) (S.supply source.new) }
    {
        if let Some(mark) = self.held_mark() {
            if mark == due {
                self.take_mark();
                return Ok(());
            }
        }
        self.mark_token(alloc, due, source)
    }

    /// Takes any token, which has to be this punctuation mark.
    #[inline(never)]
    fn mark_token<S: Source>(
        &mut self,
        alloc: Global,
        due: u8,
        source: &mut S,
    ) -> Result<(), ReadError>
        ensures { Reads vlog same (mark due) result self.old self.new
            (S.supply source.old) (S.supply source.new) }
    {
        let VFound { place, stop, token } = self.take(alloc, source)?;
        let said = mark_of(alloc, due, token);
        self.judged(place, stop, said)
    }

    /// Takes a token: this keyword.
    pub fn keyword<S: Source>(
        &mut self,
        alloc: Global,
        due: &[u8],
        source: &mut S,
    ) -> Result<(), ReadError>
        ensures { Reads vlog same (keyword due.now) result self.old self.new
            (S.supply source.old) (S.supply source.new) }
    {
        let VFound { place, stop, token } = self.take(alloc, source)?;
        let said = keyword_of(alloc, due, token);
        self.judged(place, stop, said)
    }

    /// Takes one of some keywords, and answers its value.
    pub fn choose<T: Copy, S: Source>(
        &mut self,
        alloc: Global,
        words: &[(&[u8], T)],
        source: &mut S,
    ) -> Result<T, ReadError>
        ensures { Reads vlog same (choice (say.rows words.now)) result self.old self.new
            (S.supply source.old) (S.supply source.new) }
    {
        let held = self.held_word();
        let count = held.len();
        if count > 0 {
            if let Some(value) = meant_by(words, held) {
                if is_keyword(held) {
                    self.take_word(count);
                    return Ok(value);
                }
            }
        }
        self.choose_token(alloc, words, source)
    }

    /// Takes any token, which has to be one of some keywords, and answers its value.
    #[inline(never)]
    fn choose_token<T: Copy, S: Source>(
        &mut self,
        alloc: Global,
        words: &[(&[u8], T)],
        source: &mut S,
    ) -> Result<T, ReadError>
        ensures { Reads vlog same (choice (say.rows words.now)) result self.old self.new
            (S.supply source.old) (S.supply source.new) }
    {
        let VFound { place, stop, token } = self.take(alloc, source)?;
        let said = choice_of(alloc, words, token);
        self.judged(place, stop, said)
    }

    /// Takes this punctuation mark, where it is next, and answers whether it was.
    #[inline(always)]
    pub fn takes<S: Source>(
        &mut self,
        alloc: Global,
        mark: u8,
        source: &mut S,
    ) -> Result<bool, ReadError>
        ensures { TakesNext vlog stands (λ _ x. say.at_mark mark x.token) result self.old self.new
            (S.supply source.old) (S.supply source.new) }
    {
        if let Some(next) = self.held_mark() {
            if next != mark {
                return Ok(false);
            }
            self.take_mark();
            return Ok(true);
        }
        self.takes_unmarked(alloc, mark, source)
    }

    /// Takes this punctuation mark, where it is next. The bytes that are held may show another token.
    #[inline(never)]
    fn takes_unmarked<S: Source>(
        &mut self,
        alloc: Global,
        mark: u8,
        source: &mut S,
    ) -> Result<bool, ReadError>
        ensures { TakesNext vlog stands (λ _ x. say.at_mark mark x.token) result self.old self.new
            (S.supply source.old) (S.supply source.new) }
    {
        let held = self.held_word();
        let count = held.len();
        if count > 0 {
            return Ok(false);
        }
        if let Some(_plain) = self.held_plain() {
            return Ok(false);
        }
        self.takes_token(alloc, mark, source)
    }

    /// Looks at any token, and takes it where it is this punctuation mark.
    #[inline(never)]
    fn takes_token<S: Source>(
        &mut self,
        alloc: Global,
        mark: u8,
        source: &mut S,
    ) -> Result<bool, ReadError>
        ensures { TakesNext vlog stands (λ _ x. say.at_mark mark x.token) result self.old self.new
            (S.supply source.old) (S.supply source.new) }
    {
        let next = self.next_out(alloc, source)?;
        let Some(VFound { place, stop, token }) = next else {
            return Ok(false);
        };
        let taken = self.settled(place, stop, at_mark(mark, token))?;
        Ok(taken.is_some())
    }

    /// Takes a name, where one is next.
    #[inline(always)]
    pub fn takes_name<S: Source>(
        &mut self,
        alloc: Global,
        source: &mut S,
    ) -> Result<Option<Text>, ReadError>
        ensures reads { TakesNext vlog same (λ _ x. say.at_name x.token) result self.old self.new
            (S.supply source.old) (S.supply source.new) }
        ensures value { IfOk result (λ name. IfSome name IsName) }
    {
        let held = self.held_word();
        let count = held.len();
        if count > 0 {
            if is_keyword(held) {
                return Ok(None);
            }
            let Ok(text) = Text::copy(alloc, held) else {
                return Err(self.no_memory());
            };
            self.take_word(count);
            return Ok(Some(text));
        }
        self.takes_name_token(alloc, source)
    }

    /// Looks at any token, and takes it where it is a name.
    #[inline(never)]
    fn takes_name_token<S: Source>(
        &mut self,
        alloc: Global,
        source: &mut S,
    ) -> Result<Option<Text>, ReadError>
        ensures reads { TakesNext vlog same (λ _ x. say.at_name x.token) result self.old self.new
            (S.supply source.old) (S.supply source.new) }
        ensures value { IfOk result (λ name. IfSome name IsName) }
    {
        if let Some(_mark) = self.held_mark() {
            return Ok(None);
        }
        let next = self.next_out(alloc, source)?;
        let Some(VFound { place, stop, token }) = next else {
            return Ok(None);
        };
        self.settled(place, stop, at_name(token))
    }

    /// Takes one of some keywords, where one is next, and answers its value.
    pub fn takes_choice<T: Copy, S: Source>(
        &mut self,
        alloc: Global,
        words: &[(&[u8], T)],
        source: &mut S,
    ) -> Result<Option<T>, ReadError>
        ensures reads { TakesNext vlog same
            (λ _ x. say.at_choice (say.rows words.now) x.token) result self.old self.new
            (S.supply source.old) (S.supply source.new) }
        ensures value { IfOk result (λ value. IfSome value (say.IsMeant (say.rows words.now))) }
    {
        let held = self.held_word();
        let count = held.len();
        if count > 0 {
            let Some(value) = meant_by(words, held) else {
                return Ok(None);
            };
            if is_keyword(held) {
                self.take_word(count);
                return Ok(Some(value));
            }
            return Ok(None);
        }
        if let Some(_mark) = self.held_mark() {
            return Ok(None);
        }
        let next = self.next_out(alloc, source)?;
        let Some(VFound { place, stop, token }) = next else {
            return Ok(None);
        };
        self.settled(place, stop, at_choice(words, token))
    }
}
