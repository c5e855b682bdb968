// The calls that take one token, or the beginning of a form.
ghost use Rattle.std.specs.Prelude.{◌≡◌, true, IfOk};
ghost use Rattle.edif_values.specs.Keywords.{has};
ghost use Rattle.edif_values.specs.Values.{IsWord, IsInteger, IsString};
ghost use Rattle.readers.specs.Readers.{same, Reads};
ghost use Rattle.edif_keywords.specs.Language.{edif};
ghost use Rattle.edif_keywords.specs.Grammar.{word, string, integer, opening, closing, choice, view_type, keyword, begin};
ghost use Rattle.edif_keywords.specs.Reasons.{rows};

use crate::cursor::Cursor;
use crate::find::{find_allowed, find_shown};
use crate::reasons::{
    choice_of, closing_of, integer_of, keyword_of, opening_of, string_of, view_type_of, word_of,
};
use edif_tokens::{FormAt, Found};
use edif_values::{Keyword, spelling};
use nl_base::{Ident, Int, ReadError, Text};
use nl_io::Source;
use std::alloc::Global;

impl Cursor {
    /// Takes a token: a word.
    pub fn word<S: Source>(&mut self, alloc: Global, source: &mut S) -> Result<Ident, ReadError>
        ensures reads { Reads edif same word result self.old self.new
            (S.supply source.old) (S.supply source.new) }
        ensures value { IfOk result IsWord }
    {
        let held = self.held_word();
        let count = held.len();
        if count == 0 {
            return self.word_token(alloc, source);
        }
        let Ok(text) = Text::copy(alloc, held) else {
            return Err(self.no_memory());
        };
        self.take_word(count);
        Ok(Ident::of(text))
    }

    /// Takes any token, which has to be a word.
    #[inline(never)]
    fn word_token<S: Source>(&mut self, alloc: Global, source: &mut S) -> Result<Ident, ReadError>
        ensures reads { Reads edif same word result self.old self.new
            (S.supply source.old) (S.supply source.new) }
        ensures value { IfOk result IsWord }
    {
        let Found { place, stop, token } = self.take(alloc, source)?;
        self.judged(place, stop, word_of(token))
    }

    /// Takes a token: a string.
    pub fn string<S: Source>(&mut self, alloc: Global, source: &mut S) -> Result<Text, ReadError>
        ensures reads { Reads edif same string result self.old self.new
            (S.supply source.old) (S.supply source.new) }
        ensures value { IfOk result IsString }
    {
        let Found { place, stop, token } = self.take(alloc, source)?;
        self.judged(place, stop, string_of(token))
    }

    /// Takes a token: an integer.
    pub fn int<S: Source>(&mut self, alloc: Global, source: &mut S) -> Result<Int, ReadError>
        ensures reads { Reads edif same integer result self.old self.new
            (S.supply source.old) (S.supply source.new) }
        ensures value { IfOk result IsInteger }
    {
        let Found { place, stop, token } = self.take(alloc, source)?;
        self.judged(place, stop, integer_of(token))
    }

    /// Takes a token: a `(` after which no keyword is due.
    pub fn begin_list<S: Source>(&mut self, alloc: Global, source: &mut S) -> Result<(), ReadError>
        ensures { Reads edif same opening result self.old self.new
            (S.supply source.old) (S.supply source.new) }
    {
        if let Some(mark) = self.held_mark() {
            if mark == b'(' {
                self.take_mark();
                return Ok(());
            }
        }
        self.begin_token(alloc, source)
    }

    /// Takes any token, which has to be `(`.
    #[inline(never)]
    fn begin_token<S: Source>(&mut self, alloc: Global, source: &mut S) -> Result<(), ReadError>
        ensures { Reads edif same opening result self.old self.new
            (S.supply source.old) (S.supply source.new) }
    {
        let Found { place, stop, token } = self.take(alloc, source)?;
        self.judged(place, stop, opening_of(token))
    }

    /// Takes a token: the `)` of a form or a list.
    #[inline(always)]
    pub fn finish_form<S: Source>(&mut self, alloc: Global, source: &mut S) -> Result<(), ReadError>
        ensures { Reads edif same closing result self.old self.new
            (S.supply source.old) (S.supply source.new) }
    {
        if let Some(mark) = self.held_mark() {
            if mark == b')' {
                self.take_mark();
                return Ok(());
            }
        }
        self.finish_token(alloc, source)
    }

    /// Takes any token, which has to be `)`.
    #[inline(never)]
    fn finish_token<S: Source>(&mut self, alloc: Global, source: &mut S) -> Result<(), ReadError>
        ensures { Reads edif same closing result self.old self.new
            (S.supply source.old) (S.supply source.new) }
    {
        let Found { place, stop, token } = self.take(alloc, source)?;
        self.judged(place, stop, closing_of(token))
    }

    /// Takes a token: the word NETLIST of a `viewType`, up to case.
    pub fn view_type<S: Source>(&mut self, alloc: Global, source: &mut S) -> Result<(), ReadError>
        ensures { Reads edif same view_type result self.old self.new
            (S.supply source.old) (S.supply source.new) }
    {
        let Found { place, stop, token } = self.take(alloc, source)?;
        self.judged(place, stop, view_type_of(token))
    }

    /// Takes one of some words, up to case, and answers its value. The words are no keywords and take no alias.
    pub fn choose<T: Copy, S: Source>(
        &mut self,
        alloc: Global,
        words: &[(&[u8], T)],
        source: &mut S,
    ) -> Result<T, ReadError>
        ensures { Reads edif same (choice (rows words.now)) result self.old self.new
            (S.supply source.old) (S.supply source.new) }
    {
        let Found { place, stop, token } = self.take(alloc, source)?;
        self.judged(place, stop, choice_of(words, token))
    }

    /// Takes `(` and one of the allowed keywords, by the aliases.
    #[inline(always)]
    pub fn begin<S: Source>(
        &mut self,
        alloc: Global,
        allowed: &[Keyword],
        source: &mut S,
    ) -> Result<Keyword, ReadError>
        ensures reads { Reads edif same (begin allowed.now) result self.old self.new
            (S.supply source.old) (S.supply source.new) }
        ensures allowed { IfOk result (λ q. has allowed.now q ≡ true) }
    {
        if let Some(open) = self.open_at() {
            if let Some(keyword) = find_shown(self.opened(open), allowed) {
                let at = FormAt {
                    space: open.space,
                    inner: open.inner,
                    count: spelling(keyword).len(),
                };
                self.take_form(at);
                return Ok(keyword);
            }
        }
        self.begin_up_to_case(alloc, allowed, source)
    }

    /// Takes `(` and one of the allowed keywords, by the aliases, whatever its spelling.
    #[inline(never)]
    fn begin_up_to_case<S: Source>(
        &mut self,
        alloc: Global,
        allowed: &[Keyword],
        source: &mut S,
    ) -> Result<Keyword, ReadError>
        ensures reads { Reads edif same (begin allowed.now) result self.old self.new
            (S.supply source.old) (S.supply source.new) }
        ensures allowed { IfOk result (λ q. has allowed.now q ≡ true) }
    {
        let at = self.form_at();
        if at.count > 0 {
            let word = self.form_word(at);
            if let Some(keyword) = find_allowed(word, allowed) {
                self.take_form(at);
                return Ok(keyword);
            }
        }
        self.begin_tokens(alloc, allowed, source)
    }

    /// Takes any two tokens, which have to be `(` and one of the allowed keywords, by the aliases.
    #[inline(never)]
    #[tactic(auto, using(readers::proofs::Reading::sequences), unfolding(crate::specs::Grammar::begin))]
    fn begin_tokens<S: Source>(
        &mut self,
        alloc: Global,
        allowed: &[Keyword],
        source: &mut S,
    ) -> Result<Keyword, ReadError>
        ensures reads { Reads edif same (begin allowed.now) result self.old self.new
            (S.supply source.old) (S.supply source.new) }
        ensures allowed { IfOk result (λ q. has allowed.now q ≡ true) }
    {
        self.begin_list(alloc, source)?;
        self.keyword(alloc, allowed, source)
    }

    /// Takes one of the allowed keywords, by the aliases.
    fn keyword<S: Source>(
        &mut self,
        alloc: Global,
        allowed: &[Keyword],
        source: &mut S,
    ) -> Result<Keyword, ReadError>
        ensures reads { Reads edif same (keyword allowed.now) result self.old self.new
            (S.supply source.old) (S.supply source.new) }
        ensures allowed { IfOk result (λ q. has allowed.now q ≡ true) }
    {
        let held = self.held_word();
        let count = held.len();
        if count > 0 {
            if let Some(keyword) = find_allowed(held, allowed) {
                self.take_word(count);
                return Ok(keyword);
            }
        }
        self.keyword_token(alloc, allowed, source)
    }

    /// Takes any token, which has to be one of the allowed keywords, by the aliases.
    #[inline(never)]
    fn keyword_token<S: Source>(
        &mut self,
        alloc: Global,
        allowed: &[Keyword],
        source: &mut S,
    ) -> Result<Keyword, ReadError>
        ensures reads { Reads edif same (keyword allowed.now) result self.old self.new
            (S.supply source.old) (S.supply source.new) }
        ensures allowed { IfOk result (λ q. has allowed.now q ≡ true) }
    {
        let Found { place, stop, token } = self.take(alloc, source)?;
        let said = keyword_of(allowed, &self.aliases, token);
        self.judged(place, stop, said)
    }
}
