// The header of a file: its version, its level and its keyword map.
ghost use Rattle.std.specs.Prelude.{◌≡◌, pos, None, IfOk, IsFalse};
ghost use Rattle.grammar.specs.Part.{sequence};
ghost use Rattle.readers.specs.Readers.{same, Reads, ReadsContext, Changes};
ghost use Rattle.edif_keywords.specs.Language.{edif};
ghost use Rattle.edif_keywords.specs.Aliases.{means, one_more};
ghost use Rattle.edif_keywords.specs.Grammar.{opening, version_number, version, level_number, level, keyword_level_number, keyword_level, new_word, known_word, alias, map_keywords, map_keyword, map_form, map_item, map_items, keyword_map, header};

use crate::comment::read_comment;
use crate::cursor::Cursor;
use crate::reasons::{
    keyword_level_of, known_word_of, level_of, map_keyword_of, new_word_of, version_of,
};
use edif_tokens::Found;
use edif_values::{Keyword, same_keyword};
use nl_base::{Ident, ReadError};
use nl_io::Source;
use std::alloc::Global;

impl Cursor {
    /// Takes `edifVersion`, `edifLevel` and `keywordMap`, and keeps the aliases. An alias works from its `)` on.
    #[tactic(auto, using(readers::proofs::Reading::sequences), unfolding(crate::specs::Grammar::header))]
    pub fn header<S: Source>(&mut self, alloc: Global, source: &mut S) -> Result<(), ReadError>
        ensures { ReadsContext edif (header self.old.context) result self.old self.new
            (S.supply source.old) (S.supply source.new) }
    {
        self.version(alloc, source)?;
        self.level(alloc, source)?;
        self.keyword_map(alloc, source)
    }

    #[tactic(auto, using(readers::proofs::Reading::sequences), unfolding(crate::specs::Grammar::version))]
    fn version<S: Source>(&mut self, alloc: Global, source: &mut S) -> Result<(), ReadError>
        ensures { Reads edif same version result self.old self.new
            (S.supply source.old) (S.supply source.new) }
    {
        self.begin(alloc, &[Keyword::EdifVersion], source)?;
        self.version_number(alloc, 2, source)?;
        self.version_number(alloc, 0, source)?;
        self.version_number(alloc, 0, source)?;
        self.finish_form(alloc, source)
    }

    fn version_number<S: Source>(
        &mut self,
        alloc: Global,
        due: u8,
        source: &mut S,
    ) -> Result<(), ReadError>
        ensures { Reads edif same (version_number (pos due)) result self.old self.new
            (S.supply source.old) (S.supply source.new) }
    {
        let Found { place, stop, token } = self.take(alloc, source)?;
        self.judged(place, stop, version_of(due, token))
    }

    /// Takes `edifLevel`, which is 0.
    #[tactic(auto, using(readers::proofs::Reading::sequences), unfolding(crate::specs::Grammar::level))]
    pub fn level<S: Source>(&mut self, alloc: Global, source: &mut S) -> Result<(), ReadError>
        ensures { Reads edif same level result self.old self.new
            (S.supply source.old) (S.supply source.new) }
    {
        self.begin(alloc, &[Keyword::EdifLevel], source)?;
        self.level_number(alloc, source)?;
        self.finish_form(alloc, source)
    }

    fn level_number<S: Source>(&mut self, alloc: Global, source: &mut S) -> Result<(), ReadError>
        ensures { Reads edif same level_number result self.old self.new
            (S.supply source.old) (S.supply source.new) }
    {
        let Found { place, stop, token } = self.take(alloc, source)?;
        self.judged(place, stop, level_of(token))
    }

    /// Whether the keyword level has aliases.
    #[tactic(auto, using(readers::proofs::Reading::sequences), unfolding(crate::specs::Grammar::keyword_level))]
    fn keyword_level<S: Source>(&mut self, alloc: Global, source: &mut S) -> Result<bool, ReadError>
        ensures { Reads edif same keyword_level result self.old self.new
            (S.supply source.old) (S.supply source.new) }
    {
        self.begin(alloc, &[Keyword::KeywordLevel], source)?;
        let with_aliases = self.keyword_level_number(alloc, source)?;
        self.finish_form(alloc, source)?;
        Ok(with_aliases)
    }

    fn keyword_level_number<S: Source>(
        &mut self,
        alloc: Global,
        source: &mut S,
    ) -> Result<bool, ReadError>
        ensures { Reads edif same keyword_level_number result self.old self.new
            (S.supply source.old) (S.supply source.new) }
    {
        let Found { place, stop, token } = self.take(alloc, source)?;
        self.judged(place, stop, keyword_level_of(token))
    }

    #[tactic(auto, using(readers::proofs::Reading::sequences), unfolding(crate::specs::Grammar::keyword_map))]
    fn keyword_map<S: Source>(&mut self, alloc: Global, source: &mut S) -> Result<(), ReadError>
        ensures { ReadsContext edif (keyword_map self.old.context) result self.old self.new
            (S.supply source.old) (S.supply source.new) }
    {
        self.begin(alloc, &[Keyword::KeywordMap], source)?;
        let with_aliases = self.keyword_level(alloc, source)?;
        self.map_items(alloc, with_aliases, source)
    }

    #[tactic(auto, using(crate::proofs::Maps::map_loops))]
    fn map_items<S: Source>(
        &mut self,
        alloc: Global,
        with_aliases: bool,
        source: &mut S,
    ) -> Result<(), ReadError>
        ensures { ReadsContext edif
            (map_items with_aliases self.old.context) result self.old self.new
            (S.supply source.old) (S.supply source.new) }
    {
        while self.at_form(alloc, source)? {
            self.map_item(alloc, with_aliases, source)?;
        }
        self.finish_form(alloc, source)
    }

    /// An alias or a comment, from its `(` on.
    #[tactic(auto, using(readers::proofs::Reading::sequences), unfolding(crate::specs::Grammar::map_item))]
    fn map_item<S: Source>(
        &mut self,
        alloc: Global,
        with_aliases: bool,
        source: &mut S,
    ) -> Result<(), ReadError>
        ensures { ReadsContext edif
            (sequence opening
            (λ _. map_item with_aliases self.old.context)) result self.old self.new
            (S.supply source.old) (S.supply source.new) }
    {
        self.begin_list(alloc, source)?;
        let keyword = self.map_keyword(alloc, with_aliases, source)?;
        self.map_form(alloc, same_keyword(keyword, Keyword::KeywordAlias), source)
    }

    fn map_keyword<S: Source>(
        &mut self,
        alloc: Global,
        with_aliases: bool,
        source: &mut S,
    ) -> Result<Keyword, ReadError>
        ensures { Reads edif same (map_keyword with_aliases) result self.old self.new
            (S.supply source.old) (S.supply source.new) }
    {
        let Found { place, stop, token } = self.take(alloc, source)?;
        let said = map_keyword_of(map_keywords(with_aliases), &self.aliases, token);
        self.judged(place, stop, said)
    }

    #[tactic(auto, using(readers::proofs::Reading::sequences))]
    fn map_form<S: Source>(
        &mut self,
        alloc: Global,
        is_alias: bool,
        source: &mut S,
    ) -> Result<(), ReadError>
        ensures { ReadsContext edif (map_form self.old.context is_alias) result self.old self.new
            (S.supply source.old) (S.supply source.new) }
    {
        if is_alias {
            return self.alias(alloc, source);
        }
        read_comment(alloc, self, source)?;
        Ok(())
    }

    #[tactic(auto, using(readers::proofs::Reading::sequences), unfolding(crate::specs::Grammar::alias))]
    fn alias<S: Source>(&mut self, alloc: Global, source: &mut S) -> Result<(), ReadError>
        ensures { ReadsContext edif (alias self.old.context) result self.old self.new
            (S.supply source.old) (S.supply source.new) }
    {
        let word = self.new_word(alloc, source)?;
        let keyword = self.known_word(alloc, source)?;
        self.finish_form(alloc, source)?;
        self.add_alias(&word, keyword)
    }

    fn new_word<S: Source>(&mut self, alloc: Global, source: &mut S) -> Result<Ident, ReadError>
        ensures reads { Reads edif same new_word result self.old self.new
            (S.supply source.old) (S.supply source.new) }
        ensures unused { IfOk result (λ word. means self.old.context word ≡ None) }
    {
        let Found { place, stop, token } = self.take(alloc, source)?;
        let said = new_word_of(&self.aliases, token);
        self.judged(place, stop, said)
    }

    fn known_word<S: Source>(&mut self, alloc: Global, source: &mut S) -> Result<Keyword, ReadError>
        ensures { Reads edif same known_word result self.old self.new
            (S.supply source.old) (S.supply source.new) }
    {
        let Found { place, stop, token } = self.take(alloc, source)?;
        let said = known_word_of(&self.aliases, token);
        self.judged(place, stop, said)
    }

    /// Makes a word that means nothing mean a keyword.
    fn add_alias(&mut self, word: &Ident, keyword: Keyword) -> Result<(), ReadError>
        requires live { IsFalse self.old.spent }
        requires unused { means self.old.context word.now ≡ None }
        ensures { Changes (one_more self.old.context word.now keyword) result self.old self.new }
    {
        match self.aliases.insert(word.bytes(), keyword) {
            Ok(()) => Ok(()),
            Err(_) => Err(self.no_memory()),
        }
    }
}

/// The keywords that may stand in a keyword map.
fn map_keywords(with_aliases: bool) -> &'static [Keyword]
    ensures { result.now ≡ map_keywords with_aliases }
{
    if with_aliases {
        return &[Keyword::KeywordAlias, Keyword::Comment];
    }
    &[Keyword::Comment]
}
