ghost use Rattle.std.specs.Prelude.{◌≡◌, None, ◌==◌, [], ◌≤◌, ◌↔◌, map, zip, length, take, IfOk, OnOk, OnErr, IfNone, IfSome, IsSome, IsNone};
ghost use Rattle.std.specs.List.{list_all};
ghost use Rattle.nl_base.specs.Case.{same_bytes, small};
ghost use Rattle.edif_keywords.specs.declared.aliases.AliasFault.TheVariants.{NoMemory};
ghost use Rattle.edif_keywords.specs.Aliases.{alias_of, aliases_in, means, one_more};

use crate::find::find_keyword;
use edif_values::Keyword;
use indexmap::IndexMap;
use nl_base::{NoMemory, Text};
use std::alloc::Global;
use std::marker::Model;

/// The greatest number of bytes of a word in a text.
const WORD_LIMIT: usize = 1024;

/// Why a word does not become an alias.
#[derive(Drop)]
pub enum AliasFault {
    /// The alias already means a keyword.
    Clash,
    /// The known word means no keyword.
    Unknown,
    /// Memory ran out.
    NoMemory,
}

impl From<NoMemory> for AliasFault {
    ghost from_gives = { λ _ fault. fault ≡ NoMemory };

    fn from(_: NoMemory) -> Self {
        AliasFault::NoMemory
    }
}

/// The words that a text has made to mean keywords (EDIF 2 0 0, `keywordAlias`), which contracts see as the list of aliases in
/// their order. It keeps the allocator that it was made with.
#[derive(Drop)]
pub struct Aliases {
    alloc: Global,
    keywords: IndexMap<Vec<u8>, Keyword>,
}

impl Model for Aliases {
    ghost use Rattle.std.specs.Prelude.{List};
    ghost use Rattle.edif_keywords.specs.Aliases.{Alias, aliases_in};

    ghost Value = { List Alias };

    ghost view = { λ a. aliases_in a.keywords.entries };
}

/// The bytes with the capital letters made small.
fn small_bytes(alloc: Global, bytes: &[u8]) -> Result<Vec<u8>, NoMemory>
    ensures { IfOk result (λ made. made.items ≡ map small bytes.now) }
{
    match bytes
        .iter()
        .map(|byte| byte.to_ascii_lowercase())
        .collect(alloc)
    {
        Ok(made) => Ok(made),
        Err(_) => Err(NoMemory),
    }
}

/// Writes the bytes with the capital letters made small.
fn write_small(bytes: &[u8], out: &mut [u8])
    requires { length bytes.now ≤ length out.old }
    ensures { take (length bytes.now) out.new ≡ map small bytes.now }
{
    for (i, byte) in bytes.iter().enumerate() {
        out[i] = byte.to_ascii_lowercase();
    }
}

/// Whether a word is these bytes once its capital letters are made small.
fn is_small_of(letters: &[u8], word: &[u8]) -> bool
    ensures { result ≡ same_bytes (map small word.now) letters.now }
{
    letters.len() == word.len() && pairs_agree(letters, word)
}

fn pairs_agree(letters: &[u8], word: &[u8]) -> bool
    ensures { result ≡ list_all (λ pair. small pair.0 == pair.1) (zip word.now letters.now) }
{
    word.iter()
        .zip(letters)
        .all(|(byte, letter)| byte.to_ascii_lowercase() == *letter)
}

/// The keyword at a word made small; it compares the word with each alias, and serves words that are longer than those of a text.
fn find_letters(keywords: &IndexMap<Vec<u8>, Keyword>, word: &[u8]) -> Option<Keyword>
    ensures { result ≡ alias_of (aliases_in keywords.now.entries) word.now }
{
    for i in 0..keywords.len() {
        let Some((letters, keyword)) = keywords.get_index(i) else {
            return None;
        };
        if is_small_of(letters.as_slice(), word) {
            return Some(*keyword);
        }
    }
    None
}

impl Aliases {
    /// No aliases; it takes no memory.
    pub fn new(alloc: Global) -> Aliases
        ensures { result ≡ [] }
    {
        Aliases {
            alloc,
            keywords: IndexMap::new(alloc),
        }
    }

    /// The keyword that a word means: the one that is spelled so up to case, else that of the alias that is spelled so up to case.
    #[tactic(auto, unfolding(crate::specs::Aliases::means))]
    pub fn look(&self, word: &[u8]) -> Option<Keyword>
        ensures { result ≡ means self.now word.now }
    {
        match find_keyword(word) {
            Some(keyword) => Some(keyword),
            None => self.alias(word),
        }
    }

    /// Adds an alias that means what the known word means. Refused, the table is unchanged.
    pub fn add(&mut self, alias: Text, known: &[u8]) -> Result<(), AliasFault>
        ensures clash { (result ≡ Err AliasFault.Clash) ↔ IsSome (means self.old alias) }
        ensures unknown { (result ≡ Err AliasFault.Unknown)
            ↔ (IsNone (means self.old alias) × IsNone (means self.old known.now)) }
        ensures added { OnOk result
            (IfSome (means self.old known.now) (λ keyword. self.new
            ≡ one_more self.old alias keyword)) }
        ensures unchanged { OnErr result (self.new ≡ self.old) }
    {
        if self.look(alias.bytes()).is_some() {
            return Err(AliasFault::Clash);
        }
        let Some(keyword) = self.look(known) else {
            return Err(AliasFault::Unknown);
        };
        self.insert(alias.bytes(), keyword)?;
        Ok(())
    }

    /// Makes a word that means nothing mean a keyword. Where memory runs out the table is unchanged.
    pub(crate) fn insert(&mut self, alias: &[u8], keyword: Keyword) -> Result<(), NoMemory>
        requires { means self.old alias.now ≡ None }
        ensures added { OnOk result (self.new ≡ one_more self.old alias.now keyword) }
        ensures unchanged { OnErr result (self.new ≡ self.old) }
    {
        let letters = small_bytes(self.alloc, alias)?;
        self.keywords.insert(letters, keyword)?;
        Ok(())
    }

    /// The keyword of the alias that is spelled so, up to case.
    fn alias(&self, word: &[u8]) -> Option<Keyword>
        ensures { result ≡ alias_of self.now word.now }
    {
        if self.keywords.is_empty() {
            return None;
        }
        if word.len() > WORD_LIMIT {
            return find_letters(&self.keywords, word);
        }
        let mut letters = [0; WORD_LIMIT];
        write_small(word, &mut letters);
        self.keywords.get(&letters[..word.len()]).copied()
    }
}
