// What a token says at its place, or the reason for which it may not stand there, in the order of the definitions in specs/Reasons.antt.
ghost use Rattle.std.specs.Prelude.{◌≡◌, pos};
ghost use Rattle.edif_keywords.specs.Reasons as say;

use crate::aliases::Aliases;
use edif_values::{Keyword, Token, is_among, same_keyword};
use nl_base::{Ident, Int, Reason, Text, fold_eq};

/// In `edifVersion`, the number that is due.
pub(crate) fn version_of(due: u8, token: Token) -> Result<(), Reason>
    ensures { result ≡ say.version_of (pos due) token }
{
    let Token::Number(number) = token else {
        return Err(Reason::Unexpected);
    };
    if number.value() == i64::from(due) {
        return Ok(());
    }
    Err(Reason::Version)
}

/// In `edifLevel`, 0.
pub(crate) fn level_of(token: Token) -> Result<(), Reason>
    ensures { result ≡ say.level_of token }
{
    let Token::Number(number) = token else {
        return Err(Reason::Unexpected);
    };
    if number.value() == 0 {
        return Ok(());
    }
    Err(Reason::Level)
}

/// In `keywordLevel`, whether the level has aliases.
pub(crate) fn keyword_level_of(token: Token) -> Result<bool, Reason>
    ensures { result ≡ say.keyword_level_of token }
{
    let Token::Number(number) = token else {
        return Err(Reason::Unexpected);
    };
    if number.value() == 0 {
        return Ok(false);
    }
    if number.value() == 1 {
        return Ok(true);
    }
    Err(Reason::KeywordLevel)
}

/// In `viewType`, NETLIST.
pub(crate) fn view_type_of(token: Token) -> Result<(), Reason>
    ensures { result ≡ say.view_type_of token }
{
    let Token::Word(word) = token else {
        return Err(Reason::Unexpected);
    };
    if fold_eq(word.bytes(), b"NETLIST") {
        return Ok(());
    }
    Err(Reason::ViewType(word.into_text()))
}

/// The first word of an alias, which means no keyword yet.
pub(crate) fn new_word_of(aliases: &Aliases, token: Token) -> Result<Ident, Reason>
    ensures { result ≡ say.new_word_of aliases.now token }
{
    let Token::Word(word) = token else {
        return Err(Reason::Unexpected);
    };
    match aliases.look(word.bytes()) {
        None => Ok(word),
        Some(_) => Err(Reason::AliasClash),
    }
}

/// The second word of an alias, which means a keyword.
pub(crate) fn known_word_of(aliases: &Aliases, token: Token) -> Result<Keyword, Reason>
    ensures { result ≡ say.known_word_of aliases.now token }
{
    let Token::Word(word) = token else {
        return Err(Reason::Unexpected);
    };
    match aliases.look(word.bytes()) {
        Some(keyword) => Ok(keyword),
        None => Err(Reason::AliasUnknown),
    }
}

/// After `(`, one of the allowed keywords.
pub(crate) fn keyword_of(
    allowed: &[Keyword],
    aliases: &Aliases,
    token: Token,
) -> Result<Keyword, Reason>
    ensures { result ≡ say.keyword_of allowed.now aliases.now token }
{
    let Token::Word(word) = token else {
        return Err(Reason::Unexpected);
    };
    let Some(keyword) = aliases.look(word.bytes()) else {
        return Err(Reason::UnknownWord(word.into_text()));
    };
    if is_among(allowed, keyword) {
        return Ok(keyword);
    }
    Err(Reason::NotInProfile(word.into_text()))
}

/// The same in a `keywordMap`, where an alias is refused by its level.
pub(crate) fn map_keyword_of(
    allowed: &[Keyword],
    aliases: &Aliases,
    token: Token,
) -> Result<Keyword, Reason>
    ensures { result ≡ say.map_keyword_of allowed.now aliases.now token }
{
    let Token::Word(word) = token else {
        return Err(Reason::Unexpected);
    };
    let Some(meant) = aliases.look(word.bytes()) else {
        let text = word.into_text();
        return Err(Reason::UnknownWord(text));
    };
    if is_among(allowed, meant) {
        return Ok(meant);
    }
    if same_keyword(meant, Keyword::KeywordAlias) {
        return Err(Reason::KeywordLevel);
    }
    let text = word.into_text();
    Err(Reason::NotInProfile(text))
}

/// A word.
pub(crate) fn word_of(token: Token) -> Result<Ident, Reason>
    ensures { result ≡ say.word_of token }
{
    let Token::Word(word) = token else {
        return Err(Reason::Unexpected);
    };
    Ok(word)
}

/// A string.
pub(crate) fn string_of(token: Token) -> Result<Text, Reason>
    ensures { result ≡ say.string_of token }
{
    let Token::Str(text) = token else {
        return Err(Reason::Unexpected);
    };
    Ok(text)
}

/// An integer.
pub(crate) fn integer_of(token: Token) -> Result<Int, Reason>
    ensures { result ≡ say.integer_of token }
{
    let Token::Number(number) = token else {
        return Err(Reason::Unexpected);
    };
    Ok(number)
}

/// `(`.
pub(crate) fn opening_of(token: Token) -> Result<(), Reason>
    ensures { result ≡ say.opening_of token }
{
    let Token::LeftParen = token else {
        return Err(Reason::Unexpected);
    };
    Ok(())
}

/// `)`.
pub(crate) fn closing_of(token: Token) -> Result<(), Reason>
    ensures { result ≡ say.closing_of token }
{
    let Token::RightParen = token else {
        return Err(Reason::Unexpected);
    };
    Ok(())
}

/// One of some words, up to case, for its value.
pub(crate) fn choice_of<T: Copy>(words: &[(&[u8], T)], token: Token) -> Result<T, Reason>
    ensures { result ≡ say.choice_of (say.rows words.now) token }
{
    let Token::Word(word) = token else {
        return Err(Reason::Unexpected);
    };
    match meant_by(words, word.bytes()) {
        Some(value) => Ok(value),
        None => Err(Reason::Unexpected),
    }
}

/// The value of the first of some words that is this one up to case.
#[tactic(auto, unfolding(crate::specs::Reasons::meant_by))]
fn meant_by<T: Copy>(words: &[(&[u8], T)], word: &[u8]) -> Option<T>
    ensures { result ≡ say.meant_by (say.rows words.now) word.now }
{
    for (spelling, value) in words {
        if fold_eq(word, spelling) {
            return Some(*value);
        }
    }
    None
}
