// The options behind a command's word.
ghost use Rattle.std.specs.Prelude.{◌≡◌, IfOk};
ghost use Rattle.netlist_words.specs.Lent.{lent_option};
ghost use Rattle.netlist_words.specs.Parsing.{are_options, behind_option, is_option, option_value, values_of};

use nl_base::{NoMemory, Seq, Text};
use std::alloc::Global;

/// The value of an option, where words begin with it, and the words behind it.
#[derive(Clone, Copy)]
pub struct Taken<'a> {
    pub value: Option<&'a [u8]>,
    pub rest: &'a [Text],
}

/// Whether a word is the name of this option, and the word behind it a value, which is not empty.
fn is_option(name: &[u8], word: &[u8], value: &[u8]) -> bool
    ensures { result ≡ is_option name.now word.now value.now }
{
    word == name && !value.is_empty()
}

/// Takes the option of this name from the front of words, where they begin with it.
pub fn take_option<'a>(name: &[u8], words: &'a [Text]) -> Taken<'a>
    ensures value { lent_option result.value ≡ option_value name.now words.now }
    ensures rest { result.rest.now ≡ behind_option name.now words.now }
{
    if let [word, value, rest @ ..] = words {
        if is_option(name, word.bytes(), value.bytes()) {
            return Taken {
                value: Some(value.bytes()),
                rest,
            };
        }
    }
    Taken {
        value: None,
        rest: words,
    }
}

/// Whether words are the option of this name and a value, any number of times.
pub fn are_options(name: &[u8], words: &[Text]) -> bool
    ensures { result ≡ are_options name.now words.now }
{
    let mut left = words;
    while let [word, value, rest @ ..] = left {
        if !is_option(name, word.bytes(), value.bytes()) {
            return false;
        }
        left = rest;
    }
    left.is_empty()
}

/// The values of words that are options with values, in their order.
pub fn values_of(alloc: Global, words: &[Text]) -> Result<Seq<Text>, NoMemory>
    ensures { IfOk result (λ values. values ≡ values_of words.now) }
{
    let mut values = Seq::empty(alloc);
    let mut left = words;
    while let [_, value, rest @ ..] = left {
        let value = Text::copy(alloc, value.bytes())?;
        values.push(value)?;
        left = rest;
    }
    Ok(values)
}

/// A copy of the value of an option, where there is one.
pub fn copied(alloc: Global, value: Option<&[u8]>) -> Result<Option<Text>, NoMemory>
    ensures { IfOk result (λ text. text ≡ lent_option value.entry) }
{
    match value {
        None => Ok(None),
        Some(bytes) => {
            let text = Text::copy(alloc, bytes)?;
            Ok(Some(text))
        }
    }
}
