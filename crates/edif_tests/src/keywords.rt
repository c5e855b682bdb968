// Keywords, aliases, and the calls of a cursor.
ghost use Rattle.std.specs.Prelude.{IsFalse};

use crate::given::source_of;
use edif_keywords::{AliasFault, Aliases, Cursor, Keyword, find_keyword, read_comment, spelling};
use edif_tokens::{Token, Tokens};
use nl_base::{ReadError, Reason, Seq, Text};
use nl_io::MemSource;
use std::alloc::Global;
use std::test::Fail;

#[test]
fn words_are_keywords_up_to_case(rt: HostRuntime) {
    for (word, found) in [
        (b"cellRef".as_slice(), Some(b"cellRef".as_slice())),
        (b"LIBRARYREF", Some(b"libraryRef")),
        (b"NetBundle", Some(b"netBundle")),
        (b"e", Some(b"e")),
        (b"cell_ref", None),
        (b"netlist", None),
        (b"", None),
    ] {
        match find_keyword(word) {
            Some(keyword) => assert_eq!(rt; Some(spelling(keyword)), found),
            None => assert!(rt; found.is_none()),
        }
    }
}

/// How the addition of an alias ends.
#[derive(Clone, Copy, Debug, PartialEq, Eq)]
enum Added {
    Well,
    Clash,
    Unknown,
    NoMemory,
}

fn ending_of(aliases: &mut Aliases, alias: Text, known: &[u8]) -> Added {
    match aliases.add(alias, known) {
        Ok(()) => Added::Well,
        Err(AliasFault::Clash) => Added::Clash,
        Err(AliasFault::Unknown) => Added::Unknown,
        Err(AliasFault::NoMemory) => Added::NoMemory,
    }
}

#[test]
fn aliases_mean_keywords(rt: HostRuntime) -> Result<(), Fail> {
    let mut aliases = Aliases::new(rt.alloc());
    for (alias, known, ends) in [
        (b"Kc".as_slice(), b"CELL".as_slice(), Added::Well),
        (b"kd", b"kC", Added::Well),
        (b"KD", b"net", Added::Clash),
        (b"netbundle", b"sell", Added::Clash),
        (b"ke", b"sell", Added::Unknown),
    ] {
        let alias = Text::copy(rt.alloc(), alias)?;
        assert_eq!(rt; ending_of(&mut aliases, alias, known), ends);
    }
    assert!(rt; aliases.look(b"KD") == Some(Keyword::Cell));
    assert!(rt; aliases.look(b"cell") == Some(Keyword::Cell));
    assert!(rt; aliases.look(b"ke").is_none());
    Ok(())
}

/// What a word of so many letters means, where 2,000 of them are an alias.
fn meaning_of_letters(alloc: Global, count: usize) -> Result<Option<Keyword>, Fail> {
    let mut aliases = Aliases::new(alloc);
    let alias = Text::of(alloc, vec![in alloc; b'A'; 2000]?)?;
    let _ = ending_of(&mut aliases, alias, b"net");
    let word = vec![in alloc; b'a'; count]?;
    Ok(aliases.look(word.as_slice()))
}

#[test]
fn long_words_may_be_aliases(rt: HostRuntime) -> Result<(), Fail> {
    assert!(rt; meaning_of_letters(rt.alloc(), 2000)? == Some(Keyword::Net));
    assert!(rt; meaning_of_letters(rt.alloc(), 1999)?.is_none());
    Ok(())
}

fn is_well(ended: Result<(), ReadError>) -> bool {
    match ended {
        Ok(()) => true,
        Err(_) => false,
    }
}

fn is_true(ended: Result<bool, ReadError>) -> bool {
    match ended {
        Ok(value) => value,
        Err(_) => false,
    }
}

/// Whether the next token is this word.
fn takes_word(alloc: Global, cursor: &mut Cursor, source: &mut MemSource, word: &[u8]) -> bool {
    match cursor.word(alloc, source) {
        Ok(taken) => taken.bytes() == word,
        Err(_) => false,
    }
}

/// Whether the next token is this number.
fn takes_int(alloc: Global, cursor: &mut Cursor, source: &mut MemSource, number: i64) -> bool {
    match cursor.int(alloc, source) {
        Ok(taken) => taken.value() == number,
        Err(_) => false,
    }
}

/// Whether the next token is this string.
fn takes_string(alloc: Global, cursor: &mut Cursor, source: &mut MemSource, text: &[u8]) -> bool {
    match cursor.string(alloc, source) {
        Ok(taken) => taken.bytes() == text,
        Err(_) => false,
    }
}

/// Whether `(port -7 "a")` is taken token by token.
fn takes_tokens(alloc: Global, cursor: &mut Cursor, source: &mut MemSource) -> bool {
    is_well(cursor.begin_list(alloc, source))
        && takes_word(alloc, cursor, source, b"port")
        && takes_int(alloc, cursor, source, -7)
        && takes_string(alloc, cursor, source, b"a")
        && is_well(cursor.finish_form(alloc, source))
        && is_well(cursor.end_of_input(alloc, source))
}

/// Whether the form that comes next is a comment of the strings `a` and `b`.
fn takes_comment(alloc: Global, cursor: &mut Cursor, source: &mut MemSource) -> bool {
    match cursor.begin(alloc, &[Keyword::UserData, Keyword::Comment], source) {
        Ok(Keyword::Comment) => {}
        _ => return false,
    }
    match read_comment(alloc, cursor, source) {
        Ok(texts) => match texts.items() {
            [first, second] => {
                first.bytes() == b"a".as_slice() && second.bytes() == b"b".as_slice()
            }
            _ => false,
        },
        Err(_) => false,
    }
}

/// Whether `output netlist (` is taken by the calls that choose, up to the `(`, which is seen and left.
fn takes_choices(alloc: Global, cursor: &mut Cursor, source: &mut MemSource) -> bool {
    let words = [(b"INPUT".as_slice(), 1), (b"OUTPUT".as_slice(), 2)];
    match cursor.choose(alloc, &words, source) {
        Ok(2) => {}
        _ => return false,
    }
    is_well(cursor.view_type(alloc, source))
        && is_true(cursor.at_form(alloc, source))
        && is_true(cursor.look(alloc, source))
        && sees_paren(cursor)
}

/// Whether the next token is a `(` that is seen.
fn sees_paren(cursor: &Cursor) -> bool {
    match cursor.ahead() {
        Some(found) => matches!(&found.token, Token::LeftParen),
        None => false,
    }
}

/// Whether a number is added to a list, and a string is seen.
fn adds_and_sees(alloc: Global, cursor: &mut Cursor, source: &mut MemSource) -> bool
    requires { IsFalse cursor.old.spent }
{
    let mut numbers = Seq::empty(alloc);
    is_well(cursor.add(&mut numbers, 5_u32))
        && numbers.items() == [5].as_slice()
        && is_true(cursor.at_string(alloc, source))
}

/// Whether the token that is seen is refused at line 2, column 2, with the stop 5, and the cursor is spent then.
fn refuses_token(alloc: Global, cursor: &mut Cursor, source: &mut MemSource) -> bool {
    if !is_true(cursor.look(alloc, source)) || cursor.ahead().is_none() {
        return false;
    }
    let ReadError::Text(fault) = cursor.refuse(Reason::TooDeep) else {
        return false;
    };
    let place = (fault.place.line, fault.place.column, fault.stop);
    place == (2, 2, 5) && is_spent(alloc, cursor, source)
}

fn is_spent(alloc: Global, cursor: &mut Cursor, source: &mut MemSource) -> bool {
    match cursor.string(alloc, source) {
        Err(ReadError::Spent) => true,
        _ => false,
    }
}

/// The steps that a cursor goes on a text.
#[derive(Clone, Copy, PartialEq, Eq)]
enum Steps {
    Tokens,
    HeaderAndComment,
    Choices,
    List,
    Refusal,
}

/// Whether a text can be taken in these steps.
fn is_taken(alloc: Global, source: &mut MemSource, steps: Steps) -> bool {
    let Ok(tokens) = Tokens::new(alloc) else {
        return false;
    };
    let mut cursor = Cursor::new(alloc, tokens);
    match steps {
        Steps::Tokens => takes_tokens(alloc, &mut cursor, source),
        Steps::HeaderAndComment => {
            is_well(cursor.header(alloc, source)) && takes_comment(alloc, &mut cursor, source)
        }
        Steps::Choices => takes_choices(alloc, &mut cursor, source),
        Steps::List => adds_and_sees(alloc, &mut cursor, source),
        Steps::Refusal => refuses_token(alloc, &mut cursor, source),
    }
}

#[test]
fn calls_of_a_cursor(rt: HostRuntime) -> Result<(), Fail> {
    for (text, steps) in [
        (b"(port -7 \"a\")".as_slice(), Steps::Tokens),
        (
            b"(edifversion 2 0 0)(EDIFLEVEL -0)(keywordMap(keywordLevel 1)(keywordAlias ka keywordAlias)(comment)(KA c Comment)(C \"x\"))(c \"a\" \"b\")",
            Steps::HeaderAndComment,
        ),
        (b"output netlist (", Steps::Choices),
        (b"\"s\"", Steps::List),
        (b"\n \"s\"", Steps::Refusal),
    ] {
        let mut source = source_of(rt.alloc(), text)?;
        assert!(rt; is_taken(rt.alloc(), &mut source, steps));
    }
    Ok(())
}
