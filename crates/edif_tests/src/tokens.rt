// Tokens, their places and their faults, in pieces of any size.
ghost use Rattle.std.specs.Prelude.{◌≡◌, ◌<◌, None, length};
ghost use Rattle.std.specs.Io.{ReadsAtMost};
ghost use Rattle.std.specs.Io.KnownBytes.{ReadConsumes};
ghost use Rattle.nl_io.specs.Causes.{HasCause};
ghost use Rattle.nl_io.specs.Sources.{left_past, count_of};

use crate::given::{source_of, source_of_bytes};
use edif_tokens::{Found, Token, Tokens};
use nl_base::{ReadError, TextFault};
use nl_io::{Failed, MemSource, Source};
use std::alloc::Global;
use std::test::Fail;

/// A source of blanks that never ends.
#[derive(Drop)]
struct Blanks;

impl Source for Blanks {
    ghost supply = { λ _. record { left = None; faults = 0 } };

    fn take(&mut self, buf: &mut [u8]) -> Result<usize, Failed>
        requires { 0 < length buf.old }
        ensures bound { ReadsAtMost result buf.new }
        ensures bytes { ReadConsumes None None result buf.new }
        ensures left { None ≡ left_past (count_of result) None }
        ensures cause { HasCause 0 0 result }
    {
        buf.fill(b' ');
        Ok(buf.len())
    }
}

/// A place and a stop: offset, line, column and stop.
type Where = (u64, u64, u64, u64);

/// A text in one piece or byte by byte.
fn source_in(alloc: Global, text: &[u8], whole: bool) -> Result<MemSource, Fail> {
    if whole {
        return source_of(alloc, text);
    }
    source_of_bytes(alloc, text)
}

/// The kind of a token, its bytes and its number.
fn parts(token: &Token) -> (u8, &[u8], i64) {
    match token {
        Token::LeftParen => (b'(', b"", 0),
        Token::RightParen => (b')', b"", 0),
        Token::Word(word) => (b'w', word.bytes(), 0),
        Token::Number(number) => (b'n', b"", number.value()),
        Token::Str(text) => (b's', text.bytes(), 0),
    }
}

/// Where a token stands, if it has this kind, these bytes and this number.
fn where_found(found: &Found, kind: u8, bytes: &[u8], number: i64) -> Option<Where> {
    if parts(&found.token) != (kind, bytes, number) {
        return None;
    }
    let place = found.place;
    Some((place.offset, place.line, place.column, found.stop))
}

/// Where the next token stands, if it has this kind, these bytes and this number.
fn where_next(
    alloc: Global,
    tokens: &mut Tokens,
    source: &mut MemSource,
    kind: u8,
    bytes: &[u8],
    number: i64,
) -> Option<Where> {
    match tokens.next(alloc, source) {
        Ok(Some(found)) => where_found(&found, kind, bytes, number),
        _ => None,
    }
}

/// Whether the reader has come to the end.
fn has_ended(alloc: Global, tokens: &mut Tokens, source: &mut MemSource) -> bool {
    match tokens.next(alloc, source) {
        Ok(None) => tokens.here().offset == 49 && !tokens.is_spent(),
        _ => false,
    }
}

const TOKENS: &[u8] = b"(net &1a\n \"a%65 066%b\" \"\")+7 -9223372036854775807";

/// Whether that text has these tokens and then its end, and that again.
fn has_tokens(alloc: Global, source: &mut MemSource) -> bool {
    let Ok(mut tokens) = Tokens::new(alloc) else {
        return false;
    };
    for (place, kind, bytes, number) in [
        ((0, 1, 1, 1), b'(', b"".as_slice(), 0),
        ((1, 1, 2, 5), b'w', b"net", 0),
        ((5, 1, 6, 9), b'w', b"&1a", 0),
        ((10, 2, 2, 22), b's', b"aABb", 0),
        ((23, 2, 15, 25), b's', b"", 0),
        ((25, 2, 17, 26), b')', b"", 0),
        ((26, 2, 18, 29), b'n', b"", 7),
        ((29, 2, 21, 49), b'n', b"", -9_223_372_036_854_775_807),
    ] {
        if where_next(alloc, &mut tokens, source, kind, bytes, number) != Some(place) {
            return false;
        }
    }
    has_ended(alloc, &mut tokens, source) && has_ended(alloc, &mut tokens, source)
}

#[test]
fn tokens_stand_in_any_pieces(rt: HostRuntime) -> Result<(), Fail> {
    for whole in [true, false] {
        let mut source = source_in(rt.alloc(), TOKENS, whole)?;
        assert!(rt; has_tokens(rt.alloc(), &mut source));
    }
    Ok(())
}

/// Where a fault stands, if it has this reason.
fn where_faulty(fault: &TextFault, reason: &[u8]) -> Option<Where> {
    if fault.reason.name() != reason {
        return None;
    }
    let place = fault.place;
    Some((place.offset, place.line, place.column, fault.stop))
}

/// Where the fault stands that one of the first two calls answers, if it has this reason.
fn fault_of(alloc: Global, source: &mut MemSource, reason: &[u8]) -> Option<Where> {
    let Ok(mut tokens) = Tokens::new(alloc) else {
        return None;
    };
    for _ in 0..2 {
        if let Err(ReadError::Text(fault)) = tokens.next(alloc, source) {
            return where_faulty(&fault, reason);
        }
    }
    None
}

#[test]
fn faults_stand_at_their_places(rt: HostRuntime) -> Result<(), Fail> {
    for (text, place, reason) in [
        (b"\"ab\n".as_slice(), (4, 2, 1, 4), b"EndOfInput".as_slice()),
        (b"\"%1", (3, 1, 4, 3), b"EndOfInput"),
        (b"+", (1, 1, 2, 1), b"EndOfInput"),
        (b"&", (1, 1, 2, 1), b"EndOfInput"),
        (b" \r\n\t#", (4, 2, 2, 5), b"BadByte"),
        (b"+ 5", (1, 1, 2, 2), b"BadByte"),
        (b"&-", (1, 1, 2, 2), b"BadByte"),
        (b"a b#", (3, 1, 4, 4), b"BadByte"),
        (b"12a", (2, 1, 3, 3), b"BadByte"),
        (b"99999999999999999999x", (20, 1, 21, 21), b"BadByte"),
        (b"\"a\x7f", (2, 1, 3, 3), b"BadByte"),
        (b"\"a% %", (2, 1, 3, 5), b"BadEscape"),
        (b"\"%1\x01", (1, 1, 2, 4), b"BadEscape"),
        (b"\"%255 256%", (1, 1, 2, 9), b"BadEscape"),
        (b"9223372036854775808 ", (0, 1, 1, 20), b"NumberRange"),
        (b"-9223372036854775808", (0, 1, 1, 20), b"NumberRange"),
    ] {
        for whole in [true, false] {
            let mut source = source_in(rt.alloc(), text, whole)?;
            assert_eq!(rt; fault_of(rt.alloc(), &mut source, reason), Some(place));
        }
    }
    Ok(())
}

/// A byte, then another up to so many bytes, then some more.
fn long_source(
    alloc: Global,
    first: u8,
    byte: u8,
    count: usize,
    rest: &[u8],
) -> Result<MemSource, Fail> {
    let mut text = vec![in alloc; first; 1]?;
    text.resize(count, byte)?;
    text.extend_from_slice(rest)?;
    let pieces = vec![in alloc; text]?;
    Ok(MemSource::new(pieces, Vec::new(alloc)))
}

/// The stop of the fault of a token that is too long.
fn stop_of(alloc: Global, source: &mut MemSource) -> Option<u64> {
    match fault_of(alloc, source, b"TokenTooLong") {
        Some((_, _, _, stop)) => Some(stop),
        None => None,
    }
}

#[test]
fn tokens_have_limits(rt: HostRuntime) -> Result<(), Fail> {
    for (first, byte, count, rest, stop) in [
        (b'&', b'_', 1024, b"".as_slice(), None),
        (b'&', b'_', 1025, b"", Some(1025)),
        (b'-', b'0', 1024, b"", None),
        (b'-', b'0', 1025, b"", Some(1025)),
        (b'"', b'\n', 1_048_577, b"\"", None),
        (b'"', b'\n', 1_048_578, b"\"", Some(1_048_578)),
        (b'"', b'\n', 1_048_577, b"%65%\"", Some(1_048_580)),
    ] {
        let mut source = long_source(rt.alloc(), first, byte, count, rest)?;
        assert_eq!(rt; stop_of(rt.alloc(), &mut source), stop);
    }
    Ok(())
}

/// What a call answers.
#[derive(Clone, Copy, Debug, PartialEq, Eq)]
enum Answer {
    Token,
    End,
    ReadFault,
    Spent,
    TooLong,
    Other,
}

/// What the next call answers.
fn answer_of<S: Source>(alloc: Global, tokens: &mut Tokens, source: &mut S) -> Answer {
    match tokens.next(alloc, source) {
        Ok(Some(_)) => Answer::Token,
        Ok(None) => Answer::End,
        Err(ReadError::ReadFault) => Answer::ReadFault,
        Err(ReadError::Spent) => Answer::Spent,
        Err(ReadError::TooLong) => Answer::TooLong,
        Err(_) => Answer::Other,
    }
}

/// What the first three calls answer.
fn answers_of<S: Source>(alloc: Global, source: &mut S) -> (Answer, Answer, Answer) {
    let Ok(mut tokens) = Tokens::new(alloc) else {
        return (Answer::Other, Answer::Other, Answer::Other);
    };
    let first = answer_of(alloc, &mut tokens, source);
    let second = answer_of(alloc, &mut tokens, source);
    let third = answer_of(alloc, &mut tokens, source);
    (first, second, third)
}

/// `(ab)` in two pieces, of which the second fails at first.
fn failing_source(alloc: Global) -> Result<MemSource, Fail> {
    let first = Vec::from_slice(alloc, b"(a")?;
    let second = Vec::from_slice(alloc, b"b)")?;
    let pieces = vec![in alloc; first, second]?;
    let fails = vec![in alloc; 2]?;
    Ok(MemSource::new(pieces, fails))
}

#[test]
fn errors_spend_a_reader(rt: HostRuntime) -> Result<(), Fail> {
    let mut source = failing_source(rt.alloc())?;
    assert_eq!(rt;
        answers_of(rt.alloc(), &mut source),
        (Answer::Token, Answer::ReadFault, Answer::Spent)
    );
    Ok(())
}

#[test]
fn inputs_have_a_limit(rt: HostRuntime) {
    assert_eq!(rt;
        answers_of(rt.alloc(), &mut Blanks),
        (Answer::TooLong, Answer::Spent, Answer::Spent)
    );
}
