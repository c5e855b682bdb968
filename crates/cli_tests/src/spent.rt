// The tests of readers that are asked again: after an error each call that answers a result answers that the reader is spent.
use cli_runs::blanks::Blanks;
use cli_runs::given::{Given, given_plainly, source_of, text_around};
use edif_keywords::{Cursor, Keyword, read_comment};
use edif_names::{read_name, read_port_name, read_property};
use edif_nets::{read_instance, read_net, read_port};
use edif_status::{read_status, read_user};
use edif_tokens::Tokens;
use nl_base::{ReadError, Reason};
use nl_io::Source;
use std::alloc::Global;
use std::test::Fail;
use vlog_exprs::{VCursor, read_attrs, read_const, read_expr};
use vlog_tokens::VTokens;

/// How a call ended, whatever it took.
#[derive(Clone, Copy, Debug, PartialEq, Eq)]
enum Ended {
    Well,
    Text,
    ReadFault,
    TooLong,
    NoMemory,
    Spent,
}

fn how_ended<T: Drop>(answer: Result<T, ReadError>) -> Ended {
    match answer {
        Ok(_) => Ended::Well,
        Err(ReadError::Text(_)) => Ended::Text,
        Err(ReadError::ReadFault) => Ended::ReadFault,
        Err(ReadError::TooLong) => Ended::TooLong,
        Err(ReadError::NoMemory) => Ended::NoMemory,
        Err(ReadError::Spent) => Ended::Spent,
    }
}

fn is_spent<T: Drop>(answer: Result<T, ReadError>) -> bool {
    how_ended(answer) == Ended::Spent
}

/// The call that is made first: one that reads a part, the refusal of a token that is seen, or what a call does where memory runs out.
#[derive(Clone, Copy)]
enum First {
    Part,
    Refusal,
    NoMemory,
}

// ---- EDIF

/// How user data, or what is asked for in its place, ended.
fn first_ended<S: Source>(
    alloc: Global,
    cursor: &mut Cursor,
    first: First,
    source: &mut S,
) -> Ended {
    match first {
        First::Part => how_ended(read_user(alloc, cursor, source)),
        First::Refusal => {
            if is_spent(cursor.look(alloc, source)) || cursor.ahead().is_none() {
                return Ended::Spent;
            }
            how_ended::<()>(Err(cursor.refuse(Reason::TooDeep)))
        }
        First::NoMemory => how_ended::<()>(Err(cursor.no_memory())),
    }
}

/// Whether the calls that take a token, or look at one, answer that the cursor is spent.
fn tokens_are_spent<S: Source>(alloc: Global, cursor: &mut Cursor, source: &mut S) -> bool {
    cursor.ahead().is_none()
        && is_spent(cursor.look(alloc, source))
        && is_spent(cursor.at_form(alloc, source))
        && is_spent(cursor.at_string(alloc, source))
        && is_spent(cursor.word(alloc, source))
        && is_spent(cursor.string(alloc, source))
        && is_spent(cursor.int(alloc, source))
        && is_spent(cursor.end_of_input(alloc, source))
}

/// Whether the calls that take the beginning or the end of a form, or the header, answer that the cursor is spent.
fn forms_are_spent<S: Source>(alloc: Global, cursor: &mut Cursor, source: &mut S) -> bool {
    is_spent(cursor.begin(alloc, &[Keyword::Comment], source))
        && is_spent(cursor.begin_list(alloc, source))
        && is_spent(cursor.finish_form(alloc, source))
        && is_spent(cursor.header(alloc, source))
        && is_spent(cursor.view_type(alloc, source))
        && is_spent(cursor.choose(alloc, &[(b"INPUT".as_slice(), 1)], source))
        && is_spent(read_comment(alloc, cursor, source))
        && is_spent(read_user(alloc, cursor, source))
        && is_spent(read_status(alloc, cursor, source))
}

/// Whether the calls that read a name, a property, or a part of a cell answer that the cursor is spent.
fn parts_are_spent<S: Source>(alloc: Global, cursor: &mut Cursor, source: &mut S) -> bool {
    is_spent(read_name(alloc, cursor, source))
        && is_spent(read_port_name(alloc, cursor, source))
        && is_spent(read_property(alloc, cursor, source))
        && is_spent(read_port(alloc, cursor, source))
        && is_spent(read_instance(alloc, cursor, source))
        && is_spent(read_net(alloc, cursor, source))
}

/// How the first call of a cursor ended, and whether each call after it answers that the cursor is spent.
fn asked_again<S: Source>(alloc: Global, first: First, source: &mut S) -> (Ended, bool) {
    let Ok(tokens) = Tokens::new(alloc) else {
        return (Ended::NoMemory, false);
    };
    let mut cursor = Cursor::new(alloc, tokens);
    let ended = first_ended(alloc, &mut cursor, first, source);
    let are_spent = tokens_are_spent(alloc, &mut cursor, source)
        && forms_are_spent(alloc, &mut cursor, source)
        && parts_are_spent(alloc, &mut cursor, source);
    (ended, are_spent)
}

#[test]
fn cursors_of_edif_stay_spent(rt: HostRuntime) -> Result<(), Fail> {
    let deep = text_around(rt.alloc(), b"u", b'(', 65, b"")?;
    for (text, failing_take, first, wanted) in [
        (b"".as_slice(), 0, First::Part, Ended::Text),
        (b"(", 0, First::Part, Ended::Text),
        (b"u \"50%\")", 0, First::Part, Ended::Text),
        (deep.as_slice(), 0, First::Part, Ended::Text),
        (b"u", 0, First::Refusal, Ended::Text),
        (b"u)", 1, First::Part, Ended::ReadFault),
        (b"u)", 0, First::NoMemory, Ended::NoMemory),
    ] {
        let given = Given {
            failing_take,
            ..given_plainly(&[], text)
        };
        let mut source = source_of(rt.alloc(), &given)?;
        assert_eq!(rt; asked_again(rt.alloc(), first, &mut source), (wanted, true));
    }
    assert_eq!(rt;
        asked_again(rt.alloc(), First::Part, &mut Blanks),
        (Ended::TooLong, true)
    );
    Ok(())
}

// ---- Verilog

/// How an expression, or what is asked for in its place, ended.
fn first_of_verilog_ended<S: Source>(
    alloc: Global,
    cursor: &mut VCursor,
    first: First,
    source: &mut S,
) -> Ended {
    match first {
        First::Part => how_ended(read_expr(alloc, cursor, false, source)),
        First::Refusal => {
            if is_spent(cursor.look(alloc, source)) || cursor.ahead().is_none() {
                return Ended::Spent;
            }
            how_ended::<()>(Err(cursor.refuse(Reason::TooDeep)))
        }
        First::NoMemory => how_ended::<()>(Err(cursor.no_memory())),
    }
}

/// Whether each call answers that the cursor is spent.
fn verilog_is_spent<S: Source>(alloc: Global, cursor: &mut VCursor, source: &mut S) -> bool {
    cursor.ahead().is_none()
        && is_spent(cursor.look(alloc, source))
        && is_spent(cursor.take(alloc, source))
        && is_spent(cursor.name(alloc, source))
        && is_spent(cursor.number(alloc, source))
        && is_spent(cursor.takes(alloc, b',', source))
        && is_spent(cursor.end_of_input(alloc, source))
        && is_spent(read_expr(alloc, cursor, true, source))
        && is_spent(read_const(alloc, cursor, source))
        && is_spent(read_attrs(alloc, cursor, source))
}

/// How the first call of a cursor ended, and whether each call after it answers that the cursor is spent.
fn verilog_asked_again<S: Source>(alloc: Global, first: First, source: &mut S) -> (Ended, bool) {
    let Ok(tokens) = VTokens::new(alloc) else {
        return (Ended::NoMemory, false);
    };
    let mut cursor = VCursor::new(alloc, tokens);
    let ended = first_of_verilog_ended(alloc, &mut cursor, first, source);
    let are_spent = verilog_is_spent(alloc, &mut cursor, source);
    (ended, are_spent)
}

#[test]
fn cursors_of_verilog_stay_spent(rt: HostRuntime) -> Result<(), Fail> {
    let deep = text_around(rt.alloc(), b"", b'{', 65, b"")?;
    for (text, failing_take, first, wanted) in [
        (b"".as_slice(), 0, First::Part, Ended::Text),
        (b")", 0, First::Part, Ended::Text),
        (b"\"a\n\"", 0, First::Part, Ended::Text),
        (deep.as_slice(), 0, First::Part, Ended::Text),
        (b"a", 0, First::Refusal, Ended::Text),
        (b"a;", 1, First::Part, Ended::ReadFault),
        (b"a;", 0, First::NoMemory, Ended::NoMemory),
    ] {
        let given = Given {
            failing_take,
            ..given_plainly(&[], text)
        };
        let mut source = source_of(rt.alloc(), &given)?;
        assert_eq!(rt;
            verilog_asked_again(rt.alloc(), first, &mut source),
            (wanted, true)
        );
    }
    assert_eq!(rt;
        verilog_asked_again(rt.alloc(), First::Part, &mut Blanks),
        (Ended::TooLong, true)
    );
    Ok(())
}

// ---- tokens

/// How the first three calls of a reader of tokens ended: of EDIF, or of Verilog.
fn nexts<S: Source>(alloc: Global, is_edif: bool, source: &mut S) -> [Ended; 3] {
    if is_edif {
        let Ok(mut tokens) = Tokens::new(alloc) else {
            return [Ended::NoMemory; 3];
        };
        let first = how_ended(tokens.next(alloc, source));
        let second = how_ended(tokens.next(alloc, source));
        let third = how_ended(tokens.next(alloc, source));
        return [first, second, third];
    }
    let Ok(mut tokens) = VTokens::new(alloc) else {
        return [Ended::NoMemory; 3];
    };
    let first = how_ended(tokens.next(alloc, source));
    let second = how_ended(tokens.next(alloc, source));
    let third = how_ended(tokens.next(alloc, source));
    [first, second, third]
}

#[test]
fn readers_of_tokens_stay_spent(rt: HostRuntime) -> Result<(), Fail> {
    for (is_edif, text, failing_take, wanted) in [
        (
            true,
            b"(\"50%\")".as_slice(),
            0,
            [Ended::Well, Ended::Text, Ended::Spent],
        ),
        (true, b"\x01(", 0, [Ended::Text, Ended::Spent, Ended::Spent]),
        (
            true,
            b"(",
            1,
            [Ended::ReadFault, Ended::Spent, Ended::Spent],
        ),
        (
            false,
            b"(\"a\n\"",
            0,
            [Ended::Well, Ended::Text, Ended::Spent],
        ),
        (
            false,
            b"\x01(",
            0,
            [Ended::Text, Ended::Spent, Ended::Spent],
        ),
        (
            false,
            b"(",
            1,
            [Ended::ReadFault, Ended::Spent, Ended::Spent],
        ),
    ] {
        let given = Given {
            failing_take,
            ..given_plainly(&[], text)
        };
        let mut source = source_of(rt.alloc(), &given)?;
        assert_eq!(rt; nexts(rt.alloc(), is_edif, &mut source), wanted);
    }
    assert_eq!(rt;
        nexts(rt.alloc(), false, &mut Blanks),
        [Ended::TooLong, Ended::Spent, Ended::Spent]
    );
    Ok(())
}
