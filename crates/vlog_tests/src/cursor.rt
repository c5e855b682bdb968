// The calls of a cursor that take one token.
use crate::given::source_of;
use nl_base::ReadError;
use nl_io::MemSource;
use std::alloc::Global;
use std::test::Fail;
use vlog_exprs::VCursor;
use vlog_tokens::VTokens;

fn is_well(ended: Result<(), ReadError>) -> bool {
    match ended {
        Ok(()) => true,
        Err(_) => false,
    }
}

fn is_true(ended: Result<bool, ReadError>) -> bool {
    match ended {
        Ok(value) => value,
        Err(_) => false,
    }
}

/// Whether the next token is this number.
fn takes_number(alloc: Global, cursor: &mut VCursor, source: &mut MemSource, number: i64) -> bool {
    match cursor.number(alloc, source) {
        Ok(taken) => taken.value() == number,
        Err(_) => false,
    }
}

/// Whether the next token is this name.
fn takes_name(alloc: Global, cursor: &mut VCursor, source: &mut MemSource, name: &[u8]) -> bool {
    match cursor.name(alloc, source) {
        Ok(taken) => taken.bytes() == name,
        Err(_) => false,
    }
}

/// Whether `wire 5, a` is taken token by token, with a look before the last.
fn takes_tokens(alloc: Global, cursor: &mut VCursor, source: &mut MemSource) -> bool {
    is_well(cursor.keyword(alloc, b"wire", source))
        && takes_number(alloc, cursor, source, 5)
        && is_true(cursor.takes(alloc, b',', source))
        && is_true(cursor.look(alloc, source))
        && takes_name(alloc, cursor, source, b"a")
        && is_well(cursor.end_of_input(alloc, source))
}

/// Whether a text is taken so.
fn is_taken(alloc: Global, source: &mut MemSource) -> bool {
    let Ok(tokens) = VTokens::new(alloc) else {
        return false;
    };
    let mut cursor = VCursor::new(alloc, tokens);
    takes_tokens(alloc, &mut cursor, source)
}

#[test]
fn calls_of_a_cursor(rt: HostRuntime) -> Result<(), Fail> {
    let mut source = source_of(rt.alloc(), b"wire 5, a")?;
    assert!(rt; is_taken(rt.alloc(), &mut source));
    Ok(())
}
