// Tokens and keywords.
use crate::given::source_of;
use nl_base::ReadError;
use nl_io::MemSource;
use std::alloc::Global;
use std::test::Fail;
use vlog_tokens::{VTokens, is_keyword};

/// The stop of the next token, or that of the fault in its place; 0 at the end, and where memory runs out.
fn next_stop(alloc: Global, tokens: &mut VTokens, source: &mut MemSource) -> u64 {
    match tokens.next(alloc, source) {
        Ok(Some(found)) => found.stop,
        Err(ReadError::Text(fault)) => fault.stop,
        _ => 0,
    }
}

/// The stops of the first three tokens, a fault counted as one.
fn stops_of(alloc: Global, source: &mut MemSource) -> (u64, u64, u64) {
    let Ok(mut tokens) = VTokens::new(alloc) else {
        return (0, 0, 0);
    };
    let first = next_stop(alloc, &mut tokens, source);
    let second = next_stop(alloc, &mut tokens, source);
    let third = next_stop(alloc, &mut tokens, source);
    (first, second, third)
}

#[test]
fn tokens_and_faults_have_their_stops(rt: HostRuntime) -> Result<(), Fail> {
    for (text, stops) in [
        (b"wire \\a ,".as_slice(), (5, 8, 9)),
        (b"(*a*)", (2, 4, 5)),
        (b"4'b01;", (2, 6, 6)),
        (b"// x\nb", (6, 0, 0)),
        (b"\"\\400", (5, 0, 0)),
        (b"1.x", (3, 0, 0)),
        (b"", (0, 0, 0)),
    ] {
        let mut source = source_of(rt.alloc(), text)?;
        assert_eq!(rt; stops_of(rt.alloc(), &mut source), stops);
    }
    Ok(())
}

#[test]
fn keywords_are_those_of_the_standard(rt: HostRuntime) {
    for (word, is) in [
        (b"always".as_slice(), true),
        (b"xor", true),
        (b"supply0", true),
        (b"Wire", false),
        (b"wir", false),
        (b"logic", false),
        (b"", false),
    ] {
        assert_eq!(rt; is_keyword(word), is);
    }
}
