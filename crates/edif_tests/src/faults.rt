// The first faults of texts.
use crate::given::{source_of, source_of_pieces};
use crate::texts::{HEAD, IN_CELL, IN_CONTENTS, IN_INTERFACE, SMALL, TREES};
use edif_library::read_edif;
use nl_base::{ReadError, TextFault};
use nl_io::MemSource;
use std::alloc::Global;
use std::test::Fail;

/// How far behind so many bytes a fault stands, if it has this reason.
fn distance_of(fault: &TextFault, behind: u64, reason: &[u8]) -> Option<u64> {
    if fault.reason.name() != reason {
        return None;
    }
    fault.place.offset.checked_sub(behind)
}

/// How far behind so many bytes the first fault stands, if it has this reason.
fn fault_of(alloc: Global, source: &mut MemSource, behind: usize, reason: &[u8]) -> Option<u64> {
    match read_edif(alloc, source) {
        Err(ReadError::Text(fault)) => distance_of(&fault, behind as u64, reason),
        _ => None,
    }
}

/// How far behind the head of a file and further text the first fault stands, if it has this reason.
fn fault_behind(
    alloc: Global,
    further: &[u8],
    text: &[u8],
    reason: &[u8],
) -> Result<Option<u64>, Fail> {
    let mut source = source_of_pieces(alloc, &[HEAD, further, text])?;
    let behind = HEAD.len().saturating_add(further.len());
    Ok(fault_of(alloc, &mut source, behind, reason))
}

#[test]
fn faults_of_headers(rt: HostRuntime) -> Result<(), Fail> {
    for (text, offset, reason) in [
        (b"".as_slice(), 0, b"EndOfInput".as_slice()),
        (b"(edi", 1, b"UnknownWord"),
        (b"(edif a ", 8, b"EndOfInput"),
        (b"(edif a(edifVersion 2 1 0)", 22, b"Version"),
        (b"(edif a(edifVersion 2 0 0 0)", 26, b"Unexpected"),
        (b"(edif a(edifVersion 2 0 0)(edifLevel 1)", 37, b"Level"),
        (b"(edif a(edifVersion 2 0 0)(netBundle", 27, b"NotInProfile"),
        (
            b"(edif a(edifVersion 2 0 0)(edifLevel 0)(keywordMap(keywordLevel 2)(keywordDefine x)))",
            64,
            b"KeywordLevel",
        ),
        (
            b"(edif a(edifVersion 2 0 0)(edifLevel 0)(keywordMap(keywordLevel 0)(keywordAlias a b)))",
            67,
            b"KeywordLevel",
        ),
        (
            b"(edif a(edifVersion 2 0 0)(edifLevel 0)(keywordMap(keywordLevel 1)(keywordAlias view cell)))",
            80,
            b"AliasClash",
        ),
        (
            b"(edif a(edifVersion 2 0 0)(edifLevel 0)(keywordMap(keywordLevel 1)(keywordAlias kc sell)))",
            83,
            b"AliasUnknown",
        ),
    ] {
        let mut source = source_of(rt.alloc(), text)?;
        assert_eq!(rt; fault_of(rt.alloc(), &mut source, 0, reason), Some(offset));
    }
    Ok(())
}

#[test]
fn faults_behind_headers(rt: HostRuntime) -> Result<(), Fail> {
    for (text, offset, reason) in [
        (b"".as_slice(), 0, b"EndOfInput".as_slice()),
        (b"(netBundle", 1, b"NotInProfile"),
        (b"(foo", 1, b"UnknownWord"),
        (b")x", 1, b"Trailing"),
        (b"(library (array u 2)", 10, b"NotInProfile"),
        (
            b"(library w(edifLevel 0)(technology(numberDefinition))(cell c(cellType GENERIC)(view v(viewType SCHEMATIC",
            95,
            b"ViewType",
        ),
    ] {
        assert_eq!(rt; fault_behind(rt.alloc(), b"", text, reason)?, Some(offset));
    }
    Ok(())
}

#[test]
fn faults_of_statuses(rt: HostRuntime) -> Result<(), Fail> {
    for (text, offset, reason) in [
        (b"(author \"a\"))".as_slice(), 1, b"NotInProfile".as_slice()),
        (b"(written(author \"a\"))", 9, b"NotInProfile"),
        (b"(written(timeStamp 1 2 3 4 5))", 28, b"Unexpected"),
        (
            b"(written(timeStamp 1 2 3 4 5 6)(version \"1\"))",
            32,
            b"NotInProfile",
        ),
        (
            b"(written(timeStamp 1 2 3 4 5 6)(program \"a\" \"b\"))",
            44,
            b"Unexpected",
        ),
        (
            b"(written(timeStamp 1 2 3 4 5 6)(program \"a\"(version \"1\")(version",
            56,
            b"Unexpected",
        ),
        (b"(userData u (x", 14, b"EndOfInput"),
        (b"(userData (x", 10, b"Unexpected"),
    ] {
        assert_eq!(rt;
            fault_behind(rt.alloc(), b"(status", text, reason)?,
            Some(offset)
        );
    }
    Ok(())
}

#[test]
fn faults_of_properties(rt: HostRuntime) -> Result<(), Fail> {
    for (text, offset, reason) in [
        (
            b"(property p (string 1))".as_slice(),
            20,
            b"Unexpected".as_slice(),
        ),
        (b"(property p (minomax))", 13, b"NotInProfile"),
        (
            b"(property p (integer 1)(property q (integer 2)))",
            24,
            b"NotInProfile",
        ),
        (b"(property p (number (e 5)))", 24, b"Unexpected"),
    ] {
        assert_eq!(rt;
            fault_behind(rt.alloc(), IN_CELL, text, reason)?,
            Some(offset)
        );
    }
    Ok(())
}

#[test]
fn faults_of_ports(rt: HostRuntime) -> Result<(), Fail> {
    for (text, offset, reason) in [
        (
            b"(port p (direction INPUT)(direction INPUT))".as_slice(),
            26,
            b"NotInProfile".as_slice(),
        ),
        (b"(port p (direction BOTH))", 19, b"Unexpected"),
        (b"(port p (instance u))", 9, b"NotInProfile"),
        (b"(port p (designator 1))", 20, b"Unexpected"),
    ] {
        assert_eq!(rt;
            fault_behind(rt.alloc(), IN_INTERFACE, text, reason)?,
            Some(offset)
        );
    }
    Ok(())
}

#[test]
fn faults_of_instances_and_nets(rt: HostRuntime) -> Result<(), Fail> {
    for (text, offset, reason) in [
        (
            b"(instance u (cellRef c))".as_slice(),
            13,
            b"NotInProfile".as_slice(),
        ),
        (b"(net n)", 6, b"Unexpected"),
        (b"(net n (joined (port a)))", 16, b"NotInProfile"),
        (
            b"(net n (joined (portRef a (instanceRef u) (comment))))",
            42,
            b"Unexpected",
        ),
    ] {
        assert_eq!(rt;
            fault_behind(rt.alloc(), IN_CONTENTS, text, reason)?,
            Some(offset)
        );
    }
    Ok(())
}

/// User data with so many lists in one another, as the rest of a file.
fn lists_of(alloc: Global, lists: usize) -> Result<Vec<u8>, Fail> {
    let mut text = vec![in alloc; b'('; lists]?;
    let closing = vec![in alloc; b')'; lists]?;
    text.extend_from_slice(closing.as_slice())?;
    text.extend_from_slice(b"))")?;
    Ok(text)
}

/// Where the list stands that is too deep.
fn too_deep_at(alloc: Global, lists: usize) -> Result<Option<u64>, Fail> {
    let text = lists_of(alloc, lists)?;
    fault_behind(alloc, b"(userData u", text.as_slice(), b"TooDeep")
}

/// Whether a file with user data so deep is read.
fn is_read(alloc: Global, lists: usize) -> Result<bool, Fail> {
    let text = lists_of(alloc, lists)?;
    let mut source = source_of_pieces(alloc, &[HEAD, b"(userData u", text.as_slice()])?;
    let read = read_edif(alloc, &mut source);
    Ok(read.is_ok())
}

#[test]
fn lists_are_at_most_64_deep(rt: HostRuntime) -> Result<(), Fail> {
    assert!(rt; is_read(rt.alloc(), 64)?);
    assert_eq!(rt; too_deep_at(rt.alloc(), 65)?, Some(64));
    Ok(())
}

/// The stop of the first fault.
fn stop_of(alloc: Global, source: &mut MemSource) -> Option<u64> {
    match read_edif(alloc, source) {
        Err(ReadError::Text(fault)) => Some(fault.stop),
        _ => None,
    }
}

#[test]
fn texts_that_break_off_have_a_fault_at_their_end(rt: HostRuntime) -> Result<(), Fail> {
    for text in [SMALL, TREES] {
        for (length, _) in text.iter().enumerate() {
            let (front, _) = text.split_at(length);
            let mut source = source_of(rt.alloc(), front)?;
            assert_eq!(rt; stop_of(rt.alloc(), &mut source), Some(length as u64));
        }
    }
    Ok(())
}
