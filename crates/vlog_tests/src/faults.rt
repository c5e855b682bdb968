// The first faults of texts.
use crate::given::{source_of, source_of_two};
use crate::texts::{PARTS, PARTS_WRITTEN};
use nl_base::{ReadError, TextFault};
use nl_io::MemSource;
use std::alloc::Global;
use std::test::Fail;
use vlog_modules::read_vlog;

/// How far behind so many bytes a fault stands, if it has this reason.
fn distance_of(fault: &TextFault, behind: u64, reason: &[u8]) -> Option<u64> {
    if fault.reason.name() != reason {
        return None;
    }
    fault.place.offset.checked_sub(behind)
}

/// How far behind so many bytes the first fault stands, if it has this reason.
fn fault_of(alloc: Global, source: &mut MemSource, behind: u64, reason: &[u8]) -> Option<u64> {
    match read_vlog(alloc, source) {
        Err(ReadError::Text(fault)) => distance_of(&fault, behind, reason),
        _ => None,
    }
}

/// How far behind a head the first fault stands, if it has this reason.
fn fault_behind(
    alloc: Global,
    head: &[u8],
    text: &[u8],
    reason: &[u8],
) -> Result<Option<u64>, Fail> {
    let mut source = source_of_two(alloc, head, text)?;
    Ok(fault_of(alloc, &mut source, head.len() as u64, reason))
}

#[test]
fn faults_of_files(rt: HostRuntime) -> Result<(), Fail> {
    for (text, offset, reason) in [
        (
            b"module m (input a, output y); assign y = a & a; endmodule".as_slice(),
            43,
            b"NotInProfile".as_slice(),
        ),
        (b"module m (input a);\n  always", 22, b"NotInProfile"),
        (
            b"module m (input a); (* k *) endmodule",
            28,
            b"NotInProfile",
        ),
        (b"module m; endmodule endmodule", 20, b"NotInProfile"),
        (
            b"`default_nettype tri\nmodule a; endmodule",
            17,
            b"NotInProfile",
        ),
        (
            b"module m (input a); defparam u.v.A = 1; endmodule",
            32,
            b"Unexpected",
        ),
        (b"module m (a,); endmodule", 12, b"Unexpected"),
        (
            b"module m; wire [2147483648:0] n; endmodule",
            16,
            b"NumberRange",
        ),
        (b"module m (input a", 17, b"EndOfInput"),
    ] {
        let mut source = source_of(rt.alloc(), text)?;
        assert_eq!(rt; fault_of(rt.alloc(), &mut source, 0, reason), Some(offset));
    }
    Ok(())
}

#[test]
fn faults_of_expressions(rt: HostRuntime) -> Result<(), Fail> {
    for (text, offset, reason) in [
        (b"{a b".as_slice(), 3, b"Unexpected".as_slice()),
        (b"{wire", 1, b"NotInProfile"),
        (b"65537'b1", 5, b"NumberRange"),
        (b"{2{a}, b}", 5, b"Unexpected"),
        (b"{a[0], 2{b}}", 8, b"Unexpected"),
        (b"{a", 2, b"EndOfInput"),
    ] {
        assert_eq!(rt;
            fault_behind(rt.alloc(), b"module m; assign y = ", text, reason)?,
            Some(offset)
        );
    }
    Ok(())
}

#[test]
fn faults_of_targets_and_parameters(rt: HostRuntime) -> Result<(), Fail> {
    for (text, offset, reason) in [
        (b"assign {a, %".as_slice(), 11, b"NotInProfile".as_slice()),
        (b"assign a[2147483648]", 9, b"NumberRange"),
        (b"assign a[0'b1]", 10, b"Unexpected"),
        (b"assign {2{a}}", 8, b"Unexpected"),
        (b"assign 1'b0 = a;", 7, b"Unexpected"),
        (b"L #(1) u ();", 4, b"Unexpected"),
    ] {
        assert_eq!(rt;
            fault_behind(rt.alloc(), b"module m; ", text, reason)?,
            Some(offset)
        );
    }
    Ok(())
}

/// A name in so many braces.
fn braces_of(alloc: Global, braces: usize) -> Result<Vec<u8>, Fail> {
    let mut text = vec![in alloc; b'{'; braces]?;
    let closing = vec![in alloc; b'}'; braces]?;
    text.push(b'a')?;
    text.extend_from_slice(closing.as_slice())?;
    text.extend_from_slice(b"= b; endmodule")?;
    Ok(text)
}

/// Where the brace stands that is too deep.
fn too_deep_at(alloc: Global, braces: usize) -> Result<Option<u64>, Fail> {
    let text = braces_of(alloc, braces)?;
    fault_behind(alloc, b"module m; assign ", text.as_slice(), b"TooDeep")
}

/// Whether a module with a name in so many braces is read.
fn is_read(alloc: Global, braces: usize) -> Result<bool, Fail> {
    let text = braces_of(alloc, braces)?;
    let mut source = source_of_two(alloc, b"module m; assign ", text.as_slice())?;
    let read = read_vlog(alloc, &mut source);
    Ok(read.is_ok())
}

#[test]
fn braces_are_at_most_64_deep(rt: HostRuntime) -> Result<(), Fail> {
    assert!(rt; is_read(rt.alloc(), 64)?);
    assert_eq!(rt; too_deep_at(rt.alloc(), 65)?, Some(64));
    Ok(())
}

#[test]
fn many_parentheses_are_refused_at_the_second(rt: HostRuntime) -> Result<(), Fail> {
    let text = vec![in rt.alloc(); b'('; 100_000]?;
    let fault = fault_behind(rt.alloc(), b"module m ", text.as_slice(), b"Unexpected")?;
    assert_eq!(rt; fault, Some(1));
    Ok(())
}

/// Whether a text is read, or has a first fault whose stop is at this offset.
fn is_read_or_stops_at(alloc: Global, source: &mut MemSource, stop: u64) -> bool {
    match read_vlog(alloc, source) {
        Ok(_) => true,
        Err(ReadError::Text(fault)) => fault.stop == stop,
        Err(_) => false,
    }
}

#[test]
fn texts_that_break_off_have_no_fault_before_their_end(rt: HostRuntime) -> Result<(), Fail> {
    for text in [PARTS, PARTS_WRITTEN] {
        for (length, _) in text.iter().enumerate() {
            let (front, _) = text.split_at(length);
            let mut source = source_of(rt.alloc(), front)?;
            assert!(rt; is_read_or_stops_at(rt.alloc(), &mut source, length as u64));
        }
    }
    Ok(())
}
