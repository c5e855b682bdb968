// The tests of designs above the limit of a design.
use crate::netlist::Netlist;
use cli_runs::given::{CHECK_M, answers};
use std::alloc::Global;
use std::test::Fail;

/// What stands before the name of a wide port, and behind it.
type Around<'a> = (&'a [u8], &'a [u8]);

/// Adds 32 ports, whose names end with this letter and one more.
fn add_ports(text: &mut Vec<u8>, letter: u8, around: Around<'_>) -> Result<(), Fail> {
    for other in b"abcdefghijklmnopqrstuvwxyz012345" {
        text.extend_from_slice(around.0)?;
        text.extend_from_slice(&[letter, *other])?;
        text.extend_from_slice(around.1)?;
    }
    Ok(())
}

/// A text with 512 ports between its front and its rest.
fn text_of_ports(
    alloc: Global,
    front: &[u8],
    around: Around<'_>,
    rest: &[u8],
) -> Result<Vec<u8>, Fail> {
    let mut text = Vec::from_slice(alloc, front)?;
    for letter in b"abcdefghijklmnop" {
        add_ports(&mut text, *letter, around)?;
    }
    text.extend_from_slice(rest)?;
    Ok(text)
}

/// A file of one cell up to the ports in its interface.
const CELL: &[u8] =
    b"(edif t(edifVersion 2 0 0)(edifLevel 0)(keywordMap(keywordLevel 0))(library w(edifLevel 0)(technology(numberDefinition))(cell top(cellType GENERIC)(view v(viewType NETLIST)(interface";

/// What stands around the name of a port of 65,536 bits.
const EDIF_PORT: Around<'static> = (b"(port(array p", b" 65536))");

/// A module up to its ports, of which the first has the 512 bits that the others have less than 65,536 each.
const MODULE: &[u8] = b"module m (input [511:0] z";

/// What stands around the name of a port of 65,535 bits.
const VERILOG_PORT: Around<'static> = (b", input [65534:0] p", b"");

#[test]
fn designs_have_a_limit(rt: HostRuntime) -> Result<(), Fail> {
    for (words, front, around, rest, is_within) in [
        (
            [b"check".as_slice()].as_slice(),
            CELL,
            EDIF_PORT,
            b"))))(design t(cellRef top(libraryRef w))))".as_slice(),
            true,
        ),
        (
            &[b"check"],
            CELL,
            EDIF_PORT,
            b"(port p)))))(design t(cellRef top(libraryRef w))))",
            false,
        ),
        (CHECK_M, MODULE, VERILOG_PORT, b"); endmodule", true),
        (
            CHECK_M,
            MODULE,
            VERILOG_PORT,
            b", input p); endmodule",
            false,
        ),
    ] {
        let text = text_of_ports(rt.alloc(), front, around, rest)?;
        let is_answered = if is_within {
            answers::<Netlist>(rt.alloc(), words, text.as_slice(), 0, b"ok\n", b"")?
        } else {
            let line = b"limit design 33554433\n";
            answers::<Netlist>(rt.alloc(), words, text.as_slice(), 7, b"", line)?
        };
        assert_eq!(rt; is_answered, true);
    }
    Ok(())
}
