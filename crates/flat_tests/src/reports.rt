// Reports of designs.
use crate::given::{constants_of, hier_of, sink_of};
use crate::texts::{BOX, CELLS, END, ENDS, FEED, INPUTS, INV, LEVELS, PARTS, PORTS};
use flat_report::{ReportError, report};
use net_hier::{Constants, Hier};
use nl_base::NoMemory;
use nl_io::MemSink;
use std::alloc::Global;
use std::test::Fail;

/// Whether a report is put, where the flat count is not to be too large, and else that it is this one.
fn is_told(
    alloc: Global,
    hier: &Hier,
    constants: &Constants,
    too_large: Option<u64>,
    sink: &mut MemSink,
) -> bool {
    match report(alloc, hier, constants, sink) {
        Ok(()) => too_large.is_none(),
        Err(ReportError::FlatTooLarge(count)) => too_large == Some(count),
        Err(_) => false,
    }
}

/// Whether the report of a design is this one, or its flat count this one that is too large.
fn is_reported(
    alloc: Global,
    text: &[&[u8]],
    top: &[u8],
    zero: &[u8],
    too_large: Option<u64>,
    written: &[u8],
) -> Result<bool, NoMemory> {
    let mut sink = sink_of(alloc)?;
    match (hier_of(alloc, text, top)?, constants_of(alloc, zero)?) {
        (Some(hier), Some(constants)) => {
            let told = is_told(alloc, &hier, &constants, too_large, &mut sink);
            Ok(told && sink.taken() == written)
        }
        _ => Ok(false),
    }
}

/// Cells that may stand for the constants, and one that is joined to both.
const TIED: &[u8] =
    b"(cell LO(cellType GENERIC)(view v(viewType NETLIST)(interface(port G(direction OUTPUT)))))(cell VCC(cellType GENERIC)(view v(viewType NETLIST)(interface(port P(direction OUTPUT)))))(cell B(cellType GENERIC)(view v(viewType NETLIST)(interface(port(array(rename D \"D[1:0]\")2)(direction INPUT)))))";

/// Instances of these, whose pins are joined.
const TIES: &[u8] =
    b"(instance l(viewRef v(cellRef LO)))(instance h(viewRef v(cellRef VCC)))(instance(rename b \"b c\")(viewRef v(cellRef B)))(net n(joined(portRef G(instanceRef l))(portRef(member D 0)(instanceRef b))))(net m(joined(portRef P(instanceRef h))(portRef(member D 1)(instanceRef b))))";

#[test]
fn designs_are_reported(rt: HostRuntime) -> Result<(), Fail> {
    for (text, top, zero, written) in [
        (
            [
                CELLS,
                PORTS,
                INPUTS,
                PARTS,
                b"(net n(joined(portRef a)(portRef b)))",
                END,
            ]
            .as_slice(),
            b"".as_slice(),
            b"GND".as_slice(),
            b"design \"top\"\nleaves 0\nnets 1\nnet\n  port \"a\"\n  port \"b\"\n".as_slice(),
        ),
        (
            &[CELLS, PORTS, INPUTS, PARTS, b"(net n(joined))", END],
            b"",
            b"GND",
            b"design \"top\"\nleaves 1\nleaf . \"top\"\nnets 0\n",
        ),
        (
            &[CELLS, INV, FEED, BOX, PORTS, ENDS, PARTS, LEVELS, END],
            b"",
            b"GND",
            b"design \"top\"\nleaves 1\nleaf \"b\"/\"i\" \"INV\"\nnets 2\nnet\n  port \"a\"\n  pin \"b\"/\"i\" \"I\"\nnet\n  port \"y\"\n  pin \"b\"/\"i\" \"O\"\n",
        ),
        // The usual cells of the constants, and a chosen one.
        (
            &[CELLS, TIED, PORTS, PARTS, TIES, END],
            b"",
            b"GND",
            b"design \"top\"\nleaves 2\nleaf \"l\" \"LO\"\nleaf \"b c\" \"B\"\nnets 2\nnet\n  pin \"l\" \"G\"\n  pin \"b c\" \"D\" 1\nnet\n  pin \"b c\" \"D\" 0\n  one\n",
        ),
        (
            &[CELLS, TIED, PORTS, PARTS, TIES, END],
            b"",
            b"LO",
            b"design \"top\"\nleaves 1\nleaf \"b c\" \"B\"\nnets 2\nnet\n  pin \"b c\" \"D\" 1\n  zero\nnet\n  pin \"b c\" \"D\" 0\n  one\n",
        ),
        // A module that is tied to both constants.
        (
            &[
                b"module B (input [1:0] D, output O); endmodule module m (input a, output y, output z); B u (.D({a, 1'b0}), .O(y)); assign z = 1'b1; endmodule",
            ],
            b"m",
            b"GND",
            b"design \"m\"\nleaves 1\nleaf \"u\" \"B\"\nnets 4\nnet\n  port \"a\"\n  pin \"u\" \"D\" 1\nnet\n  port \"y\"\n  pin \"u\" \"O\"\nnet\n  port \"z\"\n  one\nnet\n  pin \"u\" \"D\" 0\n  zero\n",
        ),
    ] {
        assert!(rt; is_reported(rt.alloc(), text, top, zero, None, written)?);
    }
    Ok(())
}

fn add_pieces(text: &mut Vec<u8>, pieces: &[&[u8]]) -> Result<(), NoMemory> {
    for piece in pieces {
        text.extend_from_slice(piece)?;
    }
    Ok(())
}

/// Behind the name of a cell, up to its ports.
const VIEW: &[u8] = b"(cellType GENERIC)(view v(viewType NETLIST)(interface";

/// A file of 40 cells with this interface. Each but the first has two instances of the one before it, and these nets.
fn chain_of(alloc: Global, interface: &[u8], nets: &[u8]) -> Result<Vec<u8>, NoMemory> {
    let mut text = Vec::from_slice(alloc, CELLS)?;
    add_pieces(&mut text, &[b"(cell c0", VIEW, interface, b")))"])?;
    let mut below = b"0".as_slice();
    for cell in b"123456789abcdefghijklmnopqrstuvwxyzABCD".chunks(1) {
        add_pieces(
            &mut text,
            &[
                b"(cell c",
                cell,
                VIEW,
                interface,
                b")(contents(instance a(viewRef v(cellRef c",
                below,
                b")))(instance b(viewRef v(cellRef c",
                below,
                b")))",
                nets,
                b")))",
            ],
        )?;
        below = cell;
    }
    text.extend_from_slice(b")(design t(cellRef cD(libraryRef w))))")?;
    Ok(text)
}

#[test]
fn large_designs_have_no_report(rt: HostRuntime) -> Result<(), Fail> {
    for (interface, nets, count) in [
        (b"".as_slice(), b"".as_slice(), 1_099_511_627_775),
        (
            b"(port i(direction INPUT))(port o(direction OUTPUT))",
            b"(net i(joined(portRef i)(portRef i(instanceRef a))))(net m(joined(portRef o(instanceRef a))(portRef i(instanceRef b))))(net o(joined(portRef o(instanceRef b))(portRef o)))",
            4_947_802_324_986,
        ),
    ] {
        let text = chain_of(rt.alloc(), interface, nets)?;
        let pieces = [text.as_slice()];
        assert!(rt; is_reported(rt.alloc(), &pieces, b"", b"GND", Some(count), b"")?);
    }
    Ok(())
}
