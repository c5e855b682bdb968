// The tests of `flatten`.
use crate::netlist::Netlist;
use crate::reports::{FEED_AND_BOX, LEVELS};
use cli_runs::designs::{ENDS, INV, design_of};
use cli_runs::given::{Given, USAGE, answers, ends_so, given_plainly, text_of, wanted_of};
use std::test::Fail;

/// The one leaf of the levels, under its joined name.
const FLAT: &[u8] =
    b"(edif top\n  (edifVersion 2 0 0)\n  (edifLevel 0)\n  (keywordMap (keywordLevel 0))\n  (library work\n    (edifLevel 0)\n    (technology (numberDefinition))\n    (cell INV\n      (cellType GENERIC)\n      (view netlist\n        (viewType NETLIST)\n        (interface\n          (port I (direction INPUT))\n          (port O (direction OUTPUT))\n        )\n      )\n    )\n    (cell top\n      (cellType GENERIC)\n      (view netlist\n        (viewType NETLIST)\n        (interface\n          (port a (direction INPUT))\n          (port y (direction OUTPUT))\n        )\n        (contents\n          (instance (rename id0 \"b/i\")\n            (viewRef netlist (cellRef INV (libraryRef work)))\n          )\n          (net n0\n            (joined\n              (portRef a)\n              (portRef I (instanceRef id0))\n            )\n          )\n          (net n1\n            (joined\n              (portRef y)\n              (portRef O (instanceRef id0))\n            )\n          )\n        )\n      )\n    )\n  )\n  (design top (cellRef top (libraryRef work)))\n)\n";

/// Two levels of leaves, one of which has an attribute, and a constant.
const MODULES: &[u8] =
    b"module L (input a, output y); endmodule module s (input i, output o); wire w; (* keep = 1 *) L u (.a(i), .y(w)); L v (.a(w), .y(o)); endmodule module m (input [1:0] b, output z, output q); s x (.i(b[1]), .o(z)); L c (.a(1'b1), .y(q)); endmodule";

const FLAT_MODULES: &[u8] =
    b"module L (\n  input a,\n  output y\n);\nendmodule\nmodule m (\n  input [1:0] b,\n  output z,\n  output q\n);\n  wire n3;\n  wire n4;\n  assign n4 = 1'b1;\n  (* keep = 1 *) L \\x/u  (.a(b[1]), .y(n3));\n  L \\x/v  (.a(n3), .y(z));\n  L c (.a(n4), .y(q));\nendmodule\n";

/// A port of the name that a leaf gets.
const PORT_OF_JOINED_NAME: &[u8] =
    b"module L (input a); endmodule module s (input i); L u (.a(i)); endmodule module m (input \\s/u ); s s (.i(\\s/u )); endmodule";

/// An instance of the joined name of another, which stands before it.
const SAME_JOINED_NAME: &[u8] = b"(instance(rename x \"b/i\")(viewRef v(cellRef INV)))";

#[test]
fn designs_are_flattened(rt: HostRuntime) -> Result<(), Fail> {
    for (before, status, output, errors) in [
        (b"".as_slice(), 0, FLAT, b"".as_slice()),
        (SAME_JOINED_NAME, 2, b"", b"refused F1 \"top\" \"b/i\"\n"),
        (
            b"(instance u(viewRef v(cellRef NONE)))",
            2,
            b"",
            b"refused E3 \"top\" \"NONE\"\n",
        ),
    ] {
        let cells = text_of(rt.alloc(), &[INV, FEED_AND_BOX])?;
        let contents = text_of(rt.alloc(), &[before, LEVELS])?;
        let text = design_of(rt.alloc(), cells.as_slice(), ENDS, contents.as_slice())?;
        assert_eq!(rt;
            answers::<Netlist>(
                rt.alloc(),
                &[b"flatten"],
                text.as_slice(),
                status,
                output,
                errors
            )?,
            true
        );
    }
    Ok(())
}

#[test]
fn texts_are_flattened(rt: HostRuntime) -> Result<(), Fail> {
    let command = b"flatten".as_slice();
    let top = b"--top".as_slice();
    for (words, text, status, output, errors) in [
        // A flattened design is flattened to itself, but for the names of its nets.
        ([command].as_slice(), FLAT, 0, FLAT, b"".as_slice()),
        (&[command, top, b"m"], MODULES, 0, FLAT_MODULES, b""),
        (
            &[command, top, b"m"],
            PORT_OF_JOINED_NAME,
            2,
            b"",
            b"refused V3 \"m\" \"s/u\"\n",
        ),
        (
            &[command, top, b"q"],
            MODULES,
            2,
            b"",
            b"refused G1 \"\" \"q\"\n",
        ),
        (&[command], MODULES, 1, b"", b"fault 1:1 Unexpected\n"),
        (&[command, top], MODULES, 5, b"", USAGE),
        (&[command, b"--zero", b"A"], FLAT, 5, b"", USAGE),
        (&[command, b"--one", b"A.B", top, b"m"], FLAT, 5, b"", USAGE),
    ] {
        assert_eq!(rt;
            answers::<Netlist>(rt.alloc(), words, text, status, output, errors)?,
            true
        );
    }
    Ok(())
}

#[test]
fn failures_of_flattening_are_told(rt: HostRuntime) -> Result<(), Fail> {
    let plain = given_plainly(&[b"flatten"], FLAT);
    let small_room = Given { room: 10, ..plain };
    assert_eq!(rt;
        ends_so::<Netlist>(
            rt.alloc(),
            &small_room,
            &wanted_of(&small_room, 4, b"(edif top\n", b"write fault\n")
        )?,
        true
    );
    Ok(())
}
