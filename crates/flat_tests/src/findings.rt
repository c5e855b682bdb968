// What is odd about the connections of designs.
use crate::given::{constants_of, hier_of, sink_of};
use crate::texts::{BOX, CELLS, END, ENDS, FEED, INV, LEVELS, PARTS, PORTS};
use net_lint::lint;
use nl_base::NoMemory;
use std::alloc::Global;
use std::test::Fail;

/// Whether the findings of a design are these.
fn is_found(
    alloc: Global,
    text: &[&[u8]],
    top: &[u8],
    zero: &[u8],
    written: &[u8],
) -> Result<bool, NoMemory> {
    let mut sink = sink_of(alloc)?;
    match (hier_of(alloc, text, top)?, constants_of(alloc, zero)?) {
        (Some(hier), Some(constants)) => match lint(alloc, &hier, &constants, &mut sink) {
            Ok(()) => Ok(sink.taken() == written),
            Err(_) => Ok(false),
        },
        _ => Ok(false),
    }
}

#[test]
fn findings_of_designs(rt: HostRuntime) -> Result<(), Fail> {
    for (text, top, zero, written) in [
        (
            [
                CELLS,
                INV,
                PORTS,
                b"(port a(direction INPUT))(port y(direction OUTPUT))(port z(direction OUTPUT))",
                PARTS,
                b"(instance u(viewRef v(cellRef INV)))(instance v(viewRef v(cellRef INV)))(net n1(joined(portRef a)(portRef O(instanceRef u))))(net n2(joined(portRef y)(portRef I(instanceRef v))))",
                END,
            ]
            .as_slice(),
            b"".as_slice(),
            b"GND".as_slice(),
            b"design \"top\"\nundriven 2\n  port \"y\"\n  pin \"v\" \"I\"\nfloating 2\n  port \"z\"\n  pin \"u\" \"I\"\nseveral 1\nnet\n  port \"a\"\n  pin \"u\" \"O\"\n".as_slice(),
        ),
        (
            &[CELLS, INV, FEED, BOX, PORTS, ENDS, PARTS, LEVELS, END],
            b"",
            b"GND",
            b"design \"top\"\nundriven 0\nfloating 0\nseveral 0\n",
        ),
        // The constants joined with one another.
        (
            &[b"module m (output y); assign y = 1'b0; assign y = 1'b1; endmodule"],
            b"m",
            b"GND",
            b"design \"m\"\nundriven 0\nfloating 0\nseveral 1\nnet\n  zero\n  one\n",
        ),
        // Sinks that a constant drives, beside one that is open and two that are joined with one another alone.
        (
            &[
                b"module L (input [2:0] D); endmodule module m (output y); supply0 g; L u (.D({1'b1, g, y})); L v (.D(3'b0x1)); endmodule",
            ],
            b"m",
            b"GND",
            b"design \"m\"\nundriven 2\n  port \"y\"\n  pin \"u\" \"D\" 0\nfloating 1\n  pin \"v\" \"D\" 1\nseveral 0\n",
        ),
        // A chosen cell for the zero, whose pin is no driver of its own.
        (
            &[
                b"module LO (output G); endmodule module m (output y); assign y = 1'b0; LO u (.G(y)); endmodule",
            ],
            b"m",
            b"GND",
            b"design \"m\"\nundriven 0\nfloating 0\nseveral 1\nnet\n  pin \"u\" \"G\"\n  zero\n",
        ),
        (
            &[
                b"module LO (output G); endmodule module m (output y); assign y = 1'b0; LO u (.G(y)); endmodule",
            ],
            b"m",
            b"LO",
            b"design \"m\"\nundriven 0\nfloating 0\nseveral 0\n",
        ),
        // A top that is a leaf.
        (
            &[b"module m (input a, output [1:0] y, inout z); endmodule"],
            b"m",
            b"GND",
            b"design \"m\"\nundriven 0\nfloating 2\n  port \"y\" 1\n  port \"y\" 0\nseveral 0\n",
        ),
        // Sinks that are connected to what goes both ways.
        (
            &[
                b"module B (inout p); endmodule module m (output x, output y, inout z); B u (.p(y)); B v (); assign x = z; endmodule",
            ],
            b"m",
            b"GND",
            b"design \"m\"\nundriven 0\nfloating 0\nseveral 0\n",
        ),
        // Sinks of one cell, with a driver one level up and without.
        (
            &[
                b"module L (input I, output O); endmodule module box (input p); L x (.I(p)); L y (.I(p)); endmodule module m (input a); box b (.p(a)); box c (); endmodule",
            ],
            b"m",
            b"GND",
            b"design \"m\"\nundriven 2\n  pin \"c\"/\"x\" \"I\"\n  pin \"c\"/\"y\" \"I\"\nfloating 0\nseveral 0\n",
        ),
        // Drivers of all kinds, in two sets.
        (
            &[
                b"module L (input I, output O); endmodule module m (input [1:0] a, input b, output y); L u (.I(y), .O(y)); L v (.I(a[1]), .O(b)); assign b = a[0]; assign y = 1'b1; endmodule",
            ],
            b"m",
            b"GND",
            b"design \"m\"\nundriven 0\nfloating 0\nseveral 2\nnet\n  port \"a\" 0\n  port \"b\"\n  pin \"v\" \"O\"\nnet\n  pin \"u\" \"O\"\n  one\n",
        ),
    ] {
        assert!(rt; is_found(rt.alloc(), text, top, zero, written)?);
    }
    Ok(())
}
