// The tests of `to-spice`.
use crate::netlist::Netlist;
use cli_runs::designs::{B4, ENDS, INV, design_of};
use cli_runs::given::{Given, USAGE, Wanted, answers, ends_so, given_plainly, text_of, wanted_of};
use std::test::Fail;

/// A cell that joins its two ports.
const FEED: &[u8] =
    b"(cell feed(cellType GENERIC)(view v(viewType NETLIST)(interface(port a(direction INPUT))(port y(direction OUTPUT)))(contents(net n(joined(portRef a)(portRef y))))))";

/// A second cell of the name INV up to case.
const SMALL_INV: &[u8] =
    b"(cell inv(cellType GENERIC)(view v(viewType NETLIST)(interface(port I(direction INPUT)))))";

/// Two instances, one joined to the other by a net of the name of an instance.
const TWO: &[u8] =
    b"(instance x(viewRef v(cellRef INV)))(instance z(viewRef v(cellRef INV)))(net x(joined(portRef O(instanceRef x))(portRef I(instanceRef z))))";

const TWO_WRITTEN: &[u8] =
    b"* top\n.SUBCKT INV I O\n.ENDS INV\n.SUBCKT top\nXx n0 x INV\nXz x n1 INV\n.ENDS top\n";

#[test]
fn designs_are_subcircuits(rt: HostRuntime) -> Result<(), Fail> {
    for (cells, interface, contents, output, errors) in [
        (
            b"".as_slice(),
            b"".as_slice(),
            TWO,
            TWO_WRITTEN,
            b"".as_slice(),
        ),
        (
            B4,
            b"(port a(direction INPUT))",
            b"(instance u(viewRef v(cellRef B4)))(net na(joined(portRef a)(portRef(member D 0)(instanceRef u))))",
            b"* top\n.SUBCKT B4 D[3] D[2] D[1] D[0] E\n.ENDS B4\n.SUBCKT top a\nXu a n0 n1 n2 n3 B4\n.ENDS top\n",
            b"",
        ),
        (
            b"",
            ENDS,
            b"(instance(rename u \"my cell\")(viewRef v(cellRef INV)))",
            b"",
            b"refused S1 \"top\" \"instance\" \"my cell\"\n",
        ),
        (
            b"",
            b"(port(rename p \"0\")(direction INPUT))",
            b"",
            b"",
            b"refused S1 \"top\" \"port\" \"0\"\n",
        ),
        (
            SMALL_INV,
            b"",
            b"(instance u(viewRef v(cellRef INV)))(instance v(viewRef v(cellRef inv)))",
            b"",
            b"refused S2 \"inv\"\n",
        ),
        (
            b"",
            b"(port a(direction INPUT))(port A(direction INPUT))",
            b"",
            b"",
            b"refused S3 \"top\" \"A\"\n",
        ),
        (
            b"",
            b"(port clk(direction INPUT))",
            b"(instance Q(viewRef v(cellRef INV)))(instance q(viewRef v(cellRef INV)))(net n(joined(portRef CLK)(portRef I(instanceRef Q))))",
            b"",
            b"refused S4 \"top\" \"q\"\n",
        ),
        (
            FEED,
            ENDS,
            b"(instance f(viewRef v(cellRef feed)))",
            b"",
            b"refused S5 \"feed\" \"a\" \"y\"\n",
        ),
        (
            FEED,
            ENDS,
            b"(instance f(viewRef v(cellRef feed)))(net n(joined(portRef a(instanceRef q))))",
            b"",
            b"refused E7 \"top\" \"n\" \"q\"\n",
        ),
    ] {
        let cells = text_of(rt.alloc(), &[INV, cells])?;
        let text = design_of(rt.alloc(), cells.as_slice(), interface, contents)?;
        let status = if errors.is_empty() { 0 } else { 2 };
        assert_eq!(rt;
            answers::<Netlist>(
                rt.alloc(),
                &[b"to-spice"],
                text.as_slice(),
                status,
                output,
                errors
            )?,
            true
        );
    }
    Ok(())
}

/// A chain of two instances, whose ends are bits of ports.
const CHAIN: &[u8] =
    b"module L (input a, output y); endmodule module m (input [1:0] b, output z); wire n; L u (.a(b[1]), .y(n)); L v (.a(n), .y(z)); endmodule";

const CHAIN_WRITTEN: &[u8] =
    b"* m\n.SUBCKT L a y\n.ENDS L\n.SUBCKT m b[1] b[0] z\nXu b[1] n L\nXv n z L\n.ENDS m\n";

/// A module whose ports have names of 40 bytes.
const LONG: &[u8] =
    b"module m (input aaaaaaaaaaaaaaaaaaaaaaaaaaaaaaaaaaaaaaaa, input bbbbbbbbbbbbbbbbbbbbbbbbbbbbbbbbbbbbbbbb); endmodule";

const LONG_WRITTEN: &[u8] =
    b"* m\n.SUBCKT m aaaaaaaaaaaaaaaaaaaaaaaaaaaaaaaaaaaaaaaa\n+ bbbbbbbbbbbbbbbbbbbbbbbbbbbbbbbbbbbbbbbb\n.ENDS m\n";

#[test]
fn modules_are_subcircuits(rt: HostRuntime) -> Result<(), Fail> {
    let command = b"to-spice".as_slice();
    let top = b"--top".as_slice();
    for (words, text, status, output, errors) in [
        (
            [command, top, b"m".as_slice()].as_slice(),
            CHAIN,
            0,
            CHAIN_WRITTEN,
            b"".as_slice(),
        ),
        (&[command, top, b"m"], LONG, 0, LONG_WRITTEN, b""),
        (
            &[command, top, b"m"],
            b"module m (input [1:0] a, input \\a[0] ); endmodule",
            2,
            b"",
            b"refused S3 \"m\" \"a[0]\"\n",
        ),
        (
            &[command, top, b"m"],
            b"module m (input a, output y); assign y = a; endmodule",
            2,
            b"",
            b"refused S5 \"m\" \"a\" \"y\"\n",
        ),
        (
            &[command, top, b"m"],
            b"module L (input a); endmodule module m (); L u (.a(1'b0)); endmodule",
            2,
            b"",
            b"refused S6 \"m\"\n",
        ),
        (
            &[command, top, b"m"],
            b"module L (input a); endmodule module m (); L u (.a(2'b0)); endmodule",
            2,
            b"",
            b"refused G8 \"m\" \"u\" \"a\"\n",
        ),
        (
            &[command, top, b"q"],
            CHAIN,
            2,
            b"",
            b"refused G1 \"\" \"q\"\n",
        ),
        (&[command], CHAIN, 1, b"", b"fault 1:1 Unexpected\n"),
        (&[command, top], CHAIN, 5, b"", USAGE),
        (&[command, top, b""], CHAIN, 5, b"", USAGE),
        (&[command, b"m"], CHAIN, 5, b"", USAGE),
        (&[command, b"--zero", b"A.B"], CHAIN, 5, b"", USAGE),
        (&[command, top, b"m", top, b"m"], CHAIN, 5, b"", USAGE),
        (
            &[command, top, b"m", b"--one", b"A.B"],
            CHAIN,
            5,
            b"",
            USAGE,
        ),
    ] {
        assert_eq!(rt;
            answers::<Netlist>(rt.alloc(), words, text, status, output, errors)?,
            true
        );
    }
    Ok(())
}

#[test]
fn failures_of_subcircuits_are_told(rt: HostRuntime) -> Result<(), Fail> {
    let text = design_of(rt.alloc(), INV, b"", TWO)?;
    let plain = given_plainly(&[b"to-spice"], text.as_slice());
    let failing_take = Given {
        whole: false,
        failing_take: 3,
        ..plain
    };
    let small_room = Given { room: 10, ..plain };
    for (given, wanted) in [
        (
            failing_take,
            Wanted {
                status: 3,
                output: b"".as_slice(),
                errors: b"read fault\n".as_slice(),
                taken: 2,
            },
        ),
        (
            small_room,
            wanted_of(&small_room, 4, b"* top\n.SUB", b"write fault\n"),
        ),
    ] {
        assert_eq!(rt; ends_so::<Netlist>(rt.alloc(), &given, &wanted)?, true);
    }
    Ok(())
}
