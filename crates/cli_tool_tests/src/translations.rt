// The tests of `to-verilog`.
use crate::netlist::Netlist;
use cli_runs::designs::{B4, DesignRow, ENDS, INPUTS, INV, first_wrong_design};
use cli_runs::given::{Row, USAGE, first_wrong};
use cli_runs::texts::{BLINKER, BLINKER_MODULES, BLINKER_PARAMETERS};
use std::test::Fail;

const TO_VERILOG: &[u8] = b"to-verilog";

const PARAMETER: &[u8] = b"--parameter";

/// A file whose top has a name with bytes that are escaped in both languages.
const SPECIAL: &[u8] =
    b"(edif a(edifVersion 2 0 0)(edifLevel 0)(keywordMap(keywordLevel 0))(library w(edifLevel 0)(technology(numberDefinition))(cell(rename c \"a% 34 037%b\")(cellType GENERIC)(view v(viewType NETLIST)(interface))))(design a(cellRef c(libraryRef w))))";

#[test]
fn files_are_translated(rt: HostRuntime) -> Result<(), Fail> {
    let rows: [Row<'_>; 9] = [
        (&[TO_VERILOG], BLINKER, 0, BLINKER_MODULES, b""),
        (
            &[TO_VERILOG],
            SPECIAL,
            0,
            b"module \\a\"%b  ();\nendmodule\n",
            b"",
        ),
        (
            &[TO_VERILOG, PARAMETER, b"INIT"],
            BLINKER,
            0,
            BLINKER_PARAMETERS,
            b"",
        ),
        (
            &[
                TO_VERILOG, PARAMETER, b"INIT", PARAMETER, b"K", PARAMETER, b"INIT",
            ],
            BLINKER,
            0,
            BLINKER_PARAMETERS,
            b"",
        ),
        (
            &[TO_VERILOG, PARAMETER, b"DONT_TOUCH"],
            BLINKER,
            2,
            b"",
            b"refused V5 \"blinker\" \"lut\" \"DONT_TOUCH\"\n",
        ),
        (&[TO_VERILOG, PARAMETER], BLINKER, 5, b"", USAGE),
        (&[TO_VERILOG, PARAMETER, b""], BLINKER, 5, b"", USAGE),
        (
            &[TO_VERILOG, PARAMETER, b"INIT", b"K"],
            BLINKER,
            5,
            b"",
            USAGE,
        ),
        (&[TO_VERILOG, b"INIT", PARAMETER], BLINKER, 5, b"", USAGE),
    ];
    assert_eq!(rt; first_wrong::<Netlist>(rt.alloc(), &rows)?, None);
    Ok(())
}

/// Designs as they are translated, and rules that they break.
const DESIGNS: &[DesignRow<'static>] = &[
    (
        &[TO_VERILOG],
        &[],
        ENDS,
        b"(net n(joined(portRef a)(portRef y)))",
        0,
        b"module top (\n  input a,\n  output y\n);\n  assign y = a;\nendmodule\n",
        b"",
    ),
    (
        &[TO_VERILOG],
        &[],
        INPUTS,
        b"(net n(joined(portRef a)(portRef b)))",
        0,
        b"module top (\n  input a,\n  input b\n);\n  assign b = a;\nendmodule\n",
        b"",
    ),
    (
        &[TO_VERILOG],
        &[],
        INPUTS,
        b"(net n(joined))",
        0,
        b"module top (\n  input a,\n  input b\n);\nendmodule\n",
        b"",
    ),
    (
        &[TO_VERILOG],
        &[],
        b"(port(array p 65536)(direction INPUT))",
        b"",
        0,
        b"module top (\n  input [65535:0] p\n);\nendmodule\n",
        b"",
    ),
    (
        &[TO_VERILOG],
        &[INV],
        b"(port clk(direction INPUT))",
        b"(instance Q(viewRef v(cellRef INV)))(instance q(viewRef v(cellRef INV)))(net n(joined(portRef CLK)(portRef I(instanceRef Q))))",
        0,
        b"module INV (\n  input I,\n  output O\n);\nendmodule\nmodule top (\n  input clk\n);\n  INV Q (.I(clk), .O());\n  INV q (.I(), .O());\nendmodule\n",
        b"",
    ),
    (
        &[TO_VERILOG],
        &[INV],
        b"(port clk(direction INPUT))",
        b"(instance Ab(viewRef v(cellRef INV)))(instance aB(viewRef v(cellRef INV)))(net n(joined(portRef CLK)(portRef I(instanceRef ab))))",
        2,
        b"",
        b"refused E6 \"top\" \"ab\"\n",
    ),
    (
        &[TO_VERILOG],
        &[INV],
        b"",
        b"(instance x(viewRef v(cellRef INV)))(instance z(viewRef v(cellRef INV)))(net x(joined(portRef O(instanceRef x))(portRef I(instanceRef z))))",
        0,
        b"module INV (\n  input I,\n  output O\n);\nendmodule\nmodule top ();\n  wire n0;\n  INV x (.I(), .O(n0));\n  INV z (.I(n0), .O());\nendmodule\n",
        b"",
    ),
    (
        &[TO_VERILOG],
        &[INV],
        b"(port x(direction INPUT))",
        b"(instance x(viewRef v(cellRef INV)))(instance z(viewRef v(cellRef INV)))(net x(joined(portRef O(instanceRef x))(portRef I(instanceRef z))))",
        2,
        b"",
        b"refused V3 \"top\" \"x\"\n",
    ),
    (
        &[TO_VERILOG],
        &[INV],
        b"",
        b"(instance(rename u \"my cell\")(viewRef v(cellRef INV)))",
        2,
        b"",
        b"refused V1 \"top\" \"instance\" \"my cell\"\n",
    ),
    (
        &[TO_VERILOG],
        &[INV],
        b"",
        b"(instance u(viewRef v(cellRef INV))(property R(number(e 5 -1)))(property N(integer -07))(property B(boolean(false))))",
        0,
        b"module INV (\n  input I,\n  output O\n);\nendmodule\nmodule top ();\n  (* R = 5e-1, N = -7, B = 1'b0 *) INV u (.I(), .O());\nendmodule\n",
        b"",
    ),
    (
        &[TO_VERILOG],
        &[B4],
        INPUTS,
        b"(instance u(viewRef v(cellRef B4)))(net na(joined(portRef a)(portRef(member D 0)(instanceRef u))))(net nb(joined(portRef b)(portRef(member D 2)(instanceRef u))))",
        0,
        b"module B4 (\n  input [3:0] D,\n  input E\n);\nendmodule\nmodule top (\n  input a,\n  input b\n);\n  wire n0;\n  wire n1;\n  B4 u (.D({a, n0, b, n1}), .E());\nendmodule\n",
        b"",
    ),
    (
        &[TO_VERILOG],
        &[B4],
        INPUTS,
        b"(instance u(viewRef v(cellRef B4)))(net na(joined(portRef a)(portRef D(instanceRef u))))",
        2,
        b"",
        b"refused E10 \"top\" \"na\" \"u\" \"D\"\n",
    ),
    (
        &[TO_VERILOG],
        &[B4],
        INPUTS,
        b"(instance u(viewRef v(cellRef B4)))(net na(joined(portRef a)(portRef(member D 4)(instanceRef u))))",
        2,
        b"",
        b"refused E9 \"top\" \"na\" \"u\" \"D\" \"4\"\n",
    ),
];

#[test]
fn designs_are_translated(rt: HostRuntime) -> Result<(), Fail> {
    assert_eq!(rt; first_wrong_design::<Netlist>(rt.alloc(), DESIGNS)?, None);
    Ok(())
}
