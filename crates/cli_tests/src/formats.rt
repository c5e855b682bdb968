// The tests of `format` and `vformat`.
use crate::netlist::Netlist;
use cli_runs::given::{
    Given, Row, answers, ends_so, first_wrong, given_plainly, is_refused_early, text_around,
    wanted_of,
};
use cli_runs::texts::{
    ALIASED, BLINKER, BLINKER_MODULES, BLINKER_WRITTEN, CHAINED, CHAINED_WRITTEN, ESCAPED,
    ESCAPED_WRITTEN, LITERALS, LITERALS_WRITTEN, PARTS, PARTS_WRITTEN, SMALL, WRITTEN,
};
use std::test::Fail;

#[test]
fn files_are_written(rt: HostRuntime) -> Result<(), Fail> {
    for (text, written) in [
        (SMALL, WRITTEN),
        (ALIASED, WRITTEN),
        (WRITTEN, WRITTEN),
        (PARTS, PARTS_WRITTEN),
        (PARTS_WRITTEN, PARTS_WRITTEN),
        (BLINKER, BLINKER_WRITTEN),
        (BLINKER_WRITTEN, BLINKER_WRITTEN),
    ] {
        for whole in [true, false] {
            let given = Given {
                whole,
                ..given_plainly(&[b"format"], text)
            };
            let wanted = wanted_of(&given, 0, written, b"");
            assert_eq!(rt; ends_so::<Netlist>(rt.alloc(), &given, &wanted)?, true);
        }
    }
    Ok(())
}

#[test]
fn identifiers_have_a_limit(rt: HostRuntime) -> Result<(), Fail> {
    let alloc = rt.alloc();
    let rest = b"(edifVersion 2 0 0)(edifLevel 0)(keywordMap(keywordLevel 0)))";
    let longest = text_around(alloc, b"(edif ", b'x', 1024, rest)?;
    let written = text_around(
        alloc,
        b"(edif ",
        b'x',
        1024,
        b"\n  (edifVersion 2 0 0)\n  (edifLevel 0)\n  (keywordMap (keywordLevel 0))\n)\n",
    )?;
    let too_long = text_around(alloc, b"(edif ", b'x', 1025, rest)?;
    for (text, status, output, line) in [
        (longest.as_slice(), 0, written.as_slice(), b"".as_slice()),
        (too_long.as_slice(), 1, b"", b"fault 1:7 TokenTooLong\n"),
    ] {
        assert_eq!(rt;
            answers::<Netlist>(alloc, &[b"format"], text, status, output, line)?,
            true
        );
    }
    Ok(())
}

#[test]
fn little_is_taken_behind_a_fault(rt: HostRuntime) -> Result<(), Fail> {
    let alloc = rt.alloc();
    let text = text_around(
        alloc,
        b"(edif a(edifversion 2 0 0)(EDIFLEVEL 0)(keywordMap(keywordLevel 0))(foo",
        b' ',
        100_000,
        b" w(edifLevel 0)(technology(numberDefinition))(cell c(cellType GENERIC)(view v(viewType NETLIST)(interface))))(design a(cellRef c(libraryRef w))))",
    )?;
    let line = b"fault 1:69 UnknownWord foo\n";
    assert_eq!(rt;
        is_refused_early::<Netlist>(alloc, &[b"format"], text.as_slice(), line, 4168)?,
        true
    );
    Ok(())
}

/// A module by ports of a header of names, and as it is written.
const MODULE: &[u8] =
    b"module m(a,y);input [1:0]a;output y;(*k=2*)wire w;BUF #(.N(4'HA)) u1(.I(a[0]),.O(w)),u2({1{w}},);assign y=w;endmodule";

const MODULE_WRITTEN: &[u8] =
    b"module m (a, y);\n  input [1:0] a;\n  output y;\n  (* k = 2 *) wire w;\n  BUF #(.N(4'hA)) u1 (.I(a[0]), .O(w)), u2 ({1{w}}, );\n  assign y = w;\nendmodule\n";

/// Faults of EDIF texts.
const FAULTS: &[Row<'static>] = &[
    (&[b"format"], b"", 1, b"", b"fault 1:1 EndOfInput\n"),
    (
        &[b"format"],
        b"(edi",
        1,
        b"",
        b"fault 1:2 UnknownWord edi\n",
    ),
    (
        &[b"format"],
        b"(edif blinker",
        1,
        b"",
        b"fault 1:14 EndOfInput\n",
    ),
    (
        &[b"format"],
        b"(edif a(edifVersion 2 0 0)(edifLevel 0)(keywordMap(keywordLevel 2)(keywordDefine x)))",
        1,
        b"",
        b"fault 1:65 KeywordLevel\n",
    ),
    (
        &[b"format"],
        b"(edif a(edifVersion 2 1 0)",
        1,
        b"",
        b"fault 1:23 Version\n",
    ),
    (
        &[b"format"],
        b"(edif a\n(edifVersion 2 0 0)(edifLevel 0)(keywordMap(keywordLevel 0))(netBundle",
        1,
        b"",
        b"fault 2:62 NotInProfile netBundle\n",
    ),
    (
        &[b"format"],
        b"(edif a(edifVersion 2 0 0)(edifLevel 0)(keywordMap(keywordLevel 1)(keywordAlias view cell)))",
        1,
        b"",
        b"fault 1:81 AliasClash\n",
    ),
    (
        &[b"format"],
        b"(edif a(edifVersion 2 0 0)(edifLevel 0)(keywordMap(keywordLevel 1)(keywordAlias kc sell)))",
        1,
        b"",
        b"fault 1:84 AliasUnknown\n",
    ),
    (
        &[b"format"],
        b"(edif a(edifVersion 2 0 0)(edifLevel 0)(keywordMap(keywordLevel 0))(comment \"50%\"))",
        1,
        b"",
        b"fault 1:80 BadEscape\n",
    ),
    (
        &[b"format"],
        b"(edif a(edifVersion 2 0 0)(edifLevel 0)(keywordMap(keywordLevel 0))",
        1,
        b"",
        b"fault 1:68 EndOfInput\n",
    ),
    (
        &[b"format"],
        b"(edif a(edifVersion 2 0 0)(edifLevel 0)(keywordMap(keywordLevel 0))(netBundle",
        1,
        b"",
        b"fault 1:69 NotInProfile netBundle\n",
    ),
    (
        &[b"format"],
        b"(edif a(edifVersion 2 0 0)(edifLevel 0)(keywordMap(keywordLevel 0))(foo",
        1,
        b"",
        b"fault 1:69 UnknownWord foo\n",
    ),
    (
        &[b"format"],
        b"(edif a(edifVersion 2 0 0)(edifLevel 0)(keywordMap(keywordLevel 0)))x",
        1,
        b"",
        b"fault 1:69 Trailing\n",
    ),
    (
        &[b"format"],
        b"(edif a(edifVersion 2 0 0)(edifLevel 0)(keywordMap(keywordLevel 0))(library w(edifLevel 0)(technology(numberDefinition))(cell c(cellType GENERIC)(view v(viewType SCHEMATIC",
        1,
        b"",
        b"fault 1:163 ViewType SCHEMATIC\n",
    ),
];

#[test]
fn faults_are_told(rt: HostRuntime) -> Result<(), Fail> {
    assert_eq!(rt; first_wrong::<Netlist>(rt.alloc(), FAULTS)?, None);
    Ok(())
}

/// Files of modules as they are written, and faults of Verilog texts.
const MODULES: &[Row<'static>] = &[
    (&[b"vformat"], MODULE, 0, MODULE_WRITTEN, b""),
    (&[b"vformat"], MODULE_WRITTEN, 0, MODULE_WRITTEN, b""),
    (&[b"vformat"], BLINKER_MODULES, 0, BLINKER_MODULES, b""),
    (&[b"vformat"], LITERALS, 0, LITERALS_WRITTEN, b""),
    (&[b"vformat"], LITERALS_WRITTEN, 0, LITERALS_WRITTEN, b""),
    (&[b"vformat"], CHAINED, 0, CHAINED_WRITTEN, b""),
    (&[b"vformat"], CHAINED_WRITTEN, 0, CHAINED_WRITTEN, b""),
    (&[b"vformat"], ESCAPED, 0, ESCAPED_WRITTEN, b""),
    (&[b"vformat"], ESCAPED_WRITTEN, 0, ESCAPED_WRITTEN, b""),
    (&[b"vformat"], b"", 0, b"", b""),
    (
        &[b"vformat"],
        b"module m (input a, output y); assign y = a & a; endmodule",
        1,
        b"",
        b"fault 1:44 NotInProfile &\n",
    ),
    (
        &[b"vformat"],
        b"module m (input a);\n  always",
        1,
        b"",
        b"fault 2:3 NotInProfile always\n",
    ),
    (
        &[b"vformat"],
        b"module m ((",
        1,
        b"",
        b"fault 1:11 Unexpected\n",
    ),
];

#[test]
fn modules_are_written(rt: HostRuntime) -> Result<(), Fail> {
    assert_eq!(rt; first_wrong::<Netlist>(rt.alloc(), MODULES)?, None);
    Ok(())
}
