// The tests of the words behind the program's name.
use crate::netlist::Netlist;
use cli_runs::given::{Row, USAGE, answers, first_wrong};
use cli_runs::texts::SMALL;
use netlist_cli::status::Status;
use std::test::Fail;

/// Words that are no command.
const OTHER_WORDS: &[&[&[u8]]] = &[
    &[],
    &[b"Format"],
    &[b""],
    &[b"format", b""],
    &[b"format", b"--top", b"m"],
    &[b"vformat", b"x"],
    &[b"check", b"--top"],
    &[b"check", b"--top", b""],
    &[b"check", b"--top", b"m", b"n"],
    &[b"check", b"--zero", b"A.B"],
    &[b"check", b"--top", b"m", b"--top", b"n"],
    &[b"report", b"--zero"],
    &[b"report", b"--zero", b"AB"],
    &[b"report", b"--zero", b".B"],
    &[b"report", b"--zero", b"A."],
    &[b"report", b"--zero", b"VCC.P"],
    &[b"report", b"--one", b"GND.G"],
    &[b"report", b"--zero", b"A.B", b"--one", b"A.C"],
    &[b"report", b"--one", b"A.B", b"--zero", b"C.D"],
    &[b"report", b"--zero", b"A.B", b"--top", b"m"],
    &[b"report", b"--zero", b"A.B", b"--zero", b"C.D"],
    &[b"to-verilog", b"--parameter"],
    &[b"to-verilog", b"--parameter", b""],
    &[b"to-verilog", b"--top", b"m"],
    &[b"to-edif"],
    &[b"generate", b"07", b"40"],
];

#[test]
fn other_words_are_usage(rt: HostRuntime) -> Result<(), Fail> {
    for words in OTHER_WORDS {
        assert_eq!(rt;
            answers::<Netlist>(rt.alloc(), words, SMALL, 5, b"", USAGE)?,
            true
        );
    }
    assert_eq!(rt; Status::Refused.number(), 2);
    Ok(())
}

/// A module that has the name of an option.
const NAMED: &[u8] = b"module \\--top (); endmodule";

const NAMED_REPORT: &[u8] = b"design \"--top\"\nleaves 1\nleaf . \"--top\"\nnets 0\n";

/// Options with unusual values.
const OPTIONS: &[Row<'static>] = &[
    (&[b"check", b"--top", b"--top"], NAMED, 0, b"ok\n", b""),
    (
        &[b"report", b"--top", b"--top"],
        NAMED,
        0,
        NAMED_REPORT,
        b"",
    ),
    (
        &[
            b"report", b"--top", b"--top", b"--zero", b"..x", b"--one", b"a.b.c",
        ],
        NAMED,
        0,
        NAMED_REPORT,
        b"",
    ),
    (
        &[b"report", b"--zero", b"A.B", b"--one", b"GND.G"],
        SMALL,
        0,
        b"design \"c\"\nleaves 1\nleaf . \"c\"\nnets 0\n",
        b"",
    ),
];

#[test]
fn options_may_have_any_values(rt: HostRuntime) -> Result<(), Fail> {
    assert_eq!(rt; first_wrong::<Netlist>(rt.alloc(), OPTIONS)?, None);
    Ok(())
}
