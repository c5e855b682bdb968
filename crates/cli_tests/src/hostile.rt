// The tests of hostile texts: that break off, that are deep, long or wide.
use crate::netlist::Netlist;
use cli_runs::designs::{INV, design_of};
use cli_runs::given::{
    Given, add_number, answers, ends_so, given_plainly, is_refused_early, sink_of, source_of,
    text_around, text_of, wanted_of, words_of,
};
use cli_runs::texts::{BLINKER, WRITTEN};
use netlist_cli::run::run;
use std::alloc::Global;
use std::test::Fail;

// ---- texts that break off

/// Whether the byte is one of a word or a number.
fn is_word_byte(byte: u8) -> bool {
    byte.is_ascii_alphanumeric() || byte == b'_' || byte == b'&'
}

/// What stands before the last word or number of a text, where the text ends in one, and else all of it.
fn before_last(text: &[u8]) -> &[u8] {
    let mut front = text;
    while let [rest @ .., last] = front {
        if !is_word_byte(*last) {
            return front;
        }
        front = rest;
    }
    front
}

/// The begin of the line of a fault that is placed behind this front of a text.
fn fault_behind(alloc: Global, front: &[u8]) -> Result<Vec<u8>, Fail> {
    let mut row: u64 = 1;
    let mut column: u64 = 1;
    for byte in front {
        if *byte == b'\n' {
            row = row.saturating_add(1);
            column = 1;
        } else {
            column = column.saturating_add(1);
        }
    }
    let mut line = text_of(alloc, &[b"fault "])?;
    add_number(&mut line, row)?;
    line.extend_from_slice(b":")?;
    add_number(&mut line, column)?;
    line.extend_from_slice(b" ")?;
    Ok(line)
}

/// Whether a line tells that a text ends too soon, or that something is wrong with the word with which it ends.
fn is_told(alloc: Global, line: &[u8], text: &[u8]) -> Result<bool, Fail> {
    let at_end = fault_behind(alloc, text)?;
    let end_line = text_of(alloc, &[at_end.as_slice(), b"EndOfInput\n"])?;
    let at_word = fault_behind(alloc, before_last(text))?;
    Ok(line == end_line.as_slice() || line.starts_with(at_word.as_slice()))
}

/// Whether a text that breaks off is refused so.
fn is_broken_off(alloc: Global, text: &[u8]) -> Result<bool, Fail> {
    let words = words_of(alloc, &[b"to-verilog"])?;
    let mut input = source_of(alloc, &given_plainly(&[], text))?;
    let mut output = sink_of(alloc, 10, 0)?;
    let mut errors = sink_of(alloc, 200, 0)?;
    let status = run(alloc, &words, &mut input, &mut output, &mut errors).number();
    Ok(status == 1 && output.taken().is_empty() && is_told(alloc, errors.taken(), text)?)
}

#[test]
fn texts_that_break_off_are_refused(rt: HostRuntime) -> Result<(), Fail> {
    for len in 0..BLINKER.len() - 1 {
        let (text, _) = BLINKER.split_at(len);
        assert_eq!(rt; is_broken_off(rt.alloc(), text)?, true);
    }
    Ok(())
}

// ---- depth and length

/// So many times the front, a middle and as many times the end.
fn nested(alloc: Global, pieces: [&[u8]; 5], depth: usize) -> Result<Vec<u8>, Fail> {
    let [front, open, middle, close, rest] = pieces;
    let mut text = text_of(alloc, &[front])?;
    for _i in 0..depth {
        text.extend_from_slice(open)?;
    }
    text.extend_from_slice(middle)?;
    for _i in 0..depth {
        text.extend_from_slice(close)?;
    }
    text.extend_from_slice(rest)?;
    Ok(text)
}

/// Lists of user data in a file without cells.
const LISTS: [&[u8]; 5] = [
    b"(edif a(edifVersion 2 0 0)(edifLevel 0)(keywordMap(keywordLevel 0))(userData u",
    b"(",
    b"",
    b")",
    b"))",
];

/// The same as it is written.
const LISTS_WRITTEN: [&[u8]; 5] = [
    b"(edif a\n  (edifVersion 2 0 0)\n  (edifLevel 0)\n  (keywordMap (keywordLevel 0))\n  (userData u ",
    b"(",
    b"",
    b")",
    b")\n)\n",
];

/// Braces on the right of an assignment.
const BRACES: [&[u8]; 5] = [
    b"module m (output y);\n  assign y = ",
    b"{",
    b"a",
    b"}",
    b";\nendmodule\n",
];

/// The same as it is written.
const BRACES_WRITTEN: [&[u8]; 5] = [
    b"module m (\n  output y\n);\n  assign y = ",
    b"{",
    b"a",
    b"}",
    b";\nendmodule\n",
];

#[test]
fn lists_and_braces_are_at_most_64_deep(rt: HostRuntime) -> Result<(), Fail> {
    let alloc = rt.alloc();
    for (word, pieces, written, line) in [
        (
            b"format".as_slice(),
            LISTS,
            LISTS_WRITTEN,
            b"fault 1:143 TooDeep\n".as_slice(),
        ),
        (b"vformat", BRACES, BRACES_WRITTEN, b"fault 2:78 TooDeep\n"),
    ] {
        let text = nested(alloc, pieces, 64)?;
        let output = nested(alloc, written, 64)?;
        assert_eq!(rt;
            answers::<Netlist>(alloc, &[word], text.as_slice(), 0, output.as_slice(), b"")?,
            true
        );
        let text = nested(alloc, pieces, 65)?;
        assert_eq!(rt;
            answers::<Netlist>(alloc, &[word], text.as_slice(), 1, b"", line)?,
            true
        );
    }
    Ok(())
}

#[test]
fn many_open_parentheses_are_refused_at_the_second(rt: HostRuntime) -> Result<(), Fail> {
    let alloc = rt.alloc();
    let text = text_around(alloc, b"module m (", b'(', 100_000, b"")?;
    let line = b"fault 1:11 Unexpected\n";
    assert_eq!(rt;
        is_refused_early::<Netlist>(alloc, &[b"vformat"], text.as_slice(), line, 4107)?,
        true
    );
    Ok(())
}

/// A file by a chain of so many aliases, each of the one before, of which the last is used.
fn by_aliases(alloc: Global, count: u64) -> Result<Vec<u8>, Fail> {
    let mut text = text_of(
        alloc,
        &[
            b"(edif a(edifVersion 2 0 0)(edifLevel 0)(keywordMap(keywordLevel 1)(keywordAlias k0 cell)",
        ],
    )?;
    for number in 1..count {
        text.extend_from_slice(b"(keywordAlias k")?;
        add_number(&mut text, number)?;
        text.extend_from_slice(b" k")?;
        add_number(&mut text, number - 1)?;
        text.extend_from_slice(b")")?;
    }
    text.extend_from_slice(b")(library w(edifLevel 0)(technology(numberDefinition))(k")?;
    add_number(&mut text, count.saturating_sub(1))?;
    text.extend_from_slice(
        b" c(cellType GENERIC)(view v(viewType NETLIST)(interface))))(design a(cellRef c(libraryRef w))))",
    )?;
    Ok(text)
}

#[test]
fn aliases_may_be_many(rt: HostRuntime) -> Result<(), Fail> {
    let text = by_aliases(rt.alloc(), 10_000)?;
    assert_eq!(rt;
        answers::<Netlist>(rt.alloc(), &[b"format"], text.as_slice(), 0, WRITTEN, b"")?,
        true
    );
    Ok(())
}

// ---- width

/// The most bits of a port.
const WIDTH: u64 = 65_536;

/// A file whose top has a port of so many bits, each joined to an instance of its own.
fn wide_file(alloc: Global) -> Result<Vec<u8>, Fail> {
    let mut contents = Vec::new(alloc);
    for number in 0..WIDTH {
        contents.extend_from_slice(b"(instance i")?;
        add_number(&mut contents, number)?;
        contents.extend_from_slice(b"(viewRef v(cellRef INV)))")?;
    }
    for number in 0..WIDTH {
        contents.extend_from_slice(b"(net n")?;
        add_number(&mut contents, number)?;
        contents.extend_from_slice(b"(joined(portRef(member p ")?;
        add_number(&mut contents, number)?;
        contents.extend_from_slice(b"))(portRef I(instanceRef i")?;
        add_number(&mut contents, number)?;
        contents.extend_from_slice(b"))))")?;
    }
    design_of(
        alloc,
        INV,
        b"(port(array p 65536)(direction INOUT))",
        contents.as_slice(),
    )
}

/// The modules of that file.
fn wide_modules(alloc: Global) -> Result<Vec<u8>, Fail> {
    let mut text = text_of(
        alloc,
        &[
            b"module INV (\n  input I,\n  output O\n);\nendmodule\nmodule top (\n  inout [65535:0] p\n);\n",
        ],
    )?;
    for number in 0..WIDTH {
        text.extend_from_slice(b"  INV i")?;
        add_number(&mut text, number)?;
        text.extend_from_slice(b" (.I(p[")?;
        add_number(&mut text, WIDTH - 1 - number)?;
        text.extend_from_slice(b"]), .O());\n")?;
    }
    text.extend_from_slice(b"endmodule\n")?;
    Ok(text)
}

#[test]
fn wide_ports_are_joined_bit_by_bit(rt: HostRuntime) -> Result<(), Fail> {
    let text = wide_file(rt.alloc())?;
    let output = wide_modules(rt.alloc())?;
    let given = Given {
        room: output.len(),
        ..given_plainly(&[b"to-verilog"], text.as_slice())
    };
    let wanted = wanted_of(&given, 0, output.as_slice(), b"");
    assert_eq!(rt; ends_so::<Netlist>(rt.alloc(), &given, &wanted)?, true);
    Ok(())
}
