// The tests that a design keeps its report, and its findings, over both translations.
use crate::netlist::Netlist;
use cli_runs::given::{answers, given_plainly, sink_of, source_of, words_of};
use cli_runs::texts::{BLINKER, LITERALS};
use netlist_cli::run::run;
use nl_io::MemSink;
use std::alloc::Global;
use std::test::Fail;

/// A translation, and what tells of its input and of its output what has to be the same.
#[derive(Clone, Copy)]
struct Leg<'a> {
    translation: &'a [&'a [u8]],
    before: &'a [&'a [u8]],
    after: &'a [&'a [u8]],
}

/// What these words put on the output for a text; nothing where the status is not 0.
fn written(alloc: Global, words: &[&[u8]], text: &[u8]) -> Result<MemSink, Fail> {
    let words = words_of(alloc, words)?;
    let mut input = source_of(alloc, &given_plainly(&[], text))?;
    let mut output = sink_of(alloc, 10_000, 0)?;
    let mut errors = sink_of(alloc, 1000, 0)?;
    let _status = run(alloc, &words, &mut input, &mut output, &mut errors);
    Ok(output)
}

/// Whether the same is told of a text and of its translation.
fn is_kept(alloc: Global, leg: &Leg<'_>, text: &[u8]) -> Result<bool, Fail> {
    let told = written(alloc, leg.before, text)?;
    let translated = written(alloc, leg.translation, text)?;
    answers::<Netlist>(alloc, leg.after, translated.taken(), 0, told.taken(), b"")
}

/// Whether the same is told of a text, of its translation, and of the translation of this.
fn is_kept_twice(
    alloc: Global,
    there: &Leg<'_>,
    back: &Leg<'_>,
    text: &[u8],
) -> Result<bool, Fail> {
    let translated = written(alloc, there.translation, text)?;
    Ok(is_kept(alloc, there, text)? && is_kept(alloc, back, translated.taken())?)
}

/// A module that is tied to both constants, and one that is tied through it.
const TIED: &[u8] =
    b"module t (input a, output y); assign a = 1'b0; assign y = 1'b1; endmodule module B (input [1:0] D); endmodule module m (output p, output q); t u (.a(p), .y(q)); B v ({q, p}); endmodule";

#[test]
fn designs_are_told_alike_on_both_sides(rt: HostRuntime) -> Result<(), Fail> {
    let report = b"report".as_slice();
    let lint = b"lint".as_slice();
    let usual = b"GND.G".as_slice();
    for (tool, text, top, zero, is_edif) in [
        (report, BLINKER, b"blinker".as_slice(), usual, true),
        (lint, BLINKER, b"blinker", usual, true),
        (report, LITERALS, b"top", usual, false),
        (lint, LITERALS, b"top", usual, false),
        (report, TIED, b"m", usual, false),
        (report, TIED, b"m", b"TIELO.Y", false),
    ] {
        let to_verilog = [b"to-verilog".as_slice()];
        let to_edif = [b"to-edif".as_slice(), b"--top", top, b"--zero", zero];
        let of_edif = [tool, b"--zero", zero];
        let of_verilog = [tool, b"--top", top, b"--zero", zero];
        let from_edif = Leg {
            translation: &to_verilog,
            before: &of_edif,
            after: &of_verilog,
        };
        let from_verilog = Leg {
            translation: &to_edif,
            before: &of_verilog,
            after: &of_edif,
        };
        let is_kept = if is_edif {
            is_kept_twice(rt.alloc(), &from_edif, &from_verilog, text)?
        } else {
            is_kept_twice(rt.alloc(), &from_verilog, &from_edif, text)?
        };
        assert_eq!(rt; is_kept, true);
    }
    Ok(())
}
