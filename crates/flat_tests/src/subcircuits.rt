// Designs as SPICE subcircuits, and the rules that they break.
use crate::given::{hier_of, sink_of};
use crate::texts::{BOX, CELLS, END, ENDS, FEED, INV, LEVELS, PARTS, PORTS};
use net_hier::Hier;
use nl_base::{NoMemory, Text};
use nl_io::MemSink;
use spice_text::write_spice;
use std::alloc::Global;
use std::test::Fail;
use to_spice::{SpiceError, to_spice};
use to_spice_rules::SpiceRule;

/// The object that breaks a rule: its cell and its other names.
#[derive(Clone, Copy)]
struct Broken<'a> {
    rule: SpiceRule,
    cell: &'a [u8],
    names: &'a [&'a [u8]],
}

fn are_names(names: &[Text], wanted: &[&[u8]]) -> bool {
    if names.len() != wanted.len() {
        return false;
    }
    for place in 0..names.len() {
        if names[place].bytes() != wanted[place] {
            return false;
        }
    }
    true
}

/// Whether the design is refused as wanted, or else the sink takes its subcircuits.
fn is_answered(alloc: Global, hier: &Hier, refused: Option<Broken>, sink: &mut MemSink) -> bool {
    match (to_spice(alloc, hier), refused) {
        (Ok(file), None) => write_spice(&file, sink).is_ok(),
        (Err(SpiceError::Refused { rule, cell, names }), Some(broken)) => {
            rule == broken.rule
                && cell.bytes() == broken.cell
                && are_names(names.items(), broken.names)
        }
        _ => false,
    }
}

/// Whether the subcircuits of a design are these, or the rule that it breaks this one.
fn is_translated(
    alloc: Global,
    text: &[&[u8]],
    top: &[u8],
    refused: Option<Broken>,
    written: &[u8],
) -> Result<bool, NoMemory> {
    let mut sink = sink_of(alloc)?;
    match hier_of(alloc, text, top)? {
        Some(hier) => {
            Ok(is_answered(alloc, &hier, refused, &mut sink) && sink.taken() == written)
        }
        None => Ok(false),
    }
}

/// Two inverters on one net, which has the name of the first.
const NAMED: &[u8] =
    b"(instance x(viewRef v(cellRef INV)))(instance z(viewRef v(cellRef INV)))(net x(joined(portRef O(instanceRef x))(portRef I(instanceRef z))))";

#[test]
fn designs_are_subcircuits(rt: HostRuntime) -> Result<(), Fail> {
    for (text, top, written) in [
        (
            [CELLS, INV, PORTS, PARTS, NAMED, END].as_slice(),
            b"".as_slice(),
            b"* top\n.SUBCKT INV I O\n.ENDS INV\n.SUBCKT top\nXx n0 x INV\nXz x n1 INV\n.ENDS top\n".as_slice(),
        ),
        // A fresh name that a port has up to case, and the name of a net that is no word.
        (
            &[
                b"module INV (input I, output O); endmodule module top (input N0); wire \\a$b ; INV x (.O(\\a$b )), z (.I(\\a$b )); endmodule",
            ],
            b"top",
            b"* top\n.SUBCKT INV I O\n.ENDS INV\n.SUBCKT top N0\nXx n1 n2 INV\nXz n2 n3 INV\n.ENDS top\n",
        ),
        // Statements of several lines.
        (
            &[
                b"module L (input [15:0] address); endmodule module m (input [15:0] address); L upper (.address(address)); endmodule",
            ],
            b"m",
            b"* m
.SUBCKT L address[15] address[14] address[13] address[12] address[11]
+ address[10] address[9] address[8] address[7] address[6] address[5] address[4]
+ address[3] address[2] address[1] address[0]
.ENDS L
.SUBCKT m address[15] address[14] address[13] address[12] address[11]
+ address[10] address[9] address[8] address[7] address[6] address[5] address[4]
+ address[3] address[2] address[1] address[0]
Xupper address[15] address[14] address[13] address[12] address[11] address[10]
+ address[9] address[8] address[7] address[6] address[5] address[4] address[3]
+ address[2] address[1] address[0] L
.ENDS m
",
        ),
    ] {
        assert!(rt; is_translated(rt.alloc(), text, top, None, written)?);
    }
    Ok(())
}

#[test]
fn designs_break_rules(rt: HostRuntime) -> Result<(), Fail> {
    for (text, top, rule, cell, names) in [
        (
            [
                CELLS,
                INV,
                PORTS,
                PARTS,
                b"(instance(rename u \"my cell\")(viewRef v(cellRef INV)))",
                END,
            ]
            .as_slice(),
            b"".as_slice(),
            SpiceRule::S1,
            b"top".as_slice(),
            [b"instance".as_slice(), b"my cell"].as_slice(),
        ),
        (
            &[b"module \\a$b (); endmodule module m (); \\a$b u (); endmodule"],
            b"m",
            SpiceRule::S1,
            b"a$b",
            &[b"cell", b"a$b"],
        ),
        (
            &[b"module m (input \\0 ); endmodule"],
            b"m",
            SpiceRule::S1,
            b"m",
            &[b"port", b"0"],
        ),
        (
            &[
                b"module Inv (); endmodule module INV (); endmodule module m (); INV u (); Inv v (); endmodule",
            ],
            b"m",
            SpiceRule::S2,
            b"INV",
            &[],
        ),
        (
            &[b"module m (input a, input A); endmodule"],
            b"m",
            SpiceRule::S3,
            b"m",
            &[b"A"],
        ),
        (
            &[
                CELLS,
                INV,
                PORTS,
                b"(port clk(direction INPUT))",
                PARTS,
                b"(instance Q(viewRef v(cellRef INV)))(instance q(viewRef v(cellRef INV)))(net n(joined(portRef CLK)(portRef I(instanceRef Q))))",
                END,
            ],
            b"",
            SpiceRule::S4,
            b"top",
            &[b"q"],
        ),
        (
            &[CELLS, INV, FEED, BOX, PORTS, ENDS, PARTS, LEVELS, END],
            b"",
            SpiceRule::S5,
            b"feed",
            &[b"a", b"y"],
        ),
        (
            &[b"module m (output y); assign y = 1'b0; endmodule"],
            b"m",
            SpiceRule::S6,
            b"m",
            &[],
        ),
    ] {
        let broken = Broken { rule, cell, names };
        assert!(rt; is_translated(rt.alloc(), text, top, Some(broken), b"")?);
    }
    Ok(())
}
