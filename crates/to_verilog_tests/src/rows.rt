// Worked rows: the design of an EDIF text, and the modules that are written for it or the rule that it breaks.
use crate::texts::{BLINKER, BLINKER_MODULES, BLINKER_PARAMETERS};
use edif_library::read_edif;
use edif_resolve::resolve;
use net_bits::Names;
use net_hier::Hier;
use nl_base::{Refusal, Rule, Text};
use nl_io::{MemSink, MemSource};
use std::alloc::Global;
use std::test::Fail;
use to_verilog::{TargetError, to_verilog};
use vlog_writer::write_vlog;

/// The object that breaks a rule: its cell and its other names.
#[derive(Clone, Copy)]
struct Broken<'a> {
    rule: Rule,
    cell: &'a [u8],
    names: &'a [&'a [u8]],
}

/// A text in pieces, the name of a parameter, and what is written, or what is refused.
#[derive(Clone, Copy)]
struct Row<'a> {
    text: &'a [&'a [u8]],
    param: &'a [u8],
    written: &'a [u8],
    refused: Option<Broken<'a>>,
}

fn source_of(alloc: Global, pieces: &[&[u8]]) -> Result<MemSource, Fail> {
    let mut made = Vec::new(alloc);
    for piece in pieces {
        made.push(Vec::from_slice(alloc, piece)?)?;
    }
    Ok(MemSource::new(made, Vec::new(alloc)))
}

/// The design of a text.
fn design_of(alloc: Global, source: &mut MemSource) -> Option<Hier> {
    match read_edif(alloc, source) {
        Ok(file) => match resolve(alloc, &file) {
            Ok(hier) => Some(hier),
            Err(_) => None,
        },
        Err(_) => None,
    }
}

fn are_names(names: &[Text], wanted: &[&[u8]]) -> bool {
    if names.len() != wanted.len() {
        return false;
    }
    for place in 0..names.len() {
        if names[place].bytes() != wanted[place] {
            return false;
        }
    }
    true
}

fn is_refused(refusal: &Refusal, wanted: Option<Broken>) -> bool {
    match wanted {
        Some(broken) => {
            refusal.rule == broken.rule
                && refusal.cell.bytes() == broken.cell
                && are_names(refusal.names.items(), broken.names)
        }
        None => false,
    }
}

/// Whether the design is refused as wanted, or else the sink takes its modules.
fn is_answered(
    alloc: Global,
    hier: &Hier,
    params: &Names,
    refused: Option<Broken>,
    sink: &mut MemSink,
) -> bool {
    match to_verilog(alloc, hier, params) {
        Ok(file) => match write_vlog(&file, sink) {
            Ok(()) => refused.is_none(),
            Err(_) => false,
        },
        Err(TargetError::Refused(refusal)) => is_refused(&refusal, refused),
        Err(TargetError::NoMemory) => false,
    }
}

/// Whether the row is as it says, over this source and this set of parameters.
fn holds_over(
    alloc: Global,
    row: Row,
    source: &mut MemSource,
    params: &Names,
    sink: &mut MemSink,
) -> bool {
    match design_of(alloc, source) {
        Some(hier) => {
            is_answered(alloc, &hier, params, row.refused, sink) && sink.taken() == row.written
        }
        None => false,
    }
}

fn holds(alloc: Global, row: Row) -> Result<bool, Fail> {
    let mut source = source_of(alloc, row.text)?;
    let mut params = Names::new(alloc, false);
    params.add(alloc, row.param)?;
    let mut sink = MemSink::new(vec![in alloc; 0; 1000]?, Vec::new(alloc));
    Ok(holds_over(alloc, row, &mut source, &params, &mut sink))
}

/// The front of a file, up to its cells.
const CELLS: &[u8] =
    b"(edif t(edifVersion 2 0 0)(edifLevel 0)(keywordMap(keywordLevel 0))(library w(edifLevel 0)(technology(numberDefinition))";

/// The front of the top cell, up to its ports.
const PORTS: &[u8] = b"(cell top(cellType GENERIC)(view v(viewType NETLIST)(interface";

/// Behind the ports of the top cell, up to its instances and nets.
const PARTS: &[u8] = b")(contents";

/// The end of the file, behind the instances and nets of the top cell.
const END: &[u8] = b"))))(design t(cellRef top(libraryRef w))))";

/// An inverter.
const INV: &[u8] =
    b"(cell INV(cellType GENERIC)(view v(viewType NETLIST)(interface(port I(direction INPUT))(port O(direction OUTPUT)))))";

/// A cell with a port of four bits.
const B4: &[u8] =
    b"(cell B4(cellType GENERIC)(view v(viewType NETLIST)(interface(port(array(rename D \"D[3:0]\")4)(direction INPUT))(port E(direction INPUT)))))";

/// An input and an output.
const ENDS: &[u8] = b"(port a(direction INPUT))(port y(direction OUTPUT))";

/// Two inputs.
const INPUTS: &[u8] = b"(port a(direction INPUT))(port b(direction INPUT))";

/// Two inverters on one net, which has the name of the first.
const NAMED: &[u8] =
    b"(instance x(viewRef v(cellRef INV)))(instance z(viewRef v(cellRef INV)))(net x(joined(portRef O(instanceRef x))(portRef I(instanceRef z))))";

const WRITTEN: Row = Row {
    text: &[],
    param: b"K",
    written: b"",
    refused: None,
};

#[test]
fn designs_are_translated(rt: HostRuntime) -> Result<(), Fail> {
    for row in [
        // A file as a synthesis program writes it, and the same with a parameter.
        Row {
            text: &[BLINKER],
            written: BLINKER_MODULES,
            ..WRITTEN
        },
        Row {
            text: &[BLINKER],
            param: b"INIT",
            written: BLINKER_PARAMETERS,
            ..WRITTEN
        },
        Row {
            text: &[BLINKER],
            param: b"DONT_TOUCH",
            refused: Some(Broken {
                rule: Rule::V5,
                cell: b"blinker",
                names: &[b"lut", b"DONT_TOUCH"],
            }),
            ..WRITTEN
        },
        // A name that is no identifier.
        Row {
            text: &[
                CELLS,
                b"(cell(rename c \"a% 34 037%b\")(cellType GENERIC)(view v(viewType NETLIST)(interface))))(design t(cellRef c(libraryRef w))))",
            ],
            written: b"module \\a\"%b  ();\nendmodule\n",
            ..WRITTEN
        },
        // Assignments between ports.
        Row {
            text: &[
                CELLS,
                PORTS,
                ENDS,
                PARTS,
                b"(net n(joined(portRef a)(portRef y)))",
                END,
            ],
            written: b"module top (\n  input a,\n  output y\n);\n  assign y = a;\nendmodule\n",
            ..WRITTEN
        },
        Row {
            text: &[
                CELLS,
                PORTS,
                INPUTS,
                PARTS,
                b"(net n(joined(portRef a)(portRef b)))",
                END,
            ],
            written: b"module top (\n  input a,\n  input b\n);\n  assign b = a;\nendmodule\n",
            ..WRITTEN
        },
        Row {
            text: &[CELLS, PORTS, INPUTS, PARTS, b"(net n(joined))", END],
            written: b"module top (\n  input a,\n  input b\n);\nendmodule\n",
            ..WRITTEN
        },
        // References up to case.
        Row {
            text: &[
                CELLS,
                INV,
                PORTS,
                b"(port clk(direction INPUT))",
                PARTS,
                b"(instance Q(viewRef v(cellRef INV)))(instance q(viewRef v(cellRef INV)))(net n(joined(portRef CLK)(portRef I(instanceRef Q))))",
                END,
            ],
            written: b"module INV (\n  input I,\n  output O\n);\nendmodule\nmodule top (\n  input clk\n);\n  INV Q (.I(clk), .O());\n  INV q (.I(), .O());\nendmodule\n",
            ..WRITTEN
        },
        // A wire whose net has the name of an instance.
        Row {
            text: &[CELLS, INV, PORTS, PARTS, NAMED, END],
            written: b"module INV (\n  input I,\n  output O\n);\nendmodule\nmodule top ();\n  wire n0;\n  INV x (.I(), .O(n0));\n  INV z (.I(n0), .O());\nendmodule\n",
            ..WRITTEN
        },
        // Names that Verilog can't keep.
        Row {
            text: &[
                CELLS,
                INV,
                PORTS,
                b"(port x(direction INPUT))",
                PARTS,
                NAMED,
                END,
            ],
            refused: Some(Broken {
                rule: Rule::V3,
                cell: b"top",
                names: &[b"x"],
            }),
            ..WRITTEN
        },
        Row {
            text: &[
                CELLS,
                INV,
                PORTS,
                PARTS,
                b"(instance(rename u \"my cell\")(viewRef v(cellRef INV)))",
                END,
            ],
            refused: Some(Broken {
                rule: Rule::V1,
                cell: b"top",
                names: &[b"instance", b"my cell"],
            }),
            ..WRITTEN
        },
        // A wide port of which two bits are joined.
        Row {
            text: &[
                CELLS,
                B4,
                PORTS,
                INPUTS,
                PARTS,
                b"(instance u(viewRef v(cellRef B4)))(net na(joined(portRef a)(portRef(member D 0)(instanceRef u))))(net nb(joined(portRef b)(portRef(member D 2)(instanceRef u))))",
                END,
            ],
            written: b"module B4 (\n  input [3:0] D,\n  input E\n);\nendmodule\nmodule top (\n  input a,\n  input b\n);\n  wire n0;\n  wire n1;\n  B4 u (.D({a, n0, b, n1}), .E());\nendmodule\n",
            ..WRITTEN
        },
        // The widest port.
        Row {
            text: &[
                CELLS,
                PORTS,
                b"(port(array p 65536)(direction INPUT))",
                PARTS,
                END,
            ],
            written: b"module top (\n  input [65535:0] p\n);\nendmodule\n",
            ..WRITTEN
        },
        // Properties of all kinds.
        Row {
            text: &[
                CELLS,
                INV,
                PORTS,
                PARTS,
                b"(instance u(viewRef v(cellRef INV))(property R(number(e 5 -1)))(property N(integer -07))(property B(boolean(false))))",
                END,
            ],
            written: b"module INV (\n  input I,\n  output O\n);\nendmodule\nmodule top ();\n  (* R = 5e-1, N = -7, B = 1'b0 *) INV u (.I(), .O());\nendmodule\n",
            ..WRITTEN
        },
    ] {
        assert!(rt; holds(rt.alloc(), row)?);
    }
    Ok(())
}
