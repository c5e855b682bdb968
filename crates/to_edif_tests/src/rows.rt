// Worked rows: the design of a Verilog text, and the file that is written for it.
use crate::given::{constants_of, design_of};
use crate::nets::{
    CHAINED, CHAINED_CELLS, ESCAPED, ESCAPED_CELLS, LITERALS, LITERALS_CELLS, MERGED, MERGED_CELLS,
    NAMELESS, NAMELESS_CELLS, ONE_CELL, SHORTED, SHORTED_CELLS, VECTORS, VECTORS_CELLS, ZERO_CELL,
};
use crate::values::{
    ATTRIBUTES, ATTRIBUTES_CELLS, NAMES, NAMES_CELLS, PAIR, PAIR_CELLS, PARAMETERS,
    PARAMETERS_CELLS, PASSED, PASSED_CELLS, REACHED, REACHED_CELLS, TIED, TIED_CELLS, VALUES,
    VALUES_CELLS,
};
use edif_writer::write_edif;
use net_hier::{Constants, Hier};
use nl_base::NoMemory;
use nl_io::MemSink;
use std::alloc::Global;
use std::test::Fail;
use to_edif::to_edif;

/// A text and its top module, the cells and ports that stand for the constants, and the file that is written: its name, the identifier of its
/// top cell, the cells that are made for the zero and for the one, if any, and the other cells.
#[derive(Clone, Copy)]
struct Row<'a> {
    text: &'a [u8],
    top: &'a [u8],
    zero: (&'a [u8], &'a [u8]),
    one: (&'a [u8], &'a [u8]),
    name: &'a [u8],
    cell: &'a [u8],
    made: [&'a [u8]; 2],
    cells: &'a [u8],
}

const ROW: Row = Row {
    text: b"",
    top: b"m",
    zero: (b"GND", b"G"),
    one: (b"VCC", b"P"),
    name: b"m",
    cell: b"m",
    made: [b"", b""],
    cells: b"",
};

/// Between the name of a file and its cells.
const HEAD: &[u8] =
    b"\n  (edifVersion 2 0 0)\n  (edifLevel 0)\n  (keywordMap (keywordLevel 0))\n  (library work\n    (edifLevel 0)\n    (technology (numberDefinition))\n";

/// The file that a row writes.
fn file_of(alloc: Global, row: Row) -> Result<Vec<u8>, NoMemory> {
    let mut text = Vec::new(alloc);
    let [zero, one] = row.made;
    for piece in [
        b"(edif ".as_slice(),
        row.name,
        HEAD,
        zero,
        one,
        row.cells,
        b"  )\n  (design ",
        row.name,
        b" (cellRef ",
        row.cell,
        b" (libraryRef work)))\n)\n",
    ] {
        text.extend_from_slice(piece)?;
    }
    Ok(text)
}

/// Whether the file of a design is written into a sink.
fn is_put(alloc: Global, hier: Hier, constants: &Constants, sink: &mut MemSink) -> bool {
    match to_edif(alloc, hier, constants) {
        Ok(file) => write_edif(&file, sink).is_ok(),
        Err(_) => false,
    }
}

/// Whether what is written of a design is this.
fn is_written(
    alloc: Global,
    hier: Hier,
    constants: &Constants,
    written: &[u8],
) -> Result<bool, NoMemory> {
    let room = vec![in alloc; 0; written.len()]?;
    let mut sink = MemSink::new(room, Vec::new(alloc));
    Ok(is_put(alloc, hier, constants, &mut sink) && sink.taken() == written)
}

fn holds(alloc: Global, row: Row) -> Result<bool, NoMemory> {
    let text = Vec::from_slice(alloc, row.text)?;
    let hier = design_of(alloc, text, row.top)?;
    let written = file_of(alloc, row)?;
    match (hier, constants_of(alloc, row.zero, row.one)?) {
        (Some(hier), Some(constants)) => is_written(alloc, hier, &constants, written.as_slice()),
        _ => Ok(false),
    }
}

#[test]
fn modules_are_translated(rt: HostRuntime) -> Result<(), Fail> {
    for row in [
        Row {
            text: LITERALS,
            top: b"top",
            name: b"top",
            cell: b"top",
            made: [ZERO_CELL, ONE_CELL],
            cells: LITERALS_CELLS,
            ..ROW
        },
        Row {
            text: CHAINED,
            cells: CHAINED_CELLS,
            ..ROW
        },
        Row {
            text: ESCAPED,
            cells: ESCAPED_CELLS,
            ..ROW
        },
        Row {
            text: MERGED,
            cells: MERGED_CELLS,
            ..ROW
        },
        Row {
            text: VECTORS,
            cells: VECTORS_CELLS,
            ..ROW
        },
        Row {
            text: NAMELESS,
            made: [ZERO_CELL, ONE_CELL],
            cells: NAMELESS_CELLS,
            ..ROW
        },
        Row {
            text: SHORTED,
            made: [ZERO_CELL, ONE_CELL],
            cells: SHORTED_CELLS,
            ..ROW
        },
        Row {
            text: NAMES,
            top: b"m$",
            name: b"(rename id0 \"m$\")",
            cell: b"id2",
            made: [ZERO_CELL, b""],
            cells: NAMES_CELLS,
            ..ROW
        },
        Row {
            text: ATTRIBUTES,
            cells: ATTRIBUTES_CELLS,
            ..ROW
        },
        Row {
            text: VALUES,
            cells: VALUES_CELLS,
            ..ROW
        },
        Row {
            text: PASSED,
            cells: PASSED_CELLS,
            ..ROW
        },
        Row {
            text: PARAMETERS,
            cells: PARAMETERS_CELLS,
            ..ROW
        },
        Row {
            text: TIED,
            zero: (b"TIELO", b"Y"),
            cells: TIED_CELLS,
            ..ROW
        },
        Row {
            text: REACHED,
            zero: (b"TIELO", b"Y"),
            cells: REACHED_CELLS,
            ..ROW
        },
        Row {
            text: PAIR,
            zero: (b"t.lo", b"0"),
            one: (b"HI", b"P"),
            cells: PAIR_CELLS,
            ..ROW
        },
    ] {
        assert!(rt; holds(rt.alloc(), row)?);
    }
    Ok(())
}
