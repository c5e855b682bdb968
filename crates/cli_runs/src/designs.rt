// Files of a few cells, of which `top` is the top of the design.
use crate::given::{Program, answers, text_of};
use std::alloc::Global;
use std::test::Fail;

/// The front of a file, up to its cells.
pub const UP_TO_CELLS: &[u8] =
    b"(edif t(edifVersion 2 0 0)(edifLevel 0)(keywordMap(keywordLevel 0))(library w(edifLevel 0)(technology(numberDefinition))";

/// The front of the top cell, up to its interface.
pub const UP_TO_INTERFACE: &[u8] =
    b"(cell top(cellType GENERIC)(view v(viewType NETLIST)(interface";

/// The end of the file, from the end of the contents of the top cell.
pub const BEHIND_CONTENTS: &[u8] = b"))))(design t(cellRef top(libraryRef w))))";

pub const INV: &[u8] =
    b"(cell INV(cellType GENERIC)(view v(viewType NETLIST)(interface(port I(direction INPUT))(port O(direction OUTPUT)))))";

pub const B4: &[u8] =
    b"(cell B4(cellType GENERIC)(view v(viewType NETLIST)(interface(port(array(rename D \"D[3:0]\")4)(direction INPUT))(port E(direction INPUT)))))";

pub const ENDS: &[u8] = b"(port a(direction INPUT))(port y(direction OUTPUT))";

pub const INPUTS: &[u8] = b"(port a(direction INPUT))(port b(direction INPUT))";

/// A file of these cells and of `top` with this interface and these contents.
pub fn design_of(
    alloc: Global,
    cells: &[u8],
    interface: &[u8],
    contents: &[u8],
) -> Result<Vec<u8>, Fail> {
    text_of(
        alloc,
        &[
            UP_TO_CELLS,
            cells,
            UP_TO_INTERFACE,
            interface,
            b")(contents",
            contents,
            BEHIND_CONTENTS,
        ],
    )
}

/// A run on such a file: its words, the cells, the interface and the contents of `top`, the status, and what output and errors take.
pub type DesignRow<'a> = (
    &'a [&'a [u8]],
    &'a [&'a [u8]],
    &'a [u8],
    &'a [u8],
    u8,
    &'a [u8],
    &'a [u8],
);

fn is_answered<P: Program>(alloc: Global, row: DesignRow<'_>) -> Result<bool, Fail> {
    let (words, cells, interface, contents, status, output, errors) = row;
    let cells = text_of(alloc, cells)?;
    let text = design_of(alloc, cells.as_slice(), interface, contents)?;
    answers::<P>(alloc, words, text.as_slice(), status, output, errors)
}

/// The place of the first row whose run ends in another way, if there is one.
pub fn first_wrong_design<P: Program>(
    alloc: Global,
    rows: &[DesignRow<'_>],
) -> Result<Option<usize>, Fail> {
    for place in 0..rows.len() {
        if !is_answered::<P>(alloc, rows[place])? {
            return Ok(Some(place));
        }
    }
    Ok(None)
}
