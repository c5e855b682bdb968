// The written text of an EDIF file (EDIF 2 0 0, at level 0 and keyword level 0).
//
// `write_edif` puts exactly one text for each file: `edif_text`. The edif form, libraries, externals, cells, views, interfaces, contents, instances,
// nets, what they join, statuses and writings are blocks: a first line with the keyword and the name, further parts on lines with two blanks
// more of indent, and a line with `)`. Every other form stands on one line, with one blank between its parts; a status in a design stands on the
// design's line. A string has the bytes 32 to 126 other than `"` and `%` as themselves, and each longest run of other bytes is one escape.
// A number is decimal; a scaled number is its mantissa where the exponent is 0, else `(e M E)`. No aliases are written.
//
// A block may also be put part by part: `lay_file_start`, `lay_library_start`, `lay_cell_start`, `lay_view_start` and `lay_contents_start` put its
// lines up to its parts, `lay` each part, and `put_close` its last line.
//
// `write_edif` answers `Ok` exactly where the sink took the whole text; else a put of the sink failed, and the sink took a front of the text. It
// takes no memory.
#![tactic(auto)]

pub mod cell;
pub mod file;
pub mod forms;
pub mod name;
pub mod net;
pub mod note;
pub mod status;
pub mod string;
pub mod value;

pub use cell::{lay_cell_start, lay_contents_start, lay_view_start};
pub use file::{lay_file_start, lay_library_start, write_edif};
pub use forms::{OnLines, put_close};
